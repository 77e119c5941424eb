//! An entry that C tells in values.

ghost use Rattle.pgp_c.specs.Submit.{TellsEntry};

use super::status::Status;
use pgp_core::Session;
use pgp_ids::Entry;
use pgp_text::{LineRefusal, Reply};

/// Adds an entry to the session's log. If the log refuses it, the status is the number of the refusal.
pub fn tell(session: &mut Session, entry: Entry) -> u32
    ensures { TellsEntry session.old session.new entry result }
{
    match session.submit(entry) {
        Ok(Reply::Refused(LineRefusal::Entry(refusal))) => u32::from(refusal.number()),
        Ok(_) => Status::Done.number(),
        Err(_) => Status::NoMemory.number(),
    }
}
