//! What a session says of a placement group.

ghost use Rattle.std.specs.Borrow.{sem};
ghost use Rattle.std.specs.Io.BufRead.{Rests};
ghost use Rattle.std.specs.Prelude.{◌≡◌, ◌↔◌, Ok, Err, IsSome, IfSome, IfOk, IfErr};
ghost use Rattle.pgp_core.specs.contracts.session.Session.{the_row};
ghost use Rattle.pgp_c.specs.Ask.{AnswersIn, AreOfGroup, group, whole_view};

use super::locate::pool_of;
use super::status::Status;
use pgp_core::Session;
use pgp_ids::{AskRefusal, PgId, View};

/// The greatest number of a group in its pool.
const LAST_GROUP: u32 = 1023;

/// What the session says of a group, except for count and epoch, or the status that says why there is no answer.
pub fn ask(session: &mut Session, pool: u32, pg: u32) -> Result<&View, u32>
    ensures view { IfOk result (λ view. AnswersIn session.old.log pool pg (Ok (whole_view session.old.log view.now))) }
    ensures status { IfErr result (λ status. AnswersIn session.old.log pool pg (Err status)) }
    ensures* same { sem 𝓛 (Rests the_row session.entry (λ last. last ≡ session.old)) }
{
    let Some(pg) = group_of(pool, pg) else {
        return Err(Status::BadArgument.number());
    };
    match session.view(&pg) {
        Ok(Some(view)) => Ok(view),
        Ok(None) => Err(u32::from(AskRefusal::UnknownGroup.number())),
        Err(_) => Err(Status::NoMemory.number()),
    }
}

/// The group with these numbers, if each is in its range.
pub fn group_of(pool: u32, pg: u32) -> Option<PgId>
    ensures in_range { IsSome result ↔ AreOfGroup pool pg }
    ensures value { IfSome result (λ id. id ≡ group pool pg) }
{
    if pg > LAST_GROUP {
        return None;
    }
    let pool = pool_of(pool)?;
    Some(PgId {
        pool,
        pg: pg as u16,
    })
}
