//! Calls that begin and end a session, tell it a line, and do its work ahead.

ghost use Rattle.std.specs.Prelude.{◌≡◌, Some, IfOk};
ghost use Rattle.pgp_lines.specs.declared.command.format.Format.TheVariants.{Two};
ghost use Rattle.pgp_c.specs.Copy.{IsCopy, OpensCopy};
ghost use Rattle.pgp_c.specs.Exports.{Opens, Closes, Tells, Repeats, session_format};
ghost use Rattle.pgp_c.specs.Work.{Works};

use super::VERSION;
use super::each::put_out;
use super::session::PgpSession;
use super::status::Status;
use pgp_core::Session;
use pgp_lines::Format;
use std::alloc::{AllocError, Global};

/// Opens a session with an empty log, which reads lines of versions 1 and 2.
#[unsafe(no_mangle)]
pub extern "C" fn pgp_open(alloc: Global, session: &mut PgpSession) -> u32
    ensures { Opens (Some Two) session.old.held.session session.new.held.session result }
{
    open(alloc, session, Some(Format::Two))
}

/// Opens a session with an empty log, which reads lines up to the version of this number: 2 or 3.
#[unsafe(no_mangle)]
pub extern "C" fn pgp_open_format(alloc: Global, session: &mut PgpSession, format: u32) -> u32
    ensures { Opens (session_format format) session.old.held.session session.new.held.session result }
{
    open(alloc, session, session_format(format))
}

/// The version of this number, where a session may read lines up to it.
pub fn session_format(number: u32) -> Option<Format>
    ensures { result ≡ session_format number }
{
    match number {
        2 => Some(Format::Two),
        3 => Some(Format::Three),
        _ => None,
    }
}

/// Opens a session with an empty log, which reads lines up to this version, where there is one.
fn open(alloc: Global, session: &mut PgpSession, format: Option<Format>) -> u32
    ensures { Opens format session.old.held.session session.new.held.session result }
{
    if session.is_open {
        return Status::AlreadyOpen.number();
    }
    let Some(format) = format else {
        return Status::BadArgument.number();
    };
    match Box::new(alloc, Session::new(alloc, format)) {
        Ok(opened) => {
            session.put(opened);
            Status::Done.number()
        }
        Err(_) => Status::NoMemory.number(),
    }
}

/// Opens `copy` with the log of `session`. They share the entries, which nobody changes.
#[unsafe(no_mangle)]
pub extern "C" fn pgp_open_copy(
    alloc: Global,
    copy: &mut PgpSession,
    session: &mut PgpSession,
) -> u32
    ensures { OpensCopy copy.old.held.session copy.new.held.session session.old.held.session session.new.held.session result }
{
    if copy.is_open {
        return Status::AlreadyOpen.number();
    }
    let Some(opened) = session.take(alloc) else {
        return Status::NotOpen.number();
    };
    let made = copy_of(alloc, &opened);
    session.put(opened);
    match made {
        Ok(made) => {
            copy.put(made);
            Status::Done.number()
        }
        Err(_) => Status::NoMemory.number(),
    }
}

/// A session with the log of this one.
fn copy_of(alloc: Global, session: &Session) -> Result<Box<Session>, AllocError>
    ensures { IfOk result (λ copy. IsCopy session.now copy.value) }
{
    let mut copy = Session::new(alloc, session.format());
    copy.go_on_with(session.entries())?;
    Ok(Box::new(alloc, copy)?)
}

/// Ends a session, and frees its memory.
#[unsafe(no_mangle)]
pub extern "C" fn pgp_close(alloc: Global, session: &mut PgpSession) -> u32
    ensures { Closes session.old.held.session session.new.held.session result }
{
    match session.take(alloc) {
        Some(_) => Status::Done.number(),
        None => Status::NotOpen.number(),
    }
}

/// Answers a line, which is given without its line feed. The answer is put at the start of `room` if it fits, and its length into
/// `length`. The answer to a blank line has no bytes. A line feed within the line is a blank of JSON. Where the room is too small,
/// the line has been answered all the same: else each entry would be judged twice.
#[unsafe(no_mangle)]
pub extern "C" fn pgp_line(
    alloc: Global,
    session: &mut PgpSession,
    line: &[u8],
    room: &mut [u8],
    length: &mut usize,
) -> u32
    ensures { Tells session.old.held.session session.new.held.session line.now room.old room.new length.new result }
{
    let Some(mut opened) = session.take(alloc) else {
        *length = 0;
        return Status::NotOpen.number();
    };
    let told = opened.answer(line);
    let put = put_out(opened.last_answer(), room, length);
    session.put(opened);
    match told {
        Ok(()) => put.number(),
        Err(_) => Status::NoMemory.number(),
    }
}

/// Gives the answer to the last line again.
#[unsafe(no_mangle)]
pub extern "C" fn pgp_answer(
    alloc: Global,
    session: &mut PgpSession,
    room: &mut [u8],
    length: &mut usize,
) -> u32
    ensures { Repeats session.old.held.session session.new.held.session room.old room.new length.new result }
{
    let Some(opened) = session.take(alloc) else {
        *length = 0;
        return Status::NotOpen.number();
    };
    let put = put_out(opened.last_answer(), room, length);
    session.put(opened);
    put.number()
}

/// Does at most `max` steps of what the session's next questions would have to do, and puts into `left` how many are left.
#[unsafe(no_mangle)]
pub extern "C" fn pgp_work(
    alloc: Global,
    session: &mut PgpSession,
    max: usize,
    left: &mut usize,
) -> u32
    ensures { Works session.old.held.session session.new.held.session left.new result }
{
    *left = 0;
    let Some(mut opened) = session.take(alloc) else {
        return Status::NotOpen.number();
    };
    let worked = opened.work(max);
    session.put(opened);
    match worked {
        Ok(steps) => {
            *left = steps;
            Status::Done.number()
        }
        Err(_) => Status::NoMemory.number(),
    }
}

/// The version of the library as one number: 10,000 times its first part, plus 100 times its second, plus its third.
#[unsafe(no_mangle)]
pub extern "C" fn pgp_version() -> u32
    ensures { result ≡ VERSION }
{
    VERSION
}
