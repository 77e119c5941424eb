//! Calls that tell a session's log entries in values, say what it has, and shorten it.

ghost use Rattle.std.specs.Prelude.{◌≡◌, ◌-◌, length, IfOk, IfSome, OnOk, OnErr};
ghost use Rattle.pgp_compact.specs.Compacted.{compacted};
ghost use Rattle.pgp_c.specs.Compact.{Compacts};
ghost use Rattle.pgp_c.specs.Inc.{SubmitsInc};
ghost use Rattle.pgp_c.specs.Info.{Submits};
ghost use Rattle.pgp_c.specs.JoinedLines.{Joins, JoinsIn, StandFor};
ghost use Rattle.pgp_c.specs.Log.{AsksLog};
ghost use Rattle.pgp_c.specs.Needed.{Needs};
ghost use Rattle.pgp_c.specs.Report.{SubmitsEntries};
ghost use Rattle.pgp_c.specs.Submit.{SubmitsClose};

use super::each::{put_each, put_out};
use super::inc::{PgpInc, submit_inc};
use super::info::{PgpInfo, submit_info};
use super::log::{PgpLog, log_of};
use super::report::{PgpLogEntry, PgpReport, submit_entries};
use super::session::PgpSession;
use super::status::Status;
use super::submit::tell;
use pgp_compact::laws::a_compacted_log_is_legal;
use pgp_compact::{compact, needed};
use pgp_core::Session;
use pgp_ids::Entry;
use pgp_join::joined_lines;
use std::alloc::{AllocError, Global};

/// Adds to the session's log a map incremental. If the log refuses it, the status is the number of the refusal.
#[unsafe(no_mangle)]
pub extern "C" fn pgp_submit_inc(alloc: Global, session: &mut PgpSession, inc: &PgpInc<'_>) -> u32
    ensures { SubmitsInc session.old.held.session session.new.held.session inc.now result }
{
    let Some(mut opened) = session.take(alloc) else {
        return Status::NotOpen.number();
    };
    let status = submit_inc(alloc, &mut opened, inc);
    session.put(opened);
    status
}

/// Adds to the session's log what a member says of its copy of a group. If the log refuses it, the status is the number of the
/// refusal.
#[unsafe(no_mangle)]
pub extern "C" fn pgp_submit_info(alloc: Global, session: &mut PgpSession, info: &PgpInfo) -> u32
    ensures { Submits session.old.held.session session.new.held.session info.now result }
{
    let Some(mut opened) = session.take(alloc) else {
        return Status::NotOpen.number();
    };
    let status = submit_info(&mut opened, info);
    session.put(opened);
    status
}

/// Adds to the session's log a part of a member's log. If the log refuses it, the status is the number of the refusal.
#[unsafe(no_mangle)]
pub extern "C" fn pgp_submit_entries(
    alloc: Global,
    session: &mut PgpSession,
    report: &PgpReport,
    log: &[PgpLogEntry],
) -> u32
    ensures { SubmitsEntries session.old.held.session session.new.held.session report.now log.now result }
{
    let Some(mut opened) = session.take(alloc) else {
        return Status::NotOpen.number();
    };
    let status = submit_entries(alloc, &mut opened, report, log);
    session.put(opened);
    status
}

/// Adds to the session's log its last entry, after which it takes no further one. If the log refuses it, the status is the number of
/// the refusal.
#[unsafe(no_mangle)]
pub extern "C" fn pgp_submit_close(alloc: Global, session: &mut PgpSession) -> u32
    ensures { SubmitsClose session.old.held.session session.new.held.session result }
{
    let Some(mut opened) = session.take(alloc) else {
        return Status::NotOpen.number();
    };
    let status = tell(&mut opened, Entry::Close);
    session.put(opened);
    status
}

/// Puts into `log` what a session knows of its log.
#[unsafe(no_mangle)]
pub extern "C" fn pgp_ask_log(alloc: Global, session: &mut PgpSession, log: &mut PgpLog) -> u32
    ensures { AsksLog session.old.held.session session.new.held.session log.old log.new result }
{
    let Some(opened) = session.take(alloc) else {
        return Status::NotOpen.number();
    };
    *log = log_of(&opened);
    session.put(opened);
    Status::Done.number()
}

/// Puts for each entry of the session's log whether it stays where that is compacted into `room` if they fit, and the number of the
/// entries into `count`.
#[unsafe(no_mangle)]
pub extern "C" fn pgp_needed(
    alloc: Global,
    session: &mut PgpSession,
    room: &mut [u8],
    count: &mut usize,
) -> u32
    ensures { Needs session.old.held.session session.new.held.session room.old room.new count.new result }
{
    *count = 0;
    let Some(opened) = session.take(alloc) else {
        return Status::NotOpen.number();
    };
    let found = needed(alloc, opened.entries());
    session.put(opened);
    match found {
        Ok(choices) => put_each(choices.as_slice(), room, count).number(),
        Err(_) => Status::NoMemory.number(),
    }
}

/// Removes from the session's log reports that no answer needs, and puts their number into `left_out`.
#[unsafe(no_mangle)]
pub extern "C" fn pgp_compact_log(
    alloc: Global,
    session: &mut PgpSession,
    left_out: &mut usize,
) -> u32
    ensures { Compacts session.old.held.session session.new.held.session left_out.new result }
{
    *left_out = 0;
    let Some(mut opened) = session.take(alloc) else {
        return Status::NotOpen.number();
    };
    let compacted = compact_log(alloc, &mut opened);
    session.put(opened);
    match compacted {
        Ok(less) => {
            *left_out = less;
            Status::Done.number()
        }
        Err(_) => Status::NoMemory.number(),
    }
}

/// Removes from the session's log reports that no answer needs, and answers their number.
fn compact_log(alloc: Global, session: &mut Session) -> Result<usize, AllocError>
    ensures log { OnOk result (session.new.log ≡ compacted session.old.log) }
    ensures less { IfOk result (λ less. less ≡ length session.old.log - length session.new.log) }
    ensures answer { session.new.answer ≡ session.old.answer }
    ensures format { session.new.format ≡ session.old.format }
    ensures kept { OnErr result (session.new.log ≡ session.old.log) }
{
    a_compacted_log_is_legal();
    let kept = compact(alloc, session.entries())?;
    let less = session.entries().len() - kept.len();
    session.go_on_with(kept.as_slice())?;
    Ok(less)
}

/// Has the session answer with lines that may stand for its log, as with the answer to a line.
#[unsafe(no_mangle)]
pub extern "C" fn pgp_joined_lines(
    alloc: Global,
    session: &mut PgpSession,
    room: &mut [u8],
    length: &mut usize,
) -> u32
    ensures { Joins session.old.held.session session.new.held.session room.old room.new length.new result }
{
    *length = 0;
    let Some(mut opened) = session.take(alloc) else {
        return Status::NotOpen.number();
    };
    let status = put_joined_lines(alloc, &mut opened, room, length);
    session.put(opened);
    status
}

/// Puts lines that may stand for the session's log at the start of `room` if they fit, and how many bytes they have into `length`.
/// They are the session's answer from then on.
fn put_joined_lines(
    alloc: Global,
    session: &mut Session,
    room: &mut [u8],
    length: &mut usize,
) -> u32
    requires { length.old ≡ 0 }
    ensures { JoinsIn session.old session.new room.old room.new length.new result }
{
    match lines_of(alloc, session) {
        Ok(Some(text)) => {
            session.answer_with(text);
            put_out(session.last_answer(), room, length).number()
        }
        Ok(None) => Status::NoLines.number(),
        Err(_) => Status::NoMemory.number(),
    }
}

/// Lines that may stand for the session's log, where such are found.
fn lines_of(alloc: Global, session: &Session) -> Result<Option<Vec<u8>>, AllocError>
    ensures { IfOk result (λ found. IfSome found (λ text. StandFor session.now.log text.items)) }
{
    a_compacted_log_is_legal();
    let kept = compact(alloc, session.entries())?;
    joined_lines(alloc, kept.as_slice())
}
