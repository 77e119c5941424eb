//! Opening a session with the log that lines make.

ghost use Rattle.std.specs.Prelude.{◌≡◌, ◌≤◌, if◌then◌else◌, IfOk, OnOk};
ghost use Rattle.pgp_core.specs.Added.{added_by, with_added};
ghost use Rattle.pgp_core.specs.Lines.{lines_of};
ghost use Rattle.pgp_c.specs.Exports.{session_format};
ghost use Rattle.pgp_c.specs.OpenLines.{BeginsWith, HasReadLines, IsLineRefused, OpensLines, is_refused_outcome};

use super::session::PgpSession;
use super::session_calls::session_format;
use super::status::Status;
use pgp_core::{LineOutcome, Session, first_line};
use pgp_lines::Format;
use std::alloc::{AllocError, Global};

/// Opens a session with the log that the lines of a text make, up to the version of this number, and puts into `refused` how many of
/// them are refused.
#[unsafe(no_mangle)]
pub extern "C" fn pgp_open_lines(
    alloc: Global,
    session: &mut PgpSession,
    format: u32,
    text: &[u8],
    refused: &mut usize,
) -> u32
    ensures { OpensLines (session_format format) text.now session.old.held.session session.new.held.session refused.new result }
{
    *refused = 0;
    if session.is_open {
        return Status::AlreadyOpen.number();
    }
    let Some(format) = session_format(format) else {
        return Status::BadArgument.number();
    };
    match begin(alloc, format, text) {
        Ok((opened, count)) => {
            session.put(opened);
            *refused = count;
            Status::Done.number()
        }
        Err(_) => Status::NoMemory.number(),
    }
}

/// A session with the log that the lines of the text make, and how many of them are refused.
fn begin(alloc: Global, format: Format, text: &[u8]) -> Result<(Box<Session>, usize), AllocError>
    ensures { IfOk result (λ begun. BeginsWith format text.now begun.0.value begun.1) }
{
    let mut session = Session::new(alloc, format);
    let refused = read_lines(&mut session, text)?;
    let session = Box::new(alloc, session)?;
    Ok((session, refused))
}

/// Has the session read the lines of the text, and answers how many of them are refused.
fn read_lines(session: &mut Session, text: &[u8]) -> Result<usize, AllocError>
    ensures { IfOk result (HasReadLines session.old session.new (lines_of text.now)) }
{
    let mut refused = 0;
    let mut rest = text;
    while let Some((line, others)) = first_line(rest) {
        let more = read_line(session, line)?;
        refused += one_if(more);
        rest = others;
    }
    Ok(refused)
}

/// Has the session read a line, and answers whether it is refused.
fn read_line(session: &mut Session, line: &[u8]) -> Result<bool, AllocError>
    ensures refused { IfOk result (IsLineRefused session.old.format session.old.log line.now) }
    ensures log { OnOk result (session.new.log ≡ with_added session.old.log (added_by session.old.format session.old.log line.now)) }
    ensures answer { session.new.answer ≡ session.old.answer }
    ensures format { session.new.format ≡ session.old.format }
{
    let outcome = session.read(line)?;
    Ok(is_refusal(&outcome))
}

/// The line is refused.
fn is_refusal(outcome: &LineOutcome) -> bool
    ensures { result ≡ is_refused_outcome outcome.now }
{
    matches!(outcome, LineOutcome::Refused(_))
}

/// 1 where the line is refused, else 0.
fn one_if(refused: bool) -> usize
    ensures is { result ≡ (if refused then 1 else 0) }
    ensures few { result ≤ 1 }
{
    usize::from(refused)
}
