//! Lines of which a log is made, and lines that are made of a log.

ghost use Rattle.std.specs.Prelude.{◌≡◌, length, map, true, IfOk, IfSome};
ghost use Rattle.std.specs.Arc.{arc_value};
ghost use Rattle.pgp_lines.specs.declared.command.format.Format.TheVariants.{Three};
ghost use Rattle.pgp_log.specs.Log.{is_legal};
ghost use Rattle.pgp_core.specs.Added.{log_of_lines};
ghost use Rattle.pgp_core.specs.Lines.{lines_of};
ghost use Rattle.pgp_group.specs.Entries.{incs_of};
ghost use Rattle.pgp_join.specs.Bound.{IsJoinedLog};
ghost use Rattle.pgp_join.specs.Text.{MayStandFor};

use super::alike::are_alike;
use super::joined::join;
use super::line::entry_line;
use super::starts::inc_count;
use pgp_core::{Log, first_line};
use pgp_ids::Entry;
use pgp_lines::{Format, LineReader};
use std::alloc::{AllocError, Global};
use std::sync::Arc;

/// Lines of version 3, each with a line feed, whose log may stand for this legal log: one for each entry, where incrementals
/// are [joined](join()). Nothing where no such lines are found, as where one would be too long.
pub fn joined_lines(alloc: Global, entries: &[Arc<Entry>]) -> Result<Option<Vec<u8>>, AllocError>
    requires { is_legal (map arc_value entries.now) ≡ true }
    ensures { IfOk result (λ found. IfSome found (λ text. IsJoinedLog (map arc_value entries.now) (log_of_lines Three (lines_of text.items)))) }
{
    let joined = join(alloc, entries)?;
    match lines_of_entries(alloc, joined.as_slice())? {
        Some(text) => Ok(Some(text)),
        None => lines_of_entries(alloc, entries),
    }
}

/// A line for each entry of this legal log, if their log may stand for it.
fn lines_of_entries(alloc: Global, entries: &[Arc<Entry>]) -> Result<Option<Vec<u8>>, AllocError>
    requires { is_legal (map arc_value entries.now) ≡ true }
    ensures { IfOk result (λ found. IfSome found (λ text.
        MayStandFor (map arc_value entries.now) text.items (length entries.now) (length (incs_of (map arc_value entries.now))))) }
{
    let text = text_of_entries(alloc, entries)?;
    let incs = inc_count(alloc, entries)?;
    let mut log = Log::over(alloc, entries)?;
    let found = entries_if_alike(alloc, &mut log, text.as_slice(), incs)?;
    Ok((found == Some(entries.len())).then_some(text))
}

/// A line for each entry, each with a line feed.
fn text_of_entries(alloc: Global, entries: &[Arc<Entry>]) -> Result<Vec<u8>, AllocError> {
    let mut text = Vec::new(alloc);
    for entry in entries {
        let line = entry_line(alloc, entry)?;
        text.extend_from_slice(line.as_slice())?;
        text.push(b'\n')?;
    }
    Ok(text)
}

/// How many entries the log has that the lines of the text make, if it may stand for this log and has at most so many incrementals.
pub fn entries_if_alike(
    alloc: Global,
    log: &mut Log,
    text: &[u8],
    most_incs: usize,
) -> Result<Option<usize>, AllocError>
    ensures { IfOk result (λ found. IfSome found (λ entries. MayStandFor log.old text.now entries most_incs)) }
{
    let mut other = log_of_text(alloc, text)?;
    let incs = inc_count(alloc, other.entries())?;
    if most_incs < incs || !are_alike(alloc, log, &mut other)? {
        return Ok(None);
    }
    Ok(Some(other.entries().len()))
}

/// The log that the lines of the text make, up to version 3.
fn log_of_text(alloc: Global, text: &[u8]) -> Result<Log, AllocError>
    ensures { IfOk result (λ log. log ≡ log_of_lines Three (lines_of text.now)) }
{
    let mut log = Log::new(alloc);
    let mut reader = LineReader::new(alloc, Format::Three);
    let mut rest = text;
    while let Some((line, others)) = first_line(rest) {
        let _outcome = log.read_line(alloc, &mut reader, line)?;
        rest = others;
    }
    Ok(log)
}
