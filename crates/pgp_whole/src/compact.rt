//! Compacting a script.

ghost use Rattle.std.specs.Prelude.{◌≡◌, ◌≢◌, ◌++◌, ◌∷◌, [], true, length, map, count_by, if◌then◌else◌, IfOk, OnOk, OnErr};
ghost use Rattle.pgp_ids.specs.declared.pg_id.PgId.{PgId as Group};
ghost use Rattle.pgp_compact.specs.Needed.{chosen};
ghost use Rattle.pgp_core.specs.Run.{script_bounds};
ghost use Rattle.pgp_core.specs.Whole.{GivesTooMuch};
ghost use Rattle.pgp_whole.specs.Compaction.{HasCounts, IsCompacted, IsCompactedInPart, IsWritten};
ghost use Rattle.pgp_whole.specs.Remaining.{compacted_text, text_of_lines};

use super::entries::read_entries;
use super::join::joined;
use super::subcommand_fault::SubcommandFault;
use pgp_compact::needed;
use pgp_core::{SCRIPT_BOUNDS, Sink, Source, WholeFault, pass_on, read_whole};
use pgp_lines::Format;
use std::alloc::{AllocError, Global};

/// What became of the lines of a script.
#[derive(Clone, Copy, Debug, PartialEq, Eq)]
pub struct Compaction {
    /// How many entries its log has.
    pub entries: usize,
    /// How many of them remain.
    pub kept: usize,
    /// How many lines were refused, and add nothing to the log.
    pub refused: u64,
}

/// Which lines are written of a script.
#[derive(Clone, Copy, Debug)]
pub enum CompactMode {
    /// Those, up to this version, whose entries remain of the script's log where that is compacted: byte for byte, in their order.
    Remaining(Format),
    /// Lines whose log may stand for that of the lines that remain: lines of these, and lines of version 3 in place of incrementals
    /// that no answer tells apart. Lines up to version 3 are read. Where no such log is found that is short enough, the lines that
    /// remain are written.
    Joined,
}

/// Writes the lines of the script that this mode names, each with a line feed.
///
/// Nothing is written before the script is read to its end. At a fault nothing is written either, except at
/// [`SubcommandFault::Write`]: then a first part of the lines went out. Questions, blank lines and lines that are refused don't remain.
/// Where there is no memory for a line, no line is written, since its entry would be lost.
pub fn compact_script<R: Source, W: Sink>(
    alloc: Global,
    mode: CompactMode,
    reader: &mut R,
    writer: &mut W,
) -> Result<Compaction, SubcommandFault>
    ensures ok { IfOk result (λ counts. IsCompacted mode counts (R.state reader.old).remaining (R.state reader.new).remaining
        (W.state writer.old).contents (W.state writer.new).contents) }
    ensures read { result ≡ Err (SubcommandFault.Script WholeFault.Read) → (R.state reader.new).failed ≡ true }
    ensures large { result ≡ Err (SubcommandFault.Script WholeFault.TooLarge) → GivesTooMuch script_bounds (R.state reader.old).remaining (R.state reader.new).remaining }
    ensures write { result ≡ Err SubcommandFault.Write → IsCompactedInPart mode (R.state reader.old).remaining (R.state reader.new).remaining
        (W.state writer.old).contents (W.state writer.new).contents (W.state writer.new).failed }
    ensures known { (pg : Group) → result ≢ Err (SubcommandFault.UnknownGroup pg) }
    ensures quiet { OnErr result (result ≢ Err SubcommandFault.Write → writer.new ≡ writer.old) }
    ensures kept { OnOk result ((W.state writer.new).failed ≡ (W.state writer.old).failed) }
    ensures passed_on { OnOk result ((W.state writer.new).passed_on ≡ true) }
    ensures kept_reader { result ≢ Err (SubcommandFault.Script WholeFault.Read) → (R.state reader.new).failed ≡ (R.state reader.old).failed }
{
    let script = read_whole(alloc, reader, SCRIPT_BOUNDS)?;
    let (text, counts) = written(alloc, mode, script.as_slice())?;
    pass_on(writer, text.as_slice()).or(Err(SubcommandFault::Write))?;
    Ok(counts)
}

/// What is written of a script, and what became of its lines.
fn written(
    alloc: Global,
    mode: CompactMode,
    script: &[u8],
) -> Result<(Vec<u8>, Compaction), AllocError>
    ensures { IfOk result (λ made. IsWritten mode script.now made.0.items made.1) }
{
    match mode {
        CompactMode::Remaining(format) => compacted(alloc, format, script),
        CompactMode::Joined => joined(alloc, script),
    }
}

/// The lines that remain of a script, each with a line feed, and what became of them.
pub(crate) fn compacted(
    alloc: Global,
    format: Format,
    script: &[u8],
) -> Result<(Vec<u8>, Compaction), AllocError>
    ensures text { IfOk result (λ made. made.0.items ≡ compacted_text format script.now) }
    ensures counts { IfOk result (λ made. HasCounts format script.now made.1) }
{
    let read = read_entries(alloc, format, script)?;
    let needed = needed(alloc, read.log.entries())?;
    let choices = needed.as_slice();
    let text = text_of(alloc, read.lines.as_slice(), choices)?;
    let counts = Compaction {
        entries: choices.len(),
        kept: count_chosen(choices),
        refused: read.refused,
    };
    Ok((text, counts))
}

/// How many are chosen.
fn count_chosen(choices: &[bool]) -> usize
    ensures { result ≡ count_by (λ choice. choice) choices.now }
{
    choices.iter().filter(|choice| **choice).count()
}

/// The lines that are chosen, each with a line feed.
fn text_of(alloc: Global, lines: &[&[u8]], choices: &[bool]) -> Result<Vec<u8>, AllocError>
    requires { length choices.now ≡ length lines.now }
    ensures { IfOk result (λ text. text.items ≡ text_of_lines (chosen choices.now (map (λ line. line.now) lines.now))) }
{
    let mut text = Vec::new(alloc);
    for (place, line) in lines.iter().enumerate() {
        put_line(&mut text, line, choices[place])?;
    }
    Ok(text)
}

/// Puts the line behind the text, with a line feed, if it is chosen.
fn put_line(text: &mut Vec<u8>, line: &[u8], chosen: bool) -> Result<(), AllocError>
    ensures { OnOk result (text.new.items ≡ text.old.items ++ (if chosen then line.now ++ 10 ∷ [] else [])) }
{
    if chosen {
        text.extend_from_slice(line)?;
        text.push(b'\n')?;
    }
    Ok(())
}
