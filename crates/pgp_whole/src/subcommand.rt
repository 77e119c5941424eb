//! The subcommand, over any reader and writers.
ghost use Rattle.std.specs.Prelude.{◌≡◌, ◌≢◌, ◌⊎◌, true, Some, IfOk, IfErr, OnOk, string_bytes};
ghost use Rattle.pgp_ids.specs.declared.pg_id.PgId.{PgId as Group};
ghost use Rattle.pgp_core.specs.Run.{script_bounds};
ghost use Rattle.pgp_core.specs.Whole.{GivesTooMuch};
ghost use Rattle.pgp_whole.specs.Explanation.{HasNoGroup, IsExplainedInPart, IsExplained, SaysAsked, StopsText};
ghost use Rattle.pgp_whole.specs.Reading.{IsRefusedInPart};

use super::advice::advice_of;
use super::read::read_log;
use super::subcommand_fault::SubcommandFault;
use super::summary::summary_of;
use pgp_core::{Log, Sink, Source, WholeFault, pass_on};
use pgp_group_words::EpochOffset;
use pgp_ids::PgId;
use pgp_lines::Format;
use std::alloc::Global;
use std::io::Write;

/// Which group is to be explained, and how.
#[derive(Clone, Copy, Debug)]
pub struct Question {
    /// Up to which version lines are read.
    pub format: Format,
    /// The group; if there is none, a summary over all groups.
    pub pg: Option<PgId>,
    /// With ways that declare devices lost.
    pub losses: bool,
    /// One JSON object in place of words.
    pub json: bool,
    /// What is added to each epoch in the explanation, except to 0.
    pub epoch_offset: u32,
}

/// Reads a script whole, and says at its end why the group has its verdict and what it waits for; without a group, how many groups
/// have each verdict and for which devices they wait. What is wrong with lines goes to `errors`.
pub fn explain<R: Source, W: Sink, E: Write>(
    alloc: Global,
    asked: &Question,
    reader: &mut R,
    writer: &mut W,
    errors: &mut E,
) -> Result<(), SubcommandFault>
    // The reader is at its end, and the writer got the text that says what is asked for by the log that its script makes.
    ensures ok { OnOk result (IsExplained asked.now (R.state reader.old).remaining (R.state reader.new).remaining
        (W.state writer.old).contents (W.state writer.new).contents) }
    ensures kept { OnOk result ((W.state writer.new).failed ≡ (W.state writer.old).failed) }
    ensures passed_on { OnOk result ((W.state writer.new).passed_on ≡ true) }
    // A read failed, or the script is too large. At every other outcome no read failed.
    ensures read { result ≡ Err (SubcommandFault.Script WholeFault.Read) → (R.state reader.new).failed ≡ true }
    ensures large { result ≡ Err (SubcommandFault.Script WholeFault.TooLarge) → GivesTooMuch script_bounds (R.state reader.old).remaining (R.state reader.new).remaining }
    ensures reads { result ≢ Err (SubcommandFault.Script WholeFault.Read) → (R.state reader.new).failed ≡ (R.state reader.old).failed }
    // A write failed, and what went out is a first part of that text.
    ensures write { result ≡ Err SubcommandFault.Write → ((W.state writer.new).failed ≡ true) × IsExplainedInPart asked.now
        (R.state reader.old).remaining (R.state reader.new).remaining (W.state writer.old).contents (W.state writer.new).contents }
    // The map of that log doesn't have this group, which is the one that is asked about.
    ensures unknown { (pg : Group) → result ≡ Err (SubcommandFault.UnknownGroup pg) → (asked.now.pg ≡ Some pg)
        × HasNoGroup asked.now.format pg (R.state reader.old).remaining (R.state reader.new).remaining }
    // At every other fault nothing was written.
    ensures unwritten { IfErr result (λ fault. fault ≢ SubcommandFault.Write → writer.new ≡ writer.old) }
    // Nothing is told of lines, unless one of the script is refused.
    ensures told { (errors.new ≡ errors.old) ⊎ IsRefusedInPart asked.now.format (R.state reader.old).remaining (R.state reader.new).remaining }
{
    let mut log = read_log(alloc, asked.format, reader, errors)?;
    let text = asked_text(alloc, &mut log, asked)?;
    pass_on(writer, text.as_bytes()).or(Err(SubcommandFault::Write))
}

/// What the log says of the group, or of all groups where none is asked for.
fn asked_text(alloc: Global, log: &mut Log, asked: &Question) -> Result<String, SubcommandFault>
    ensures ok { IfOk result (λ text. SaysAsked log.old asked.now (string_bytes text)) }
    ensures err { IfErr result (λ fault. StopsText fault log.old asked.now.pg) }
{
    let offset = EpochOffset(asked.epoch_offset);
    match asked.pg {
        None => {
            let summary = summary_of(alloc, log)?;
            if asked.json {
                Ok(summary.json(alloc, offset)?)
            } else {
                Ok(summary.words(alloc, offset)?)
            }
        }
        Some(pg) => {
            let Some(advice) = advice_of(alloc, log, &pg, asked.losses, offset)? else {
                return Err(SubcommandFault::UnknownGroup(pg));
            };
            if asked.json {
                Ok(advice.json(alloc, offset)?)
            } else {
                Ok(advice.words(alloc, offset)?)
            }
        }
    }
}
