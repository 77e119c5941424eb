//! What a line of a script is to a log that takes its entries and answers nothing.

ghost use Rattle.std.specs.Prelude.{◌≡◌, ℕ, List, IfOk, OnErr};
ghost use Rattle.pgp_lines.specs.declared.command.Command.TheVariants.{Ask, Locate, Submit};
ghost use Rattle.pgp_core.specs.Added.{IsOutcome, IsOutcomeOf, added_by, taken_from, with_added};
ghost use Rattle.pgp_core.specs.Wants.{MayFindNone, MayLackEntry, TakesMemory};

use super::line::{LONGEST_LINE, all_blank};
use super::log::Log;
use pgp_ids::{AskRefusal, LocateRefusal, TextFault};
use pgp_lines::{Command, LineReader};
use pgp_text::LineRefusal;
use std::alloc::{AllocError, Global};

/// What a line of a script is to the log before it.
#[derive(Drop)]
pub enum LineOutcome {
    /// It has only blanks.
    Blank,
    /// An entry, which the log has from now on.
    Taken,
    /// A question that a run would answer. It changes nothing.
    Asked,
    /// It is refused, and changes nothing.
    Refused(LineRefusal),
}

impl Log {
    /// Reads a line, given without its line feed, and takes its entry, if it is one that fits. Nothing is answered: a question
    /// isn't worked out.
    ///
    /// An error says that there was no memory to read the line or for its entry, and the log stays as it was.
    pub fn read_line(
        &mut self,
        alloc: Global,
        reader: &mut LineReader,
        line: &[u8],
    ) -> Result<LineOutcome, AllocError>
        ensures outcome { IfOk result (IsOutcome reader.old.format self.old line.now) }
        ensures log { IfOk result (λ _. self.new ≡ with_added self.old (added_by reader.old.format self.old line.now)) }
        ensures kept { OnErr result (self.new ≡ self.old) }
        ensures memory { OnErr result (TakesMemory line.now) }
        ensures format { reader.new.format ≡ reader.old.format }
    {
        if all_blank(line) {
            return Ok(LineOutcome::Blank);
        }
        if line.len() > LONGEST_LINE {
            return Ok(LineOutcome::Refused(LineRefusal::Line(TextFault::LineTooLong)));
        }
        match reader.read(alloc, line) {
            Ok(command) => obey(self, command),
            Err(TextFault::Memory) => Err(AllocError),
            Err(fault) => Ok(LineOutcome::Refused(LineRefusal::Line(fault))),
        }
    }
}

/// Takes the entry of the command, if it is one that fits. Only for that there may be no memory.
fn obey(log: &mut Log, command: Command) -> Result<LineOutcome, AllocError>
    ensures outcome { IfOk result (IsOutcomeOf log.old command) }
    ensures log { IfOk result (λ _. log.new ≡ with_added log.old (taken_from log.old command)) }
    ensures kept { OnErr result (log.new ≡ log.old) }
    ensures memory { OnErr result (MayLackEntry log.old command) }
{
    match command {
        Command::Submit(entry) => match log.take_if_fits(entry)? {
            None => Ok(LineOutcome::Taken),
            Some(refusal) => Ok(LineOutcome::Refused(LineRefusal::Entry(refusal))),
        },
        Command::Ask(pg) => if log.map().has_group(&pg) {
            Ok(LineOutcome::Asked)
        } else {
            Ok(LineOutcome::Refused(LineRefusal::Ask(AskRefusal::UnknownGroup)))
        },
        // It has an answer where the map has the pool, whatever the name is.
        Command::Locate { pool, .. } => match log.map().pool(pool) {
            Some(_) => Ok(LineOutcome::Asked),
            None => Ok(LineOutcome::Refused(LineRefusal::Locate(LocateRefusal::UnknownPool))),
        },
        Command::Trace { .. } => Ok(LineOutcome::Asked),
    }
}
