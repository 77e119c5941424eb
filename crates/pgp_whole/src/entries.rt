//! The entries that the lines of a script add to its log.

ghost use Rattle.std.specs.Prelude.{◌≡◌, ℕ, List, [], ◌∷◌, ◌++◌, IfOk, OnOk};
ghost use Rattle.pgp_core.specs.Lines.{lines_of};
ghost use Rattle.pgp_whole.specs.kept.Entries.{IsReadTo, kept_of, texts};

use pgp_core::{LineOutcome, Log, first_line};
use pgp_lines::{Format, LineReader};
use std::alloc::{AllocError, Global};

/// The log that the lines of a script make, and the lines that added its entries.
#[derive(Drop)]
pub(crate) struct ScriptEntries<'a> {
    pub(crate) log: Log,
    /// Without their line feeds, one for each entry of the log.
    pub(crate) lines: Vec<&'a [u8]>,
    /// How many lines were refused.
    pub(crate) refused: u64,
}

/// The entries of all lines of the script up to this version.
pub(crate) fn read_entries(
    alloc: Global,
    format: Format,
    script: &[u8],
) -> Result<ScriptEntries<'_>, AllocError>
    ensures { IfOk result (λ read. IsReadTo format (lines_of script.now) [] read) }
{
    let mut read = ScriptEntries {
        log: Log::new(alloc),
        lines: Vec::new(alloc),
        refused: 0,
    };
    let mut reader = LineReader::new(alloc, format);
    let mut rest = script;
    while let Some((line, others)) = first_line(rest) {
        read.take(alloc, &mut reader, line)?;
        rest = others;
    }
    Ok(read)
}

impl<'a> ScriptEntries<'a> {
    /// Takes the next line.
    fn take(
        &mut self,
        alloc: Global,
        reader: &mut LineReader,
        line: &'a [u8],
    ) -> Result<(), AllocError>
        ensures read { OnOk result ((lines rest : List (List ℕ)) → IsReadTo reader.old.format lines (line.now ∷ rest) self.old
            → IsReadTo reader.old.format lines rest self.new) }
        ensures format { reader.new.format ≡ reader.old.format }
    {
        let outcome = self.log.read_line(alloc, reader, line)?;
        self.note(line, &outcome)
    }

    /// Keeps the line if it added an entry, and counts it if it was refused.
    fn note(&mut self, line: &'a [u8], outcome: &LineOutcome) -> Result<(), AllocError>
        ensures log { self.new.log ≡ self.old.log }
        ensures lines { OnOk result (texts self.new ≡ texts self.old ++ kept_of outcome.now line.now) }
    {
        match outcome {
            LineOutcome::Taken => self.lines.push(line)?,
            LineOutcome::Refused(_) => self.refused = self.refused.saturating_add(1),
            LineOutcome::Blank | LineOutcome::Asked => {}
        }
        Ok(())
    }
}
