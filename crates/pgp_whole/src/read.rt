//! Reading a script whole, for the log that it makes.
ghost use Rattle.std.specs.Prelude.{◌≡◌, ◌≢◌, ◌⊎◌, [], true, Err, IfOk, IfErr, OnOk};
ghost use Rattle.std.specs.String.{string_bytes};
ghost use Rattle.pgp_core.specs.Added.{added_by, log_of_lines, with_added};
ghost use Rattle.pgp_core.specs.Lines.{lines_of};
ghost use Rattle.pgp_core.specs.Run.{script_bounds};
ghost use Rattle.pgp_core.specs.Whole.{GivesTooMuch};
ghost use Rattle.pgp_whole.specs.Reading.{HasRefused, IsLogOfScript, IsOfReading, IsRefusedInPart, IsRefusedLine};

use super::fault::put_fault;
use super::subcommand_fault::SubcommandFault;
use pgp_core::{LineOutcome, Log, SCRIPT_BOUNDS, Source, WholeFault, first_line, read_whole};
use pgp_lines::{Format, LineReader};
use std::alloc::{AllocError, Global};
use std::io::Write;

/// Reads a script whole, and gives the log that its lines up to this version make. What is wrong with them goes to `errors`, once
/// all are read; what can't be written there is lost. It is read whole since what is wrong with a line is looked up in the line.
pub fn read_log<R: Source, E: Write>(
    alloc: Global,
    format: Format,
    reader: &mut R,
    errors: &mut E,
) -> Result<Log, SubcommandFault>
    ensures ok { IfOk result (λ log. IsLogOfScript format log (R.state reader.old).remaining (R.state reader.new).remaining) }
    ensures told { (errors.new ≡ errors.old) ⊎ IsRefusedInPart format (R.state reader.old).remaining (R.state reader.new).remaining }
    ensures err { IfErr result (λ fault. IsOfReading fault) }
    ensures read { result ≡ Err (SubcommandFault.Script WholeFault.Read) → (R.state reader.new).failed ≡ true }
    ensures large { result ≡ Err (SubcommandFault.Script WholeFault.TooLarge) → GivesTooMuch script_bounds (R.state reader.old).remaining (R.state reader.new).remaining }
    ensures kept { result ≢ Err (SubcommandFault.Script WholeFault.Read) → (R.state reader.new).failed ≡ (R.state reader.old).failed }
{
    let script = read_whole(alloc, reader, SCRIPT_BOUNDS)?;
    let mut faults = String::new(alloc);
    let log = take_lines(alloc, format, script.as_slice(), &mut faults)?;
    put(errors, faults.as_str());
    Ok(log)
}

/// Writes the text, if there is any.
fn put<E: Write>(errors: &mut E, text: &str)
    ensures { text.now ≡ [] → errors.new ≡ errors.old }
{
    if !text.is_empty() {
        let _ = errors.write_all(text.as_bytes());
    }
}

/// The log that the lines of the script make. What is wrong with them is put behind `faults`, which is empty before.
fn take_lines(
    alloc: Global,
    format: Format,
    script: &[u8],
    faults: &mut String,
) -> Result<Log, AllocError>
    requires { string_bytes faults.old ≡ [] }
    ensures log { IfOk result (λ log. log ≡ log_of_lines format (lines_of script.now)) }
    ensures told { OnOk result ((string_bytes faults.new ≡ []) ⊎ HasRefused format [] (lines_of script.now)) }
{
    let mut log = Log::new(alloc);
    let mut reader = LineReader::new(alloc, format);
    let mut rest = script;
    let mut number = 0u64;
    while let Some((line, others)) = first_line(rest) {
        number = number.saturating_add(1);
        take_line(alloc, &mut log, &mut reader, line, number, faults)?;
        rest = others;
    }
    Ok(log)
}

/// Has the log take the line's entry, if it is one that fits, or puts what is wrong with the line behind `faults`.
fn take_line(
    alloc: Global,
    log: &mut Log,
    reader: &mut LineReader,
    line: &[u8],
    number: u64,
    faults: &mut String,
) -> Result<(), AllocError>
    ensures log { OnOk result (log.new ≡ with_added log.old (added_by reader.old.format log.old line.now)) }
    ensures told { OnOk result ((string_bytes faults.new ≡ string_bytes faults.old) ⊎ IsRefusedLine reader.old.format log.old line.now) }
    ensures format { reader.new.format ≡ reader.old.format }
{
    match log.read_line(alloc, reader, line)? {
        LineOutcome::Refused(why) => put_fault(alloc, reader, line, number, &why, faults),
        LineOutcome::Blank | LineOutcome::Taken | LineOutcome::Asked => Ok(()),
    }
}
