//! Help, and the messages where the program does not do what it is asked for.
ghost use Rattle.std.specs.Prelude.{◌≡◌, true};
ghost use Rattle.pgp_cli.specs.Status.{HasEnded};
ghost use Rattle.pgp_core.specs.Account.{account};

use super::ending::Ending;
use super::fault::Fault;
use super::streams::Counted;
use clap::Error;
use clap::error::ErrorKind;
use pgp_core::{Bounds, SCRIPT_BOUNDS, Sink, pass_on};
use pgp_whole::Compaction;
use std::alloc::{AllocError, Global};
use std::io;
use std::io::Write;

/// Shows help if that was asked for, and else says what is wrong with the command line.
pub fn help_or_usage<R: Counted, W: Sink, E: Write>(
    alloc: Global,
    error: &Error,
    words: &[String],
    reader: &R,
    writer: &mut W,
    errors: &mut E,
) -> Ending
    ensures ended { HasEnded result
        (account (R.state reader.now) (W.state writer.old))
        (account (R.state reader.now) (W.state writer.new)) }
    ensures passed_on { result ≡ Ending.Done → (W.state writer.new).passed_on ≡ true }
{
    if error.use_stderr() {
        return usage(error, words, errors);
    }
    let Ok(help) = format!(in alloc; "{error}") else {
        return usage(&Error::from(AllocError), words, errors);
    };
    match pass_on(writer, help.as_bytes()) {
        Ok(()) => Ending::Done,
        Err(_) => report_fault(Fault::Write, reader, errors),
    }
}

/// Says what is wrong with the command line, or that there was no memory to read it. Where a superfluous word after the subcommand is
/// no option, it may be the name of a script, so it says where a script comes from.
fn usage<E: Write>(error: &Error, words: &[String], errors: &mut E) -> Ending
    ensures { result ≡ Ending.Usage }
{
    let _ = write!(errors, "{error}");
    if error.kind() == ErrorKind::UnknownArgument
        && let [_, name, others @ ..] = words
        && matches!(name.as_str(), "run" | "explain" | "compact")
        && others.iter().any(|word| !word.as_str().starts_with('-'))
    {
        let _ = writeln!(
            errors,
            "\npgpeer {name} reads standard input: pgpeer {name} < FILE"
        );
    }
    Ending::Usage
}

/// Says why the words of the command line could not be read: one is no text, or there was no memory for them.
pub fn without_words<E: Write>(kind: io::ErrorKind, errors: &mut E) -> Ending {
    let why = match kind {
        io::ErrorKind::InvalidData => "an argument is not UTF-8",
        _ => "out of memory",
    };
    let _ = writeln!(errors, "error: {why}");
    Ending::Usage
}

/// Reports a fault in a line, and in a second one why the reader gave no more, where that is the fault.
pub fn report_fault<R: Counted, E: Write>(fault: Fault, reader: &R, errors: &mut E) -> Ending
    ensures { result ≡ Ending.Fault }
{
    let _ = writeln!(errors, "pgpeer: {fault}");
    if matches!(fault, Fault::Read) {
        report_end(reader, errors);
    }
    Ending::Fault
}

/// Reports why the reader gave no more and did not come to its end. Where a read had failed before the run, it is told as that.
fn report_end<R: Counted, E: Write>(reader: &R, errors: &mut E) {
    let Bounds { lines, bytes } = SCRIPT_BOUNDS;
    let given = reader.given();
    let line = given.lines.saturating_add(1);
    let _ = if reader.has_failed() {
        writeln!(errors, "pgpeer: a read failed in line {line}")
    } else if given.bytes > bytes {
        writeln!(
            errors,
            "pgpeer: the script has more than {bytes} bytes, in line {line}"
        )
    } else {
        writeln!(errors, "pgpeer: the script has more than {lines} lines")
    };
}

/// Reports how many entries a compaction left out, and how many lines were refused.
pub fn report_left_out<E: Write>(counts: &Compaction, errors: &mut E) {
    let left_out = counts.entries.saturating_sub(counts.kept);
    let _ = write!(
        errors,
        "pgpeer: left out {left_out} of {} entries",
        counts.entries
    );
    let _ = match counts.refused {
        0 => writeln!(errors),
        1 => writeln!(errors, "; 1 line was refused"),
        refused => writeln!(errors, "; {refused} lines were refused"),
    };
}
