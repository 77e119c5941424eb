//! What the program does, over any reader and writers, and how it ends.

ghost use Rattle.std.specs.Prelude.{◌≡◌, true, OnErr, OnOk};
ghost use Rattle.pgp_cli.specs.Status.{HasEnded};
ghost use Rattle.pgp_core.specs.Account.{account};

use super::ending::Ending;
use super::engine_run::run_engine;
use super::fault::Fault;
use super::request::{Request, read_request};
use super::streams::Counted;
use super::tell::{help_or_usage, report_fault, report_left_out};
use pgp_core::{Sink, run_script};
use pgp_whole::{compact_script, explain};
use std::alloc::Global;
use std::io::Write;
use std::sync::Wait;
use std::thread::Threads;

/// Does what the words ask for, the program's name first, and says how that ended.
///
/// Answers, explanations, lines that remain and help go to `writer`. What is wrong goes to `errors`, also the refused lines of a
/// script that is explained, and how many entries a compaction left out. What cannot be written to `errors` is lost. A run with
/// workers starts threads and waits for them; anything else is done on this thread alone.
pub fn status_of<R: Counted, W: Sink, E: Write, T: Threads + Wait + Sync>(
    rt: &T,
    alloc: Global,
    words: &[String],
    reader: &mut R,
    writer: &mut W,
    errors: &mut E,
) -> Ending
    ensures ended { HasEnded result
        (account (R.state reader.old) (W.state writer.old))
        (account (R.state reader.new) (W.state writer.new)) }
    ensures passed_on { result ≡ Ending.Done → (W.state writer.new).passed_on ≡ true }
{
    match read_request(alloc, words) {
        Ok(request) => match carry_out(rt, alloc, request, reader, writer, errors) {
            Ok(()) => Ending::Done,
            Err(fault) => report_fault(fault, reader, errors),
        },
        Err(error) => help_or_usage(alloc, &error, words, reader, writer, errors),
    }
}

/// Does what is asked for to its end, unless there is a fault.
fn carry_out<R: Counted, W: Sink, E: Write, T: Threads + Wait + Sync>(
    rt: &T,
    alloc: Global,
    request: Request,
    reader: &mut R,
    writer: &mut W,
    errors: &mut E,
) -> Result<(), Fault>
    ensures done { OnOk result (HasEnded Ending.Done
        (account (R.state reader.old) (W.state writer.old))
        (account (R.state reader.new) (W.state writer.new))) }
    ensures fault { OnErr result (HasEnded Ending.Fault
        (account (R.state reader.old) (W.state writer.old))
        (account (R.state reader.new) (W.state writer.new))) }
    ensures passed_on { OnOk result ((W.state writer.new).passed_on ≡ true) }
{
    match request {
        Request::Run(options) => {
            let (shards, workers) = (usize::from(options.shards), usize::from(options.workers));
            if workers == 0 {
                return Ok(run_script(alloc, options.format, reader, writer)?);
            }
            Ok(run_engine(rt, alloc, options.format, reader, writer, shards, workers)?)
        }
        Request::Explain(question) => Ok(explain(alloc, &question, reader, writer, errors)?),
        Request::Compact(mode) => {
            let compacted = compact_script(alloc, mode, reader, writer)?;
            report_left_out(&compacted, errors);
            Ok(())
        }
    }
}
