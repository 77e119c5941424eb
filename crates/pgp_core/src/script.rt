//! Answering a script: its lines are read, and the answer to each is written.

ghost use Rattle.std.specs.Prelude.{◌≡◌, ◌≢◌, ℕ, ◌+◌, ◌<◌, List, [], ◌∷◌, ◌++◌, Bool, true, Option, OnOk, IfOk, IfErr, length};
ghost use Rattle.std.specs.Io.KnownBytes.{IsAtEnd};
ghost use Rattle.pgp_ids.specs.declared.entry.Entry.{Entry};
ghost use Rattle.pgp_core.specs.kept.Line.{HoldsLine};
ghost use Rattle.pgp_core.specs.Account.{account, ReadsFailed, WritesFailed};
ghost use Rattle.pgp_core.specs.Run.{AllAnswered, Stopped, bounds_of, script_bounds};
ghost use Rattle.pgp_core.specs.Telling.{AreAnswered, RunStart, IsAnsweredWhole, IsStopped, StoppedAtLast, Stops, RanToEnd, WasStopped, run_start};
ghost use Rattle.pgp_core.specs.kept.Progress.{IsAfterBytes, StopsIn, Reads};

use super::answer::Answerer;
use super::codec::Codec;
use super::fault::ScriptFault;
use super::input::{Bounds, Input, SCRIPT_BOUNDS, split_line};
use super::log::Log;
use super::output::Output;
use super::streams::{Sink, Source};
use pgp_lines::Format;
use std::alloc::Global;

/// How many bytes a read asks for.
const CHUNK: usize = 65536;

/// A script that is being answered.
#[derive(Drop)]
pub struct Script {
    pub input: Input,
    pub output: Output,
    pub codec: Codec,
}

impl Script {
    fn new(alloc: Global, format: Format, bounds: Bounds) -> Self
        ensures left { result.input.left ≡ bounds }
        ensures start { (alone : Bool) (log : List Entry) (written : Option (List ℕ))
            → IsAfterBytes alone (run_start format log bounds written) result log written [] }
    {
        Script {
            input: Input::new(alloc, bounds),
            output: Output::new(alloc),
            codec: Codec::new(alloc, format),
        }
    }

    /// Answers the line that is being read, which ends with this piece. Where nobody answers it any more, what is pending is
    /// written.
    fn put_answer<A: Answerer, W: Sink>(
        &mut self,
        alloc: Global,
        piece: &[u8],
        answerer: &mut A,
        writer: &mut W,
    ) -> Result<(), ScriptFault>
        ensures ok { OnOk result ((line : List ℕ) → HoldsLine self.old.input.line line → (start : RunStart) (lines : List (List ℕ))
            → self.old.codec.reader.format ≡ start.format → AreAnswered A.alone start lines (A.log answerer.old) (W.state writer.old).contents self.old.output.pending.items
            → AreAnswered A.alone start (lines ++ (line ++ piece.now) ∷ []) (A.log answerer.new) (W.state writer.new).contents self.new.output.pending.items) }
        ensures err { IfErr result (λ fault. (line : List ℕ) → HoldsLine self.old.input.line line → (start : RunStart) (lines others : List (List ℕ))
            → self.old.codec.reader.format ≡ start.format → AreAnswered A.alone start lines (A.log answerer.old) (W.state writer.old).contents self.old.output.pending.items
            → (fault ≢ ScriptFault.Read) × IsStopped A.alone start fault (W.state writer.new).contents (lines ++ (line ++ piece.now) ∷ others)) }
        ensures failed { WritesFailed result (W.state writer.old).failed (W.state writer.new).failed }
        ensures passed_on { IfErr result (λ fault. fault ≢ ScriptFault.Write → (W.state writer.new).passed_on ≡ true) }
        ensures left { self.new.input.left ≡ self.old.input.left }
        ensures format { self.new.codec.reader.format ≡ self.old.codec.reader.format }
    {
        let answer = self.input.line.answer(
            alloc,
            &mut self.codec,
            piece,
            answerer,
            &mut self.output.pending,
        );
        let Some(rest) = answer else {
            self.output.flush(writer)?;
            return Err(ScriptFault::Gone);
        };
        self.output.put(rest, writer)?;
        Ok(())
    }

    /// Takes bytes that were read, as far as the bounds allow.
    fn take<A: Answerer, W: Sink>(
        &mut self,
        alloc: Global,
        chunk: &[u8],
        answerer: &mut A,
        writer: &mut W,
    ) -> Result<(), ScriptFault>
        ensures left { OnOk result (self.new.input.left.bytes + length chunk.now ≡ self.old.input.left.bytes) }
        ensures ok { OnOk result ((start : RunStart) (bytes : List ℕ)
            → IsAfterBytes A.alone start self.old (A.log answerer.old) (W.state writer.old).contents bytes
            → IsAfterBytes A.alone start self.new (A.log answerer.new) (W.state writer.new).contents (bytes ++ chunk.now)) }
        ensures err { IfErr result (λ fault. (start : RunStart) (bytes : List ℕ)
            → IsAfterBytes A.alone start self.old (A.log answerer.old) (W.state writer.old).contents bytes
            → StopsIn A.alone start fault (W.state writer.new).contents (bytes ++ chunk.now)) }
        ensures failed { WritesFailed result (W.state writer.old).failed (W.state writer.new).failed }
        ensures passed_on { IfErr result (λ fault. fault ≢ ScriptFault.Write → (W.state writer.new).passed_on ≡ true) }
    {
        let mut rest = chunk;
        while !rest.is_empty() {
            if self.input.is_full() {
                self.output.flush(writer)?;
                return Err(ScriptFault::Read);
            }
            let allowed = self.input.allowed(rest);
            match split_line(allowed) {
                Some((piece, _)) => {
                    self.put_answer(alloc, piece, answerer, writer)?;
                    self.input.end_line(piece);
                    rest = &rest[piece.len() + 1..];
                }
                None => {
                    self.input.add(allowed);
                    rest = &rest[allowed.len()..];
                }
            }
        }
        Ok(())
    }

    /// Answers a last line that no line feed ends, and writes what is pending.
    fn finish<A: Answerer, W: Sink>(
        &mut self,
        alloc: Global,
        answerer: &mut A,
        writer: &mut W,
    ) -> Result<(), ScriptFault>
        ensures ok { OnOk result ((start : RunStart) (bytes : List ℕ)
            → IsAfterBytes A.alone start self.old (A.log answerer.old) (W.state writer.old).contents bytes
            → IsAnsweredWhole A.alone start (A.log answerer.new) (W.state writer.new).contents [] bytes) }
        ensures err { IfErr result (λ fault. (start : RunStart) (bytes : List ℕ)
            → IsAfterBytes A.alone start self.old (A.log answerer.old) (W.state writer.old).contents bytes
            → StoppedAtLast A.alone start fault (W.state writer.new).contents bytes) }
        ensures failed { WritesFailed result (W.state writer.old).failed (W.state writer.new).failed }
        ensures passed_on { result ≢ Err ScriptFault.Write → (W.state writer.new).passed_on ≡ true }
    {
        if self.input.line.started {
            self.put_answer(alloc, &[], answerer, writer)?;
        }
        self.output.flush(writer)?;
        Ok(())
    }

    /// Writes what is pending, reads once, and answers the lines that end in what was read. Gives how many bytes that was:
    /// none only at the end.
    fn read_on<A: Answerer, R: Source, W: Sink>(
        &mut self,
        alloc: Global,
        chunk: &mut [u8],
        answerer: &mut A,
        reader: &mut R,
        writer: &mut W,
    ) -> Result<usize, ScriptFault>
        ensures ok { OnOk result ((start : RunStart) (from : Option (List ℕ))
            → Reads A.alone start self.old (A.log answerer.old) from (R.state reader.old).remaining (W.state writer.old).contents
            → Reads A.alone start self.new (A.log answerer.new) from (R.state reader.new).remaining (W.state writer.new).contents) }
        ensures left { IfOk result (λ count. self.new.input.left.bytes + count ≡ self.old.input.left.bytes) }
        ensures end { IfOk result (λ count. count ≡ 0 → 0 < length chunk.old → IsAtEnd (R.state reader.new).remaining) }
        ensures err { IfErr result (λ fault. (start : RunStart) (from : Option (List ℕ))
            → Reads A.alone start self.old (A.log answerer.old) from (R.state reader.old).remaining (W.state writer.old).contents
            → Stops A.alone start fault from (R.state reader.new).remaining (W.state writer.new).contents (R.state reader.new).failed) }
        ensures reads { ReadsFailed result (R.state reader.old).failed (R.state reader.new).failed }
        ensures writes { WritesFailed result (W.state writer.old).failed (W.state writer.new).failed }
        ensures passed_on { IfErr result (λ fault. fault ≢ ScriptFault.Write → (W.state writer.new).passed_on ≡ true) }
    {
        self.output.flush(writer)?;
        let count = match reader.read(chunk) {
            Ok(count) => count,
            Err(_) => return Err(ScriptFault::Read),
        };
        self.take(alloc, &chunk[..count], answerer, writer)?;
        Ok(count)
    }
}

/// Answers the script that the reader gives, at most a million lines and 4 GiB, with lines up to this version.
pub fn run_script<R: Source, W: Sink>(
    alloc: Global,
    format: Format,
    reader: &mut R,
    writer: &mut W,
) -> Result<(), ScriptFault>
    ensures ok { OnOk result (AllAnswered true format script_bounds
        (account (R.state reader.old) (W.state writer.old))
        (account (R.state reader.new) (W.state writer.new))) }
    ensures err { IfErr result (Stopped true format script_bounds
        (account (R.state reader.old) (W.state writer.old))
        (account (R.state reader.new) (W.state writer.new))) }
    ensures never_gone { result ≢ Err ScriptFault.Gone }
    ensures passed_on { result ≢ Err ScriptFault.Write → (W.state writer.new).passed_on ≡ true }
{
    run_script_within(
        alloc,
        format,
        reader,
        writer,
        SCRIPT_BOUNDS.lines,
        SCRIPT_BOUNDS.bytes,
    )
}

/// Answers the script that the reader gives, of at most this many lines and this many bytes, with lines up to this version.
///
/// What was read is answered to its end, and a fault says what it leaves: after [`ScriptFault::Read`] the lines that
/// were read whole within the bounds are answered, and after [`ScriptFault::Write`] a first part of the answers went out. A
/// fault is told only where a read or a write failed, or the script is larger than its bounds: it is never
/// [`ScriptFault::Gone`].
pub fn run_script_within<R: Source, W: Sink>(
    alloc: Global,
    format: Format,
    reader: &mut R,
    writer: &mut W,
    max_lines: u64,
    max_bytes: u64,
) -> Result<(), ScriptFault>
    ensures ok { OnOk result (AllAnswered true format (bounds_of max_lines max_bytes)
        (account (R.state reader.old) (W.state writer.old))
        (account (R.state reader.new) (W.state writer.new))) }
    ensures err { IfErr result (Stopped true format (bounds_of max_lines max_bytes)
        (account (R.state reader.old) (W.state writer.old))
        (account (R.state reader.new) (W.state writer.new))) }
    ensures never_gone { result ≢ Err ScriptFault.Gone }
    ensures passed_on { result ≢ Err ScriptFault.Write → (W.state writer.new).passed_on ≡ true }
{
    let bounds = Bounds {
        lines: max_lines,
        bytes: max_bytes,
    };
    answer_script(alloc, format, &mut Log::new(alloc), reader, writer, bounds)
}

/// Has the answerer answer the script that the reader gives, within bounds, with lines up to this version.
///
/// A fault says what it leaves, as at [`run_script_within`]. After [`ScriptFault::Gone`] the lines before the first one that
/// nobody answers are answered, and no line from there on.
pub fn answer_script<A: Answerer, R: Source, W: Sink>(
    alloc: Global,
    format: Format,
    answerer: &mut A,
    reader: &mut R,
    writer: &mut W,
    bounds: Bounds,
) -> Result<(), ScriptFault>
    ensures ok { OnOk result (RanToEnd A.alone format bounds (A.log answerer.old) (A.log answerer.new)
        (account (R.state reader.old) (W.state writer.old))
        (account (R.state reader.new) (W.state writer.new))) }
    ensures err { IfErr result (WasStopped A.alone format bounds (A.log answerer.old)
        (account (R.state reader.old) (W.state writer.old))
        (account (R.state reader.new) (W.state writer.new))) }
    ensures passed_on { result ≢ Err ScriptFault.Write → (W.state writer.new).passed_on ≡ true }
{
    let mut chunk = [0u8; CHUNK];
    let mut script = Script::new(alloc, format, bounds);
    while script.read_on(alloc, &mut chunk, answerer, reader, writer)? != 0 {}
    script.finish(alloc, answerer, writer)?;
    Ok(())
}
