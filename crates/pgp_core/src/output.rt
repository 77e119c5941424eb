//! Writing answers: which of them wait, when they are written, and that each goes out whole or the write fails.

ghost use Rattle.std.specs.Prelude.{◌≡◌, [], ◌++◌, true, OnOk, OnErr};
ghost use Rattle.std.specs.Io.KnownBytes.{Appends};
ghost use Rattle.pgp_core.specs.Output.{WrittenPart, FrontWent};

use super::streams::Sink;
use std::alloc::Global;

/// A write failed, or took no byte.
#[derive(Clone, Copy)]
pub struct WriteFault;

/// How many bytes of answers wait before they are written.
const PENDING_LIMIT: usize = 65536;

/// Answers that are not yet written.
#[derive(Drop)]
pub struct Output {
    pub pending: Vec<u8>,
}

impl Output {
    pub fn new(alloc: Global) -> Self
        ensures { result.pending.items ≡ [] }
    {
        Output {
            pending: Vec::new(alloc),
        }
    }

    /// Writes what is pending, and has the writer pass it on.
    pub fn flush<W: Sink>(&mut self, writer: &mut W) -> Result<(), WriteFault>
        ensures ok { OnOk result (Appends (W.state writer.old).contents (W.state writer.new).contents self.old.pending.items) }
        ensures empty { OnOk result (self.new.pending.items ≡ []) }
        ensures err { OnErr result (FrontWent (W.state writer.old).contents (W.state writer.new).contents self.old.pending.items) }
        ensures failed { OnErr result ((W.state writer.new).failed ≡ true) }
        ensures kept { OnOk result ((W.state writer.new).failed ≡ (W.state writer.old).failed) }
        ensures passed_on { OnOk result ((W.state writer.new).passed_on ≡ true) }
    {
        pass_on(writer, self.pending.as_slice())?;
        self.pending.clear();
        Ok(())
    }

    /// Puts text after what is pending. Where there is no memory for it, all of it is written at once.
    pub fn put<W: Sink>(&mut self, text: &[u8], writer: &mut W) -> Result<(), WriteFault>
        ensures ok { OnOk result (WrittenPart (W.state writer.old).contents (W.state writer.new).contents
            (self.old.pending.items ++ text.now) self.new.pending.items) }
        ensures err { OnErr result (FrontWent (W.state writer.old).contents (W.state writer.new).contents
            (self.old.pending.items ++ text.now)) }
        ensures failed { OnErr result ((W.state writer.new).failed ≡ true) }
        ensures kept { OnOk result ((W.state writer.new).failed ≡ (W.state writer.old).failed) }
    {
        match self.pending.extend_from_slice(text) {
            Ok(()) if self.pending.len() <= PENDING_LIMIT => Ok(()),
            Ok(()) => self.flush(writer),
            Err(_) => {
                self.flush(writer)?;
                write_out(writer, text)
            }
        }
    }
}

/// Writes all of `text`.
fn write_out<W: Sink>(writer: &mut W, text: &[u8]) -> Result<(), WriteFault>
    ensures ok { OnOk result (Appends (W.state writer.old).contents (W.state writer.new).contents text.now) }
    ensures err { OnErr result (FrontWent (W.state writer.old).contents (W.state writer.new).contents text.now) }
    ensures failed { OnErr result ((W.state writer.new).failed ≡ true) }
    ensures kept { OnOk result ((W.state writer.new).failed ≡ (W.state writer.old).failed) }
{
    let mut rest = text;
    while !rest.is_empty() {
        let Ok(count) = writer.write(rest) else {
            return Err(WriteFault);
        };
        if count == 0 {
            return Err(WriteFault);
        }
        rest = &rest[count..];
    }
    Ok(())
}

/// Writes all of `text`, and has the writer pass it on.
pub fn pass_on<W: Sink>(writer: &mut W, text: &[u8]) -> Result<(), WriteFault>
    ensures ok { OnOk result (Appends (W.state writer.old).contents (W.state writer.new).contents text.now) }
    ensures err { OnErr result (FrontWent (W.state writer.old).contents (W.state writer.new).contents text.now) }
    ensures failed { OnErr result ((W.state writer.new).failed ≡ true) }
    ensures kept { OnOk result ((W.state writer.new).failed ≡ (W.state writer.old).failed) }
    ensures passed_on { OnOk result ((W.state writer.new).passed_on ≡ true) }
{
    write_out(writer, text)?;
    writer.flush().or(Err(WriteFault))
}
