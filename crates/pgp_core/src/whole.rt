//! Reading a script whole, before anything is done with it.

ghost use Rattle.std.specs.Prelude.{◌≡◌, ◌≢◌, ℕ, ◌+◌, ◌<◌, ◌≤◌, List, [], ◌∷◌, Option, OnOk, IfOk, IfSome, IfNone, length, nat_le, true};
ghost use Rattle.std.specs.Io.KnownBytes.{Consumes, IsAtEnd};
ghost use Rattle.pgp_core.specs.Lines.{lines_of};
ghost use Rattle.pgp_core.specs.Whole.{GivesTooMuch, IsWholeScript};

use super::input::{Bounds, split_line};
use super::streams::Source;
use std::alloc::{AllocError, Global};
use thiserror::Error;

/// How many bytes a read asks for.
const CHUNK: usize = 65536;

/// Why a script could not be read whole, or nothing could be made of it.
#[derive(Clone, Copy, Debug, PartialEq, Eq, Error)]
pub enum WholeFault {
    /// A read failed.
    #[error("read fault")]
    Read,
    /// It is larger than its bounds.
    #[error("the script is too large")]
    TooLarge,
    /// It was out of memory.
    #[error("out of memory")]
    Memory,
}

impl From<AllocError> for WholeFault {
    ghost use Rattle.std.specs.Prelude.{◌≡◌};
    ghost use Rattle.pgp_core.specs.declared.whole.WholeFault.TheVariants.{Memory};

    ghost from_gives = { λ _ fault. fault ≡ Memory };

    fn from(_error: AllocError) -> WholeFault {
        WholeFault::Memory
    }
}

/// The bytes of the script that the reader gives, to its end.
pub fn read_whole<R: Source>(
    alloc: Global,
    reader: &mut R,
    bounds: Bounds,
) -> Result<Vec<u8>, WholeFault>
    ensures ok { IfOk result (λ script. IsWholeScript bounds script.items (R.state reader.old).remaining (R.state reader.new).remaining) }
    ensures read { result ≡ Err WholeFault.Read → (R.state reader.new).failed ≡ true }
    ensures large { result ≡ Err WholeFault.TooLarge → GivesTooMuch bounds (R.state reader.old).remaining (R.state reader.new).remaining }
    ensures kept { result ≢ Err WholeFault.Read → (R.state reader.new).failed ≡ (R.state reader.old).failed }
{
    let mut chunk = [0u8; CHUNK];
    let mut script = Vec::new(alloc);
    loop {
        let Ok(count) = reader.read(&mut chunk) else {
            return Err(WholeFault::Read);
        };
        if count == 0 {
            break;
        }
        if count as u64 > bounds.bytes - script.len() as u64 {
            return Err(WholeFault::TooLarge);
        }
        script.extend_from_slice(&chunk[..count])?;
    }
    if has_lines_within(script.as_slice(), bounds.lines) {
        Ok(script)
    } else {
        Err(WholeFault::TooLarge)
    }
}

/// Whether a script has at most this many lines.
fn has_lines_within(script: &[u8], most: u64) -> bool
    ensures { result ≡ nat_le (length (lines_of script.now)) most }
{
    let mut rest = script;
    let mut left = most;
    while let Some((_, others)) = first_line(rest) {
        if left == 0 {
            return false;
        }
        left -= 1;
        rest = others;
    }
    true
}

/// The first line of a script, without its line feed, and the bytes after it; nothing where no byte is left.
pub fn first_line(script: &[u8]) -> Option<(&[u8], &[u8])>
    ensures none { IfNone result (script.now ≡ []) }
    ensures lines { IfSome result (λ parts. lines_of script.now ≡ parts.0.now ∷ lines_of parts.1.now) }
    ensures shorter { IfSome result (λ parts. length parts.1.now < length script.now) }
{
    if script.is_empty() {
        return None;
    }
    match split_line(script) {
        Some((line, rest)) => Some((line, rest)),
        None => Some((script, &[])),
    }
}
