//! The line that is being read, and what is written for it.

ghost use Rattle.std.specs.Prelude.{◌≡◌, ◌≤◌, ℕ, List, [], ◌∷◌, ◌++◌, IfSome, None, false, length};
ghost use Rattle.pgp_core.specs.Answer.{long_text};
ghost use Rattle.pgp_core.specs.kept.Line.{KeptBy, HoldsLine};
ghost use Rattle.pgp_core.specs.Lines.{is_blank};
ghost use Rattle.pgp_core.specs.Script.{longest_line, want_text};
ghost use Rattle.pgp_core.specs.WrittenFor.{IsLeft, PutsLine};

use super::answer::{Answerer, NoReply, answer_line};
use super::codec::Codec;
use super::want::Want;
use std::alloc::Global;

/// How many bytes a line has at most, without its line feed.
pub const LONGEST_LINE: usize = 1_048_576;

/// The answer to a line that is too long. It takes no memory.
const LONG_LINE: &[u8] = b"{\"code\":30,\"refused\":\"LineTooLong\"}\n";

/// The answer to a line for which there was no memory. It takes none.
const NO_LINE: &[u8] = b"{\"code\":41,\"refused\":\"Memory\"}\n";

/// The answer to a line that was read as an entry for which there was no memory. It takes none.
const NO_ENTRY: &[u8] = b"{\"code\":51,\"refused\":\"Memory\"}\n";

/// What became of the bytes of a line.
#[derive(Clone, Copy)]
pub enum Fate {
    /// They are kept.
    Kept,
    /// There are more than [`LONGEST_LINE`], and they are passed over.
    TooLong,
    /// There was no memory for them, and they are passed over. There are this many, no more than a line may have.
    NoMemory { length: usize },
}

/// The line that is being read.
#[derive(Drop)]
pub struct LineBuffer {
    pub bytes: Vec<u8>,
    pub fate: Fate,
    /// Whether it has a byte.
    pub started: bool,
    /// Whether it has only blanks so far.
    pub blank: bool,
}

/// The answer to a line that is too long.
pub fn long_line() -> &'static [u8]
    ensures { result.now ≡ long_text ++ 10 ∷ [] }
{
    LONG_LINE
}

/// The answer to a line that was out of memory.
pub fn want_line(want: Want) -> &'static [u8]
    ensures { result.now ≡ want_text want ++ 10 ∷ [] }
{
    match want {
        Want::Line => NO_LINE,
        Want::Entry => NO_ENTRY,
    }
}

impl LineBuffer {
    pub fn new(alloc: Global) -> Self
        ensures { HoldsLine result [] }
    {
        LineBuffer {
            bytes: Vec::new(alloc),
            fate: Fate::Kept,
            started: false,
            blank: true,
        }
    }

    /// Begins a new line.
    pub fn clear(&mut self)
        ensures { HoldsLine self.new [] }
    {
        self.bytes.clear();
        self.fate = Fate::Kept;
        self.started = false;
        self.blank = true;
    }

    /// Appends bytes of the line, none of them a line feed.
    pub fn add(&mut self, piece: &[u8])
        ensures { (line : List ℕ) → HoldsLine self.old line → HoldsLine self.new (line ++ piece.now) }
    {
        self.started = self.started || !piece.is_empty();
        self.blank = self.blank && all_blank(piece);
        self.fate = keep(&mut self.bytes, self.fate, piece);
    }

    /// Puts the answer to the line, which ends with this piece, behind the text, and gives what is still to be written of it:
    /// a constant text, where the line is too long or was out of memory. A line that lies whole in the piece is read where it
    /// lies. Where the line is an entry that the log takes, the log has it from now on. Where nobody answers it any more, the
    /// text stays.
    pub fn answer<A: Answerer>(
        &mut self,
        alloc: Global,
        codec: &mut Codec,
        piece: &[u8],
        answerer: &mut A,
        text: &mut Vec<u8>,
    ) -> Option<&'static [u8]>
        ensures put { IfSome result (λ rest. (line : List ℕ) → HoldsLine self.old line
            → PutsLine A.alone codec.old.reader.format (A.log answerer.old) (A.log answerer.new) (line ++ piece.now) text.old.items text.new.items rest.now) }
        ensures left { result ≡ None → (line : List ℕ) → HoldsLine self.old line → IsLeft A.alone codec.old.reader.format (line ++ piece.now) }
        ensures text { result ≡ None → text.new.items ≡ text.old.items }
        ensures format { codec.new.reader.format ≡ codec.old.reader.format }
    {
        if !self.started && piece.len() <= LONGEST_LINE {
            if all_blank(piece) {
                return Some(&[]);
            }
            return answer_bytes(alloc, codec, piece, answerer, text);
        }
        self.add(piece);
        if self.blank {
            return Some(&[]);
        }
        match self.fate {
            Fate::Kept => answer_bytes(alloc, codec, self.bytes.as_slice(), answerer, text),
            Fate::TooLong => Some(long_line()),
            Fate::NoMemory { .. } => Some(want_line(Want::Line)),
        }
    }
}

/// Puts the answer to a line that isn't blank and not too long behind the text: nothing is still to be written of it then. Where
/// the line was out of memory, the text stays, and the constant text for that is still to be written. Where nobody answers the
/// line any more, the text stays too.
fn answer_bytes<A: Answerer>(
    alloc: Global,
    codec: &mut Codec,
    line: &[u8],
    answerer: &mut A,
    text: &mut Vec<u8>,
) -> Option<&'static [u8]>
    ensures put { IfSome result (λ rest. is_blank line.now ≡ false → length line.now ≤ longest_line
        → PutsLine A.alone codec.old.reader.format (A.log answerer.old) (A.log answerer.new) line.now text.old.items text.new.items rest.now) }
    ensures left { result ≡ None → is_blank line.now ≡ false → length line.now ≤ longest_line → IsLeft A.alone codec.old.reader.format line.now }
    ensures text { result ≡ None → text.new.items ≡ text.old.items }
    ensures format { codec.new.reader.format ≡ codec.old.reader.format }
{
    match answer_line(alloc, codec, line, answerer, text) {
        Ok(()) => Some(&[]),
        Err(NoReply::Memory(want)) => Some(want_line(want)),
        Err(NoReply::Gone) => None,
    }
}

/// What became of the bytes of a line once this piece follows them, where this is what became of those before it. The piece is
/// appended to `bytes` where all bytes of the line are kept.
fn keep(bytes: &mut Vec<u8>, fate: Fate, piece: &[u8]) -> Fate
    ensures { (line : List ℕ) → KeptBy fate bytes.old.items line → KeptBy result bytes.new.items (line ++ piece.now) }
{
    let length = match fate {
        Fate::Kept => bytes.len(),
        Fate::NoMemory { length } => length,
        Fate::TooLong => return Fate::TooLong,
    };
    if piece.len() > LONGEST_LINE || length > LONGEST_LINE - piece.len() {
        return Fate::TooLong;
    }
    match fate {
        Fate::Kept if bytes.extend_from_slice(piece).is_ok() => Fate::Kept,
        _ => Fate::NoMemory {
            length: length + piece.len(),
        },
    }
}

/// Whether all bytes are spaces, tabs or carriage returns.
pub fn all_blank(bytes: &[u8]) -> bool
    ensures { result ≡ is_blank bytes.now }
{
    bytes
        .iter()
        .all(|byte| matches!(byte, b' ' | b'\t' | b'\r'))
}
