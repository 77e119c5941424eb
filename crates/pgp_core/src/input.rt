//! Cutting the bytes of a script into lines, within bounds.

ghost use Rattle.std.specs.Prelude.{◌≡◌, ◌⊎◌, ◌↔◌, ℕ, ◌+◌, ◌-◌, ◌<◌, ◌≤◌, List, [], ◌∷◌, ◌++◌, false, IsTrue, IfSome, IfNone, length, take};
ghost use Rattle.std.specs.List.{list_any};
ghost use Rattle.pgp_core.specs.Lines.{is_line_feed};
ghost use Rattle.pgp_core.specs.kept.Input.{HasRead};
ghost use Rattle.pgp_core.specs.declared.input.Input.{Input as AnyInput};

use super::line::LineBuffer;
use memchr::memchr;
use std::alloc::Global;

/// How large a script may be.
#[derive(Clone, Copy)]
pub struct Bounds {
    pub lines: u64,
    pub bytes: u64,
}

/// How large a script is at most: a million lines, and 4 GiB.
pub const SCRIPT_BOUNDS: Bounds = Bounds {
    lines: 1_000_000,
    bytes: 4_294_967_296,
};

/// The line of a script that is being read, and how much more may come.
#[derive(Drop)]
pub struct Input {
    pub line: LineBuffer,
    /// How many more lines may end, and how many more bytes may be read.
    pub left: Bounds,
}

impl Input {
    pub fn new(alloc: Global, bounds: Bounds) -> Self
        ensures left { result.left ≡ bounds }
        ensures read { HasRead bounds result [] }
    {
        Input {
            line: LineBuffer::new(alloc),
            left: bounds,
        }
    }

    /// Whether the bounds allow no byte more.
    pub fn is_full(&self) -> bool
        ensures { IsTrue result ↔ ((self.now.left.lines ≡ 0) ⊎ (self.now.left.bytes ≡ 0)) }
    {
        self.left.lines == 0 || self.left.bytes == 0
    }

    /// The first of these bytes, as many as the bounds allow.
    pub fn allowed<'a>(&self, bytes: &'a [u8]) -> &'a [u8]
        ensures { result.now ≡ take self.now.left.bytes bytes.now }
    {
        if bytes.len() as u64 <= self.left.bytes {
            bytes
        } else {
            &bytes[..self.left.bytes as usize]
        }
    }

    /// Takes bytes of the line, none of them a line feed.
    pub fn add(&mut self, piece: &[u8])
        requires one_line { list_any is_line_feed piece.now ≡ false }
        requires room { 0 < self.old.left.lines }
        requires fits { length piece.now ≤ self.old.left.bytes }
        ensures left { self.new.left.bytes ≡ self.old.left.bytes - length piece.now }
        ensures lines { self.new.left.lines ≡ self.old.left.lines }
        ensures read { (bounds : Bounds) (bytes : List ℕ) → HasRead bounds self.old bytes → HasRead bounds self.new (bytes ++ piece.now) }
    {
        self.line.add(piece);
        self.left.bytes -= piece.len() as u64;
    }

    /// Takes the piece that ends the line and the line feed behind it, and begins the next line.
    pub fn end_line(&mut self, piece: &[u8])
        requires one_line { list_any is_line_feed piece.now ≡ false }
        requires room { 0 < self.old.left.lines }
        requires fits { length piece.now < self.old.left.bytes }
        ensures left { self.new.left.bytes ≡ self.old.left.bytes - (length piece.now + 1) }
        ensures read { (bounds : Bounds) (before : AnyInput) (bytes : List ℕ) → before.left ≡ self.old.left
            → HasRead bounds before bytes → HasRead bounds self.new (bytes ++ (piece.now ++ 10 ∷ [])) }
    {
        self.line.clear();
        self.left.lines -= 1;
        self.left.bytes -= piece.len() as u64 + 1;
    }
}

/// The bytes before the first line feed, and those after it.
pub fn split_line(bytes: &[u8]) -> Option<(&[u8], &[u8])>
    ensures none { IfNone result (list_any is_line_feed bytes.now ≡ false) }
    ensures one_line { IfSome result (λ parts. list_any is_line_feed parts.0.now ≡ false) }
    ensures whole { IfSome result (λ parts. bytes.now ≡ parts.0.now ++ 10 ∷ parts.1.now) }
{
    let at = memchr(b'\n', bytes)?;
    Some((&bytes[..at], &bytes[at + 1..]))
}
