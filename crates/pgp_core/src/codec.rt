//! What reads lines and writes replies, with room that it keeps from line to line.

ghost use Rattle.std.specs.Prelude.{◌≡◌};

use pgp_lines::{Format, LineReader};
use pgp_text::ReplyWriter;
use std::alloc::Global;

/// Reads lines and writes replies.
#[derive(Drop)]
pub struct Codec {
    pub reader: LineReader,
    pub writer: ReplyWriter,
}

impl Codec {
    /// Reads lines up to this version.
    pub fn new(alloc: Global, format: Format) -> Self
        ensures { result.reader.format ≡ format }
    {
        Codec {
            reader: LineReader::new(alloc, format),
            writer: ReplyWriter::new(alloc),
        }
    }
}
