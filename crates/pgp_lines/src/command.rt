//! What a line says: the command that it is, or its first fault.
ghost use Rattle.std.specs.Prelude.{◌≡◌, true, is_some, Err, IfOk, IfErr, IfSome};
ghost use Rattle.std.specs.Str.{is_utf8};
ghost use Rattle.pgp_lines.specs.Value.{view};
ghost use Rattle.pgp_lines.specs.LineFault.{line_fault_of, not_json, IsRead};
ghost use Rattle.pgp_lines.specs.Command.{command_in, data_of, command_of, HasFewEpochs};
ghost use Rattle.pgp_lines.specs.Op.{op_in};

mod buckets;
mod fields;
mod format;
mod groups;
mod incremental;
mod lists;
mod members;
mod number;
mod numbers;
mod objects;
mod op;
mod pools;
mod reports;
mod trace;
mod trail;
mod value;

pub use buckets::bucket_of;
use bumpalo::Bump;
pub use format::Format;
use format::{read_format, read_in};
use json::{Error, Scratch, Tape};
use objects::unknown_key;
pub use op::Op;
use pgp_ids::{Entry, EpochState, ObjectName, PgId, PoolId, PoolKind, Seq, TextFault};
use simdutf8::compat::from_utf8;
use std::alloc::{AllocError, Global};
pub use trace::MAX_EPOCHS;
use trail::{Place, Trail};
use value::{Tokens, Value, is_readable};

/// What a line asks for.
#[derive(Debug, Drop)]
pub enum Command {
    /// The next entry of the log.
    Submit(Entry),
    /// All that the log says of one group.
    Ask(PgId),
    /// Where an object lies.
    Locate {
        pool: PoolId,
        name: ObjectName,
    },
    /// The intervals of one group, whose epochs are given from epoch 1 on.
    Trace {
        /// How the group's pool keeps its objects: in an erasure code 1 to 16 shards give an object back, and a grouped
        /// code has parts that a pool of size 16 can have.
        code: PoolKind,
        /// 1 to 4,096 epochs, the first of which is epoch 1.
        epochs: Seq<EpochState>,
    },
}

/// Reads a line of version 1 or 2, without its line feed, as one JSON text.
///
/// Of several faults the first in the order of [`TextFault`] is told. A text of more than 4,294,967,040 bytes, which no
/// tape holds, is refused as `Memory`; no other length is judged. `Memory` may come in place of any other answer too, except
/// for bytes that are no UTF-8.
pub fn read_line(alloc: Global, line: &[u8]) -> Result<Command, TextFault>
    ensures ok { IfOk result (λ command. command_of Format.Two line.now ≡ Ok command) }
    ensures err { IfErr result (λ fault. IfSome (line_fault_of fault) (λ f. command_of Format.Two line.now ≡ Err f)) }
    // Bytes that are no text are found out without memory.
    ensures memory { result ≡ Err TextFault.Memory → is_utf8 line.now ≡ true }
    ensures epochs { IfOk result HasFewEpochs }
{
    LineReader::new(alloc, Format::Two).read(alloc, line)
}

/// Reads lines one after the other, with room that it keeps from line to line. What is kept follows the longest line so far.
pub struct LineReader {
    /// Up to which version it reads lines.
    pub format: Format,
    room: Scratch,
    /// Where the tokens of one line lie; empty between lines.
    arena: Bump,
}

impl Drop for LineReader {
    fn drop(self) {
        let LineReader {
            format: _,
            room: _,
            arena: _,
        } = self;
    }
}

impl LineReader {
    /// A reader of lines up to this version. It takes no memory before its first line.
    pub fn new(alloc: Global, format: Format) -> LineReader
        ensures { result.format ≡ format }
    {
        LineReader {
            format,
            room: Scratch::new(alloc),
            arena: Bump::new(alloc),
        }
    }

    /// Reads a line as [`read_line`] does, of a version up to the reader's.
    pub fn read(&mut self, alloc: Global, line: &[u8]) -> Result<Command, TextFault>
        ensures ok { IfOk result (λ command. command_of self.old.format line.now ≡ Ok command) }
        ensures err { IfErr result
            (λ fault. IfSome (line_fault_of fault) (λ f. command_of self.old.format line.now ≡ Err f)) }
        ensures memory { result ≡ Err TextFault.Memory → is_utf8 line.now ≡ true }
        ensures epochs { IfOk result HasFewEpochs }
        ensures kept { self.new.format ≡ self.old.format }
    {
        let command = read_within(alloc, &self.arena, line, self.format, &mut self.room, None);
        // Refused only while a block of the arena is out, and the line's tokens have been given back.
        let _ = self.arena.reset();
        command
    }

    /// Reads a line once more that is refused for the value at a key, and says in words where that value is at fault, and what
    /// isn't there.
    pub fn place_of_fault(&mut self, alloc: Global, line: &[u8]) -> Result<String, AllocError>
        ensures { self.new.format ≡ self.old.format }
    {
        let words = words_of_fault(alloc, &self.arena, line, self.format, &mut self.room);
        let _ = self.arena.reset();
        words
    }
}

/// Reads a line up to this version, and says in words what it looked for last.
fn words_of_fault<'a>(
    alloc: Global,
    arena: &'a Bump,
    line: &'a [u8],
    last: Format,
    room: &'a mut Scratch,
) -> Result<String, AllocError> {
    let trail = Trail::new(arena);
    let read = read_within(alloc, arena, line, last, room, trail.line());
    match read {
        Err(TextFault::Memory) => Err(AllocError),
        _ => trail.words(alloc),
    }
}

/// Reads a line up to this version whose tokens lie in the arena. Each look into it is kept, where the line has a place.
fn read_within<'a>(
    alloc: Global,
    arena: &'a Bump,
    line: &'a [u8],
    last: Format,
    room: &'a mut Scratch,
    place: Option<&Place<'_>>,
) -> Result<Command, TextFault>
    ensures read { IsRead result (command_of last line.now) }
    ensures memory { result ≡ Err TextFault.Memory → is_utf8 line.now ≡ true }
    ensures epochs { IfOk result HasFewEpochs }
{
    let tokens = read_json(arena, line, room)?;
    read_command(alloc, &Value::of(&tokens, place), last)
}

/// The tokens of a JSON text (RFC 8259, nested at most 127 deep), or `NotJson`.
fn read_json<'a>(
    arena: &'a Bump,
    line: &'a [u8],
    room: &'a mut Scratch,
) -> Result<Tokens<'a>, TextFault>
    ensures ok { IfOk result (λ tokens. data_of line.now ≡ Some (view tokens)) }
    ensures err { IfErr result
        (λ fault. IfSome (line_fault_of fault) (λ f. (data_of line.now ≡ None) × (f ≡ not_json))) }
    ensures text { IfOk result (λ _. is_utf8 line.now ≡ true) }
    ensures memory { result ≡ Err TextFault.Memory → is_utf8 line.now ≡ true }
{
    let Ok(text) = from_utf8(line) else {
        return Err(TextFault::NotJson);
    };
    match Tape::parse(text, room, Vec::new(arena)) {
        Ok(tokens) => if is_readable(tokens.nodes()) {
            Ok(tokens)
        } else {
            Err(TextFault::NotJson)
        },
        Err(Error::Invalid) => Err(TextFault::NotJson),
        // That a text is too long for a tape counts as out of memory. The last never comes: only a strict reader tells
        // of a key that is twice in an object.
        Err(Error::OutOfMemory | Error::TooLong | Error::DuplicateKey) => Err(TextFault::Memory),
    }
}

/// The command of an object. The operation is judged first, then the keys, then their values.
fn read_command(alloc: Global, value: &Value<'_, '_>, last: Format) -> Result<Command, TextFault>
    ensures read { IsRead result (command_in last (view value.now)) }
    // That no operation is named is found out without memory.
    ensures memory { result ≡ Err TextFault.Memory → is_some (op_in (view value.now)) ≡ true }
{
    let Some(op) = read_op(value) else {
        return Err(TextFault::NoOp);
    };
    let format = read_format(value, last);
    if let Some(key) = unknown_key(value, op.keys(read_in(last, format))) {
        return Err(TextFault::UnknownKey(String::from_str(alloc, key)?));
    }
    op.read(alloc, value, last, format)
}

/// The operation that the text at `op` names.
fn read_op(value: &Value<'_, '_>) -> Option<Op>
    ensures { result ≡ op_in (view value.now) }
{
    Op::named(value.get("op")?.as_str()?)
}
