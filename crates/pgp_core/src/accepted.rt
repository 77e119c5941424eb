//! The answer to an entry that was taken, written without taking memory.

ghost use Rattle.std.specs.Prelude.{◌≡◌, ◌+◌, ◌≤◌, ◌∷◌, [], ◌++◌, length, vec_len, vec_capacity, decimal, IsOk, OnOk, OnErr};
ghost use Rattle.pgp_text.specs.Reply.{reply_text};
ghost use Rattle.pgp_text.specs.declared.reply.Reply.TheVariants.{Accepted};

use itoa::Buffer;
use pgp_ids::Epoch;
use pgp_lines::Op;
use std::alloc::AllocError;

/// How many bytes the answer to an entry that was taken has at most, with its line feed.
pub const LONGEST_ACCEPTED: usize = 75;

/// Puts the answer to an entry that was taken behind the text, with a line feed. Where the text has room for the longest
/// such answer, no memory is taken.
pub fn put_accepted(
    text: &mut Vec<u8>,
    op: Op,
    count: usize,
    epoch: Epoch,
) -> Result<(), AllocError>
    ensures ok { OnOk result (text.new.items ≡ text.old.items ++ (reply_text (Accepted op count epoch) ++ 10 ∷ [])) }
    ensures err { OnErr result (text.new.items ≡ text.old.items) }
    ensures sure { vec_len text.old + LONGEST_ACCEPTED ≤ vec_capacity text.old → IsOk result }
{
    text.reserve(LONGEST_ACCEPTED)?;
    put(text, b"{\"count\":");
    put_number(text, count as u64);
    put(text, b",\"epoch\":");
    put_number(text, u64::from(epoch.number()));
    put(text, b",\"ok\":\"");
    put(text, op.name().as_bytes());
    put(text, b"\"}\n");
    Ok(())
}

/// Puts bytes behind the text, which has room for them.
fn put(text: &mut Vec<u8>, bytes: &[u8])
    requires { vec_len text.old + length bytes.now ≤ vec_capacity text.old }
    ensures items { text.new.items ≡ text.old.items ++ bytes.now }
    ensures len { vec_len text.new ≡ vec_len text.old + length bytes.now }
    ensures room { vec_capacity text.old ≤ vec_capacity text.new }
{
    let _ = text.extend_from_slice(bytes);
}

/// Puts the digits of a number behind the text, which has room for them.
fn put_number(text: &mut Vec<u8>, number: u64)
    requires { vec_len text.old + 20 ≤ vec_capacity text.old }
    ensures items { text.new.items ≡ text.old.items ++ decimal number }
    ensures len { vec_len text.new ≤ vec_len text.old + 20 }
    ensures room { vec_capacity text.old ≤ vec_capacity text.new }
{
    let mut digits = Buffer::new();
    put(text, digits.format(number).as_bytes());
}
