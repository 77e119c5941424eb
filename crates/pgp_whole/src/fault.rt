//! What is told of a line that is refused.
ghost use Rattle.std.specs.Prelude.{◌≡◌, ◌++◌, ◌∷◌, [], List, ℕ, codes, decimal, OnOk, OnErr};
ghost use Rattle.std.specs.String.{string_bytes};

use pgp_ids::{Refusal, TextFault};
use pgp_lines::LineReader;
use pgp_text::LineRefusal;
use std::alloc::{AllocError, Global};

const LINE_FEED: u8 = b'\n';

/// Puts one text line, with a line feed, for the line of this number, which is refused where this reader reads it: the refusal's
/// name, and what is wrong. Where there is no memory, `errors` stays as it was.
pub(crate) fn put_fault(
    alloc: Global,
    reader: &mut LineReader,
    line: &[u8],
    number: u64,
    refused: &LineRefusal,
    errors: &mut String,
) -> Result<(), AllocError>
    ensures ok { OnOk result ((told : List ℕ)
        × (string_bytes errors.new ≡ string_bytes errors.old
        ++ (codes "line " ++ (decimal number ++ (codes ": " ++ (told ++ LINE_FEED ∷ [])))))) }
    ensures err { OnErr result (string_bytes errors.new ≡ string_bytes errors.old) }
    ensures format { reader.new.format ≡ reader.old.format }
{
    let told = text_of(alloc, reader, line, refused)?;
    let text = format!(in alloc; "line {number}: {told}\n")?;
    errors.push_str(text.as_str())
}

/// The name of a refusal, and what is wrong. What the log refuses, and what has no answer, has its number behind its name.
fn text_of(
    alloc: Global,
    reader: &mut LineReader,
    line: &[u8],
    refused: &LineRefusal,
) -> Result<String, AllocError>
    ensures { reader.new.format ≡ reader.old.format }
{
    let name = refused.name();
    let number = refused.number();
    match refused {
        LineRefusal::Line(TextFault::BadField(_)) => {
            let what = reader.place_of_fault(alloc, line)?;
            format!(in alloc; "{name}: {what}")
        }
        LineRefusal::Line(fault) => format!(in alloc; "{name}: {fault}"),
        LineRefusal::Entry(refusal) => {
            let tree = tree_words(*refusal);
            format!(in alloc; "{name} ({number}): {refusal}{tree}")
        }
        LineRefusal::Ask(refusal) => format!(in alloc; "{name} ({number}): {refusal}"),
        LineRefusal::Locate(refusal) => format!(in alloc; "{name} ({number}): {refusal}"),
    }
}

/// The fault of the placement tree, where that is the refusal.
fn tree_words(refusal: Refusal) -> &'static str {
    match refusal.tree() {
        None => "",
        Some(1) => ": it has no root, or more than one",
        Some(2) => ": an id is there twice, or an item is in two places",
        Some(3) => ": a type is 0, or not above that of a bucket within",
        Some(4) => ": an item is no bucket of the tree and no device",
        Some(5) => ": a path has more than 10 buckets",
        Some(6) => ": it has more than 1024 buckets, or one with more than 256 items",
        Some(_) => ": the weights of a bucket make more than 4294967295",
    }
}
