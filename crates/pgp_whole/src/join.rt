//! Joining incrementals of a script that no answer tells apart.

ghost use Rattle.std.specs.Prelude.{IfOk, IfSome};
ghost use Rattle.pgp_core.specs.Added.{log_of_lines};
ghost use Rattle.pgp_core.specs.Lines.{lines_of};
ghost use Rattle.pgp_lines.specs.declared.command.format.Format.TheVariants.{Three};
ghost use Rattle.pgp_join.specs.Bound.{most_incs};
ghost use Rattle.pgp_join.specs.Text.{MayStandFor};
ghost use Rattle.pgp_whole.specs.Joining.{HasJoinedCounts, StandsFor};

use super::compact::{Compaction, compacted};
use super::entries::read_entries;
use pgp_join::{Piece, entries_if_alike, entry_line, pieces_of};
use pgp_lines::Format;
use std::alloc::{AllocError, Global};

/// Lines that may stand for those that remain of a script, and what became of its lines.
pub(crate) fn joined(alloc: Global, script: &[u8]) -> Result<(Vec<u8>, Compaction), AllocError>
    ensures stands { IfOk result (λ made. StandsFor script.now made.0.items) }
    ensures counts { IfOk result (λ made. HasJoinedCounts script.now made.0.items made.1) }
{
    let (text, counts) = compacted(alloc, Format::Three, script)?;
    match shorter(alloc, text.as_slice())? {
        Some((lines, kept)) => Ok((lines, Compaction { kept, ..counts })),
        None => Ok((text, counts)),
    }
}

/// Lines whose log may stand for that of these lines and is short enough, and how many entries that has; nothing where none are found.
fn shorter(alloc: Global, text: &[u8]) -> Result<Option<(Vec<u8>, usize)>, AllocError>
    ensures { IfOk result (λ found. IfSome found (λ made.
        MayStandFor (log_of_lines Three (lines_of text.now)) made.0.items made.1 (most_incs (log_of_lines Three (lines_of text.now))))) }
{
    let mut read = read_entries(alloc, Format::Three, text)?;
    let Some(shorter) = pieces_of(alloc, &mut read.log)? else {
        return Ok(None);
    };
    let lines = text_of_pieces(alloc, read.lines.as_slice(), shorter.pieces.as_slice())?;
    match entries_if_alike(alloc, &mut read.log, lines.as_slice(), shorter.most_incs)? {
        Some(kept) => Ok(Some((lines, kept))),
        None => Ok(None),
    }
}

/// The lines of the pieces, each with a line feed.
fn text_of_pieces(alloc: Global, lines: &[&[u8]], pieces: &[Piece]) -> Result<Vec<u8>, AllocError> {
    let mut text = Vec::new(alloc);
    for piece in pieces {
        match piece {
            Piece::Kept(place) => {
                if let Some(line) = lines.get(*place) {
                    text.extend_from_slice(line)?;
                }
            }
            Piece::Made(entry) => {
                let line = entry_line(alloc, entry)?;
                text.extend_from_slice(line.as_slice())?;
            }
        }
        text.push(b'\n')?;
    }
    Ok(text)
}
