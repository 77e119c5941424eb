//! A shorter log that may stand for a log.

ghost use Rattle.std.specs.Prelude.{◌≡◌, ◌≤◌, true, length, map, IfOk};
ghost use Rattle.std.specs.Arc.{arc_value};
ghost use Rattle.pgp_group.specs.Entries.{incs_of};
ghost use Rattle.pgp_log.specs.Log.{is_legal};
ghost use Rattle.pgp_join.specs.Alike.{AreAlike};
ghost use Rattle.pgp_join.specs.Bound.{IsJoinedLog, most_incs};

use super::alike::are_alike;
use super::pieces::{Piece, pieces_of, shared};
use super::starts::inc_count;
use pgp_core::Log;
use pgp_ids::{Entry, Refusal};
use pgp_log::Judge;
use std::alloc::{AllocError, Global};
use std::sync::Arc;

/// The entries of a log that may stand for this legal log: incrementals between which nothing begins that an answer can tell apart
/// are one, and the others are shared. Where no such log is found that is short enough, they are the entries of this one.
pub fn join(alloc: Global, entries: &[Arc<Entry>]) -> Result<Vec<Arc<Entry>>, AllocError>
    requires { is_legal (map arc_value entries.now) ≡ true }
    ensures { IfOk result (λ joined. IsJoinedLog (map arc_value entries.now) (map arc_value joined.items)) }
{
    let mut log = Log::over(alloc, entries)?;
    if let Some(shorter) = pieces_of(alloc, &mut log)? {
        let joined = entries_of(alloc, entries, shorter.pieces.as_slice())?;
        if may_stand_for(alloc, &mut log, joined.as_slice(), shorter.most_incs)? {
            return Ok(joined);
        }
    }
    shared(alloc, entries)
}

/// The entries of the pieces of a log.
fn entries_of(
    alloc: Global,
    entries: &[Arc<Entry>],
    pieces: &[Piece],
) -> Result<Vec<Arc<Entry>>, AllocError> {
    let mut joined = Vec::new(alloc);
    for piece in pieces {
        let entry = match piece {
            Piece::Kept(place) => entries.get(*place),
            Piece::Made(entry) => Some(entry),
        };
        if let Some(entry) = entry {
            joined.push(Arc::try_clone(entry)?)?;
        }
    }
    Ok(joined)
}

/// Whether the entries are a legal log that may stand for this one, of at most so many incrementals.
fn may_stand_for(
    alloc: Global,
    log: &mut Log,
    others: &[Arc<Entry>],
    most_incs: usize,
) -> Result<bool, AllocError>
    ensures alike { IfOk result (λ may. may ≡ true → AreAlike log.old (map arc_value others.now)) }
    ensures few { IfOk result (λ may. may ≡ true → length (incs_of (map arc_value others.now)) ≤ most_incs) }
    ensures same { log.new ≡ log.old }
{
    let count = inc_count(alloc, others)?;
    if most_incs < count || !are_legal(alloc, others)? {
        return Ok(false);
    }
    let mut other = Log::over(alloc, others)?;
    are_alike(alloc, log, &mut other)
}

/// Whether the entries are a legal log.
fn are_legal(alloc: Global, entries: &[Arc<Entry>]) -> Result<bool, AllocError>
    ensures { IfOk result (λ legal. legal ≡ true → is_legal (map arc_value entries.now) ≡ true) }
{
    let mut judge = Judge::start(alloc);
    for entry in entries {
        match judge.fits(entry) {
            Ok(()) => judge.take(entry)?,
            Err(Refusal::Memory) => return Err(AllocError),
            Err(_) => return Ok(false),
        }
    }
    Ok(true)
}
