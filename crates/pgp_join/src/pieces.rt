//! The pieces of a shorter log: entries of the log as they stand, and incrementals that stand for a run of them.

ghost use Rattle.std.specs.Prelude.{◌≡◌, ◌≤◌, map, IfOk, IfSome};
ghost use Rattle.std.specs.Arc.{arc_value};
ghost use Rattle.pgp_join.specs.Bound.{most_incs};

use super::bound::Bound;
use super::made::Run;
use super::starts::{Placed, Starts, incs_of};
use pgp_core::Log;
use pgp_ids::{Entry, Incremental, OsdId};
use pgp_log::inc_of;
use pgp_map::{MapFault, OsdMap};
use std::alloc::{AllocError, Global};
use std::sync::Arc;

/// A piece of a shorter log.
#[derive(Drop)]
pub enum Piece {
    /// The entry at this place of the log.
    Kept(usize),
    /// An incremental in place of several, as an entry.
    Made(Arc<Entry>),
}

/// A shorter log that is meant to be alike.
#[derive(Drop)]
pub struct Shorter {
    pub pieces: Vec<Piece>,
    /// So many incrementals it has at most, if joining works as it should.
    pub most_incs: usize,
}

/// A shorter log that is meant to be alike; nothing where there is none.
///
/// Runs of incrementals between which nothing begins that matters become one: in the first epoch of the run, with the map at its end.
/// The reports stay, in their order. That the log of the pieces is alike is not promised, nor that it has no more incrementals than it
/// should: [`are_alike`](super::are_alike) and a count find out.
pub fn pieces_of(alloc: Global, log: &mut Log) -> Result<Option<Shorter>, AllocError>
    ensures most { IfOk result (λ found. IfSome found (λ shorter. shorter.most_incs ≤ most_incs log.old)) }
    ensures same { log.new ≡ log.old }
{
    let entries = shared(alloc, log.entries())?;
    let incs = incs_of(alloc, entries.as_slice())?;
    let bound = Bound::of(alloc, log, incs.as_slice())?;
    let map = log.map();
    let keeps_destroyed = entries.iter().any(|entry| is_of_destroyed(map, entry));
    let starts = Starts::of(alloc, map, incs.as_slice(), &bound.begun, keeps_destroyed)?;
    if starts.are_all() {
        return Ok(None);
    }
    let mut pieces = Pieces::new(alloc, bound.devices);
    if !pieces.put_all(
        entries.as_slice(),
        incs.as_slice(),
        &starts,
        keeps_destroyed,
    )? {
        return Ok(None);
    }
    Ok(Some(Shorter {
        pieces: pieces.pieces,
        most_incs: bound.most_incs,
    }))
}

/// The entries, shared once more.
pub(crate) fn shared(alloc: Global, entries: &[Arc<Entry>]) -> Result<Vec<Arc<Entry>>, AllocError>
    ensures { IfOk result (λ copies. map arc_value copies.items ≡ map arc_value entries.now) }
{
    let mut copies = Vec::new(alloc);
    for entry in entries {
        copies.push(Arc::try_clone(entry)?)?;
    }
    Ok(copies)
}

/// Whether it is a report of a device that the map doesn't have.
fn is_of_destroyed(map: &OsdMap, entry: &Entry) -> bool {
    match entry {
        Entry::Info(info) => !map.exists(info.member.osd),
        Entry::Entries(report) => !map.exists(report.member.osd),
        Entry::Inc(_) | Entry::Close => false,
    }
}

/// The pieces so far, and the maps that they and the log make.
#[derive(Drop)]
struct Pieces {
    alloc: Global,
    pieces: Vec<Piece>,
    /// The devices that ever boot.
    devices: Vec<OsdId>,
    /// The map of the pieces.
    before: OsdMap,
    /// The map of the log.
    after: OsdMap,
    /// Whether both say the same.
    is_same: bool,
}

impl Pieces {
    fn new(alloc: Global, devices: Vec<OsdId>) -> Self {
        Pieces {
            alloc,
            pieces: Vec::new(alloc),
            devices,
            before: OsdMap::empty(alloc),
            after: OsdMap::empty(alloc),
            is_same: true,
        }
    }

    /// Goes through the log run by run. The reports come after the last run, with `keeps_destroyed` those before the last incremental
    /// come before it. Whether the pieces of all runs fit.
    fn put_all(
        &mut self,
        entries: &[Arc<Entry>],
        incs: &[Placed<'_>],
        starts: &Starts,
        keeps_destroyed: bool,
    ) -> Result<bool, AllocError> {
        let mut kept = 0;
        let mut run = Vec::new(self.alloc);
        for (place, it) in incs.iter().enumerate() {
            if !take(&mut self.after, it.inc)? {
                return Ok(false);
            }
            run.push(*it)?;
            let end = place + 1;
            if !starts.has(end) {
                continue;
            }
            let is_last = end == incs.len();
            if is_last && keeps_destroyed {
                self.keep_reports(entries, 0, it.place)?;
                kept = it.place;
            }
            if !self.put_run(run.as_slice(), is_last)? {
                return Ok(false);
            }
            run.clear();
        }
        self.keep_reports(entries, kept, entries.len())?;
        Ok(true)
    }

    /// Keeps the entries from the one place to the other, incrementals aside.
    fn keep_reports(
        &mut self,
        entries: &[Arc<Entry>],
        from: usize,
        to: usize,
    ) -> Result<(), AllocError> {
        for (place, entry) in entries.iter().enumerate() {
            if from <= place && place < to && inc_of(entry).is_none() {
                self.pieces.push(Piece::Kept(place))?;
            }
        }
        Ok(())
    }

    /// Puts in the incremental of a run: its own, where it is the only one and changes the map of the pieces, or one that is made.
    /// Whether it fits.
    fn put_run(&mut self, incs: &[Placed<'_>], is_last: bool) -> Result<bool, AllocError> {
        let Some(first) = incs.first() else {
            return Ok(true);
        };
        let follows = self.is_same && self.before.epoch() == first.inc.after;
        if incs.len() == 1 && follows && (is_last || first.inc.gone.is_empty()) {
            self.pieces.push(Piece::Kept(first.place))?;
            return take(&mut self.before, first.inc);
        }
        let run = Run {
            incs,
            devices: self.devices.as_slice(),
            before: &self.before,
            after: &self.after,
            is_last,
        };
        let inc = run.inc(self.alloc, first.inc.epoch)?;
        let fits = take(&mut self.before, &inc)?;
        self.is_same = self.before.says_the_same(&self.after);
        let entry = Arc::new(self.alloc, Entry::Inc(inc))?;
        self.pieces.push(Piece::Made(entry))?;
        Ok(fits)
    }
}

/// Has the map take the incremental, if it has no fault.
fn take(map: &mut OsdMap, inc: &Incremental) -> Result<bool, AllocError> {
    match map.check(inc) {
        Ok(()) => {
            map.apply(inc)?;
            Ok(true)
        }
        Err(MapFault::Memory) => Err(AllocError),
        Err(_) => Ok(false),
    }
}
