//! Which incrementals of a log begin a run of which one is made.

ghost use Rattle.std.specs.Prelude.{◌≡◌, length, map, IfOk};
ghost use Rattle.std.specs.Arc.{arc_value};
ghost use Rattle.pgp_group.specs.Entries.{incs_of};

use pgp_ids::{Entry, Epoch, Incremental, OsdId};
use pgp_log::inc_of;
use pgp_map::OsdMap;
use std::alloc::{AllocError, Global};
use std::collections::HashSet;
use std::sync::Arc;

/// How many pg_temp lists a run may give: their text, with that of a tree and of all devices, is no longer than a line may be.
const MAX_LISTS: usize = 8192;

/// An incremental, and its place in the log.
#[derive(Clone, Copy)]
pub(crate) struct Placed<'a> {
    pub place: usize,
    pub inc: &'a Incremental,
}

/// The incrementals of a log, in its order.
pub(crate) fn incs_of(alloc: Global, entries: &[Arc<Entry>]) -> Result<Vec<Placed<'_>>, AllocError>
    ensures { IfOk result (λ incs. map (λ placed. placed.inc.now) incs.items ≡ incs_of (map arc_value entries.now)) }
{
    let mut incs = Vec::new(alloc);
    for (place, entry) in entries.iter().enumerate() {
        if let Some(inc) = inc_of(entry) {
            incs.push(Placed { place, inc })?;
        }
    }
    Ok(incs)
}

/// How many incrementals there are among the entries.
pub(crate) fn inc_count(alloc: Global, entries: &[Arc<Entry>]) -> Result<usize, AllocError>
    ensures { IfOk result (λ count. count ≡ length (incs_of (map arc_value entries.now))) }
{
    let incs = incs_of(alloc, entries)?;
    Ok(incs.len())
}

/// Of each incremental of a log, by its place among them, whether it begins a run.
#[derive(Drop)]
pub(crate) struct Starts {
    starts: Vec<bool>,
}

impl Starts {
    /// Those of the log of this map whose incrementals are these. The first and the last one are starts, and intervals that matter begin
    /// in the epochs `begun`. With `keeps_destroyed` the last but one is a start too: devices that are destroyed stay until the last one.
    pub fn of(
        alloc: Global,
        map: &OsdMap,
        incs: &[Placed<'_>],
        begun: &HashSet<u32>,
        keeps_destroyed: bool,
    ) -> Result<Self, AllocError> {
        let mut starts = Starts {
            starts: Vec::from_elem(alloc, false, incs.len())?,
        };
        starts.mark(Some(0));
        starts.mark(incs.len().checked_sub(1));
        if keeps_destroyed {
            starts.mark(incs.len().checked_sub(2));
        }
        starts.mark_begun(incs, begun);
        starts.mark_boots(map, incs);
        starts.mark_many_lists(alloc, incs)?;
        starts.mark_first_deaths(alloc, incs)?;
        Ok(starts)
    }

    /// The incremental at this place begins a run, or there is none.
    pub fn has(&self, place: usize) -> bool {
        self.starts.get(place).copied().unwrap_or(true)
    }

    fn mark(&mut self, place: Option<usize>) {
        if let Some(place) = place
            && let Some(start) = self.starts.get_mut(place)
        {
            *start = true;
        }
    }

    /// Whether no incremental is joined with another.
    pub fn are_all(&self) -> bool {
        self.starts.iter().all(|start| *start)
    }

    /// Intervals that matter begin at a start.
    fn mark_begun(&mut self, incs: &[Placed<'_>], begun: &HashSet<u32>) {
        for (place, it) in incs.iter().enumerate() {
            if begun.contains(&it.inc.epoch.number()) {
                self.mark(Some(place));
            }
        }
    }

    /// The last boot of a device that is up is a start. So is the incremental before it, where the device was given up for lost after the
    /// run began that ends there: the one that is made of a run names no later epoch.
    fn mark_boots(&mut self, map: &OsdMap, incs: &[Placed<'_>]) {
        let mut begun = Epoch::new(0);
        for (place, it) in incs.iter().enumerate() {
            for osd in it.inc.up.as_slice() {
                if map.is_up(*osd) && map.up_from(*osd) == it.inc.epoch {
                    self.mark(Some(place));
                    if begun < map.lost_at(*osd) {
                        self.mark(place.checked_sub(1));
                    }
                }
            }
            if self.has(place) {
                begun = it.inc.epoch;
            }
        }
    }

    /// A run begins where the one before would give too many pg_temp lists.
    fn mark_many_lists(&mut self, alloc: Global, incs: &[Placed<'_>]) -> Result<(), AllocError> {
        let mut named = HashSet::new(alloc);
        for (place, it) in incs.iter().enumerate() {
            let temp = it.inc.temp.as_slice();
            if self.has(place) || temp.len() > MAX_LISTS.saturating_sub(named.len()) {
                self.mark(Some(place));
                named.clear();
            }
            for given in temp {
                named.insert(given.pg)?;
            }
        }
        Ok(())
    }

    /// A device that first boots in a run, and is down at its end, has to be there nevertheless: then a run begins where it first goes
    /// down.
    fn mark_first_deaths(&mut self, alloc: Global, incs: &[Placed<'_>]) -> Result<(), AllocError> {
        let turns = turns_of(alloc, incs)?;
        for _ in 0..OsdId::MAX {
            if !self.mark_deaths(alloc, turns.as_slice())? {
                break;
            }
        }
        Ok(())
    }

    /// Marks the first deaths that have to be starts where runs are as they are, and says whether there are any. Then there are more
    /// runs, and there may be more.
    fn mark_deaths(&mut self, alloc: Global, turns: &[Vec<usize>]) -> Result<bool, AllocError> {
        let firsts = self.firsts(alloc)?;
        let mut has_marked = false;
        for turns in turns {
            let [boot, death, ..] = turns.as_slice() else {
                continue;
            };
            let begun = firsts.get(*boot);
            let here = turns.iter().filter(|turn| firsts.get(**turn) == begun);
            if here.count() % 2 == 0 {
                self.mark(Some(*death));
                has_marked = true;
            }
        }
        Ok(has_marked)
    }

    /// Of each incremental the place of the first of its run.
    fn firsts(&self, alloc: Global) -> Result<Vec<usize>, AllocError> {
        let mut firsts = Vec::new(alloc);
        let mut first = 0;
        for (place, start) in self.starts.iter().enumerate() {
            if *start {
                first = place;
            }
            firsts.push(first)?;
        }
        Ok(firsts)
    }
}

/// Of each device, by its number, the places of the incrementals in which it boots and goes down, in turn.
fn turns_of(alloc: Global, incs: &[Placed<'_>]) -> Result<Vec<Vec<usize>>, AllocError> {
    let mut turns: Vec<Vec<usize>> = Vec::new(alloc);
    for _ in 0..=OsdId::MAX {
        turns.push(Vec::new(alloc))?;
    }
    for (place, it) in incs.iter().enumerate() {
        for osd in it.inc.up.as_slice().iter().chain(it.inc.down.as_slice()) {
            if let Some(turns) = turns.get_mut(usize::from(osd.number())) {
                turns.push(place)?;
            }
        }
    }
    Ok(turns)
}
