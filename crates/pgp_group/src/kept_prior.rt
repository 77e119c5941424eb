//! The prior set of a group, in running form.

ghost use Rattle.std.specs.Prelude.{◌≡◌, ◌+◌, Some, length, slice_get, OnOk, OnErr};
ghost use Rattle.pgp_code.specs.AnyCode.{enough_of, is_by_place};
ghost use Rattle.pgp_interval.specs.IntervalsOf.{IsIntervalsOf};
ghost use Rattle.pgp_map.specs.MapOf.{IsMapOf};
ghost use Rattle.pgp_group.specs.GroupLog.{GroupLog, cleans, incs};
ghost use Rattle.pgp_group.specs.Heard.{les as les_of};
ghost use Rattle.pgp_group.specs.kept.KeptPrior.{KeepsPrior, IsAbreast, IsReckoned};
ghost use Rattle.pgp_group.specs.Peering.{past as past_of};

use super::device_facts::{DeviceFacts, note_members, renew_all};
use pgp_code::{AnyCode, Recoverable};
use pgp_ids::{Epoch, Membership, Past};
use pgp_interval::Intervals;
use pgp_map::OsdMap;
use pgp_prior::PriorIndex;
use std::alloc::{AllocError, Global};

/// Whom a group has to hear and for whom it waits, as of the last look.
///
/// A look compares what the map says of each device of past intervals with what it said at the last look. It asks the code
/// about the past intervals that came since, and about those that have a device of which the map says something else. Of all
/// that a device did between two looks only how it ended counts, and a group that nobody asks about pays nothing.
#[derive(Drop)]
pub(crate) struct KeptPrior {
    /// The prior set of the last look, with what it takes to follow the statuses of devices.
    pub(crate) index: PriorIndex<AnyCode>,
    /// What the map of the last look said of each device of the intervals that the index has.
    noted: Vec<DeviceFacts>,
    /// How many past intervals the index has: the first ones of the group.
    added: usize,
}

impl KeptPrior {
    /// No past interval is reckoned with yet. It takes no memory.
    pub(crate) fn begin(alloc: Global, code: AnyCode, current: Membership) -> Self
        ensures { (g : GroupLog) → code ≡ g.history.code → KeepsPrior g result }
    {
        KeptPrior {
            index: PriorIndex::begin(alloc, code, current, Epoch::new(0)),
            noted: Vec::new(alloc),
            added: 0,
        }
    }

    /// Takes the statuses that the map changed, the past intervals that came since, the current membership, and the epoch
    /// in which the group last began to serve. After an error it stands for the same group.
    pub(crate) fn look(
        &mut self,
        map: &OsdMap,
        intervals: &Intervals<AnyCode>,
        les: Epoch,
    ) -> Result<(), AllocError>
        ensures ok { OnOk result ((g : GroupLog) → IsMapOf (incs g) map.now
            → IsIntervalsOf enough_of is_by_place g.history (cleans g) intervals.now → les ≡ les_of g
            → KeepsPrior g self.old → IsReckoned g self.new.index) }
        ensures kept { (g : GroupLog) → IsIntervalsOf enough_of is_by_place g.history (cleans g) intervals.now
            → les ≡ les_of g → KeepsPrior g self.old → KeepsPrior g self.new }
    {
        let (_, current) = intervals.current();
        self.renew(map, current, les);
        self.add_more(map, intervals)
    }

    /// Takes all that changed for the intervals that it has. It takes no memory.
    fn renew(&mut self, map: &OsdMap, current: Membership, les: Epoch)
        ensures added { self.new.added ≡ self.old.added }
        ensures abreast { (g : GroupLog) → current ≡ g.history.current → les ≡ les_of g → KeepsPrior g self.old
            → IsAbreast g map.now self.new.added self.new.index self.new.noted.items }
    {
        renew_all(self.noted.as_mut_slice(), &mut self.index, map);
        self.index.set_les(les);
        self.index.set_current(current);
    }

    /// Adds the past intervals that came since.
    fn add_more(&mut self, map: &OsdMap, intervals: &Intervals<AnyCode>) -> Result<(), AllocError>
        ensures all { OnOk result ((g : GroupLog) → IsIntervalsOf enough_of is_by_place g.history (cleans g) intervals.now
            → IsAbreast g map.now self.old.added self.old.index self.old.noted.items
            → IsAbreast g map.now (length (past_of g)) self.new.index self.new.noted.items) }
        ensures kept { (g : GroupLog) → IsIntervalsOf enough_of is_by_place g.history (cleans g) intervals.now
            → IsAbreast g map.now self.old.added self.old.index self.old.noted.items
            → IsAbreast g map.now self.new.added self.new.index self.new.noted.items }
    {
        let by_place = intervals.code().by_place();
        for place in self.added..intervals.past_len() {
            self.add(map, by_place, intervals.past_at(place))?;
            self.added = place + 1;
        }
        Ok(())
    }

    /// Adds the next past interval.
    fn add(&mut self, map: &OsdMap, by_place: bool, past: Past) -> Result<(), AllocError>
        ensures added { self.new.added ≡ self.old.added }
        ensures ok { OnOk result ((g : GroupLog) → by_place ≡ is_by_place g.history.code
            → slice_get (past_of g) self.old.added ≡ Some past
            → IsAbreast g map.now self.old.added self.old.index self.old.noted.items
            → IsAbreast g map.now (self.old.added + 1) self.new.index self.new.noted.items) }
        ensures err { OnErr result ((g : GroupLog) → by_place ≡ is_by_place g.history.code
            → IsAbreast g map.now self.old.added self.old.index self.old.noted.items
            → IsAbreast g map.now self.old.added self.new.index self.new.noted.items) }
    {
        note_members(&mut self.noted, by_place, &past, map)?;
        self.index.add_past(past, map)
    }
}
