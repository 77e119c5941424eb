//! Sets of devices of which two are compared in a few steps.

ghost use Rattle.std.specs.Prelude.{◌≡◌, ℕ, Some, true, nat_eq};
ghost use Rattle.std.specs.List.{list_any};
ghost use Rattle.std.specs.Option.{option_eq};
ghost use Rattle.pgp_group.specs.Touched.{has_osd};
ghost use Rattle.pgp_shard.specs.kept.OsdFilter.{Covers, CoversStill, may_meet};

use pgp_ids::{DeviceEpoch, DeviceWeight, OsdId, Place};

/// A set of devices, in three words. It may say of a device that it is in the set when it isn't, and never the other way.
#[derive(Clone, Copy)]
pub(crate) struct OsdFilter {
    /// Bit `osd % 64` of each device.
    low: u64,
    /// Bit `osd / 64` of each device.
    high: u64,
    /// Bit `(osd % 64 + osd / 64) % 64` of each device. Where one device has set the bit in `low` and another that in `high`,
    /// this one is mostly not set.
    sum: u64,
}

impl OsdFilter {
    /// The set without devices.
    pub(crate) fn empty() -> Self {
        OsdFilter {
            low: 0,
            high: 0,
            sum: 0,
        }
    }

    pub(crate) fn add(&mut self, osd: OsdId)
        ensures there { Covers self.new osd }
        ensures still { CoversStill self.old self.new }
    {
        let number = osd.number();
        self.low |= 1 << (number % 64);
        self.high |= 1 << (number / 64);
        self.sum |= 1 << ((number % 64 + number / 64) % 64);
    }

    /// Adds each of the devices.
    pub(crate) fn add_all(&mut self, osds: &[OsdId])
        ensures there { (osd : ℕ) → list_any (nat_eq osd) osds.now ≡ true → Covers self.new osd }
        ensures still { CoversStill self.old self.new }
    {
        for osd in osds {
            self.add(*osd);
        }
    }

    /// Adds each device of which this is told.
    pub(crate) fn add_dated(&mut self, all: &[DeviceEpoch])
        ensures there { (osd : ℕ) → list_any (λ told. nat_eq osd told.osd) all.now ≡ true → Covers self.new osd }
        ensures still { CoversStill self.old self.new }
    {
        for told in all {
            self.add(told.osd);
        }
    }

    /// Adds each device of which a weight is given.
    pub(crate) fn add_weighed(&mut self, all: &[DeviceWeight])
        ensures there { (osd : ℕ) → list_any (λ given. nat_eq osd given.osd) all.now ≡ true → Covers self.new osd }
        ensures still { CoversStill self.old self.new }
    {
        for given in all {
            self.add(given.osd);
        }
    }

    /// Adds each device that stands on one of the places.
    pub(crate) fn add_places(&mut self, places: &[Place])
        ensures there { (osd : ℕ) → has_osd osd places.now ≡ true → Covers self.new osd }
        ensures still { CoversStill self.old self.new }
    {
        for place in places {
            self.add_place(*place);
        }
    }

    /// Adds the device that stands on the place, if one does.
    fn add_place(&mut self, place: Place)
        ensures there { (osd : ℕ) → option_eq nat_eq (Some osd) place ≡ true → Covers self.new osd }
        ensures still { CoversStill self.old self.new }
    {
        if let Some(osd) = place.osd() {
            self.add(osd);
        }
    }

    /// Whether some device may be in both sets: each word has a bit that the other set's has. The least of what the words share
    /// is looked at, since a processor foresees a branch for each word badly.
    pub(crate) fn shares(self, other: OsdFilter) -> bool
        ensures { result ≡ may_meet self other }
    {
        let high = self.high & other.high;
        let sum = self.sum & other.sum;
        (self.low & other.low).min(high).min(sum) != 0
    }
}
