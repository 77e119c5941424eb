//! Lists of devices that are searched often.

ghost use Rattle.std.specs.Prelude.{◌≡◌, ℕ, nat_eq};
ghost use Rattle.std.specs.List.{list_any};
ghost use Rattle.pgp_map.specs.NumberSet.{has};

use super::number_set::NumberSet;
use pgp_ids::OsdId;

/// Devices among which others are looked for.
#[derive(Drop)]
pub(crate) struct SearchedDevices<'a> {
    pub osds: &'a [OsdId],
    set: NumberSet,
    ghost same: { (q : ℕ) → has set q ≡ list_any (nat_eq q) osds.now },
}

impl<'a> SearchedDevices<'a> {
    /// These devices.
    pub fn of(osds: &'a [OsdId]) -> Self
        ensures { result.osds.now ≡ osds.now }
    {
        let mut set = NumberSet::empty();
        for osd in osds {
            set.insert(osd.number());
        }
        SearchedDevices { osds, set }
    }

    /// The device is one of them.
    pub fn contains(&self, osd: OsdId) -> bool
        ensures { result ≡ list_any (nat_eq osd) self.now.osds.now }
    {
        self.set.contains(osd.number())
    }
}
