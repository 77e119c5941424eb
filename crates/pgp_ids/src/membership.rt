ghost use Rattle.std.specs.Prelude.{◌≡◌};

use super::osd::OsdId;
use super::osds::Osds;

/// Where a placement group lies at one epoch, with the sizes of its pool.
///
/// Two epochs with equal memberships belong to one interval if every epoch between them has it too.
#[derive(Debug, PartialEq, Eq, Drop)]
pub struct Membership {
    /// Where placement by the map's tree puts the group.
    pub up: Osds,
    /// The first device of `up`.
    pub up_primary: Option<OsdId>,
    /// Who serves the group: `up`, or the list that pg_temp gives.
    pub acting: Osds,
    /// The first device of `acting`.
    pub acting_primary: Option<OsdId>,
    /// How many copies or shards the pool keeps, 1 to 16.
    pub size: u8,
    /// With how many members the group may serve, 1 to `size`.
    pub min_size: u8,
}

impl Membership {
    /// A copy, which takes no memory.
    pub fn copy(&self) -> Membership
        ensures { result ≡ self.now }
    {
        Membership {
            up: self.up.copy(),
            up_primary: self.up_primary,
            acting: self.acting.copy(),
            acting_primary: self.acting_primary,
            size: self.size,
            min_size: self.min_size,
        }
    }
}
