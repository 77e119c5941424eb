ghost use Rattle.std.specs.Prelude.{◌≡◌};
ghost use Rattle.pgp_ids.specs.Version.{is_older};

use super::epoch::Epoch;

/// The version of a write in a group's log (Ceph's eversion). Ordered by epoch and then by number.
///
/// Both parts are 0 before the first write.
#[derive(Clone, Copy, Debug, PartialEq, Eq, PartialOrd, Ord)]
pub struct Version {
    /// The epoch in which the write was taken.
    pub epoch: Epoch,
    /// The number of the write among those of the group, from 1 on.
    pub v: u32,
}

impl Version {
    /// Whether the write comes before that of the other version.
    pub fn is_older_than(self, other: Version) -> bool
        ensures { result ≡ is_older self other }
    {
        self < other
    }
}
