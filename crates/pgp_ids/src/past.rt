ghost use Rattle.std.specs.Prelude.{◌≡◌};

use super::epoch::Epoch;
use super::membership::Membership;

/// A past interval of a placement group: a maximal run of epochs of equal membership that has ended.
#[derive(Debug, PartialEq, Eq, Drop)]
pub struct Past {
    /// Its first epoch.
    pub first: Epoch,
    /// Its last epoch.
    pub last: Epoch,
    pub members: Membership,
    /// Whether the group may have gone read-write in it, so that writes may have been acknowledged.
    pub rw: bool,
}

impl Past {
    /// A copy, which takes no memory.
    pub fn copy(&self) -> Past
        ensures { result ≡ self.now }
    {
        Past {
            first: self.first,
            last: self.last,
            members: self.members.copy(),
            rw: self.rw,
        }
    }
}
