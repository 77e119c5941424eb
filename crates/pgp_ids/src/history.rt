use super::epoch::Epoch;
use super::membership::Membership;

/// What a map says of a group's acting primary. Where the group has none, both play no part.
#[derive(Clone, Copy, Debug)]
pub struct PrimaryFacts {
    /// The epoch that booted the device last.
    pub up_from: Epoch,
    /// The last epoch through which the device is known to have been up.
    pub up_thru: Epoch,
}

/// One epoch of a group's history.
#[derive(Debug, Drop)]
pub struct EpochState {
    pub members: Membership,
    /// The facts of the acting primary in the map of this epoch.
    pub facts: PrimaryFacts,
}
