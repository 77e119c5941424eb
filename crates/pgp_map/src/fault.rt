//! Why a map incremental isn't taken.

ghost use Rattle.std.specs.Prelude.{◌≡◌};
ghost use Rattle.pgp_map.specs.FaultNumber.{map_fault_number, refusal_of};

use pgp_crush::TreeFault;
use pgp_ids::Refusal;
use std::alloc::AllocError;
use std::error::Error;
use std::fmt;

/// Why a map incremental isn't taken. One with several faults has the first in this order. An enum beside `Refusal`, so that
/// [`check`](crate::OsdMap::check) can name no other refusal.
#[derive(Clone, Copy, Debug, PartialEq, Eq)]
pub enum MapFault {
    /// It changes a map of another epoch, or leads to no later one.
    EpochGap,
    /// A device, pool or group is named twice where it may be named once.
    Twice,
    /// A device is named that neither exists nor boots.
    UnknownDevice,
    /// A device boots that is up.
    AlreadyUp,
    /// A device is taken down that is down.
    AlreadyDown,
    /// A device is destroyed or given up for lost that is up.
    StillUp,
    /// A device's up_thru would fall.
    UpThruBack,
    /// An epoch lies ahead of the incremental's.
    Ahead,
    /// A pool's numbers or parts are none that it can have, or it isn't one whose sizes can change so.
    BadPool,
    /// A pool is made that exists.
    PoolKnown,
    /// A pg_temp list is none that its group can have.
    BadTemp,
    /// The placement tree has this fault.
    TreeFault(TreeFault),
    /// There was no memory to look at the incremental.
    Memory,
}

impl MapFault {
    /// The number of the fault in answers.
    pub fn number(self) -> u8
        ensures { result ≡ map_fault_number self }
    {
        Refusal::from(self).number()
    }
}

impl fmt::Display for MapFault {
    fn fmt<W: fmt::Write>(&self, f: &mut fmt::Formatter<W>) -> fmt::Result {
        match self {
            MapFault::TreeFault(fault) => fault.fmt(f),
            _ => Refusal::from(*self).fmt(f),
        }
    }
}

impl Error for MapFault {}

impl From<AllocError> for MapFault {
    ghost use Rattle.pgp_map.specs.declared.fault.MapFault.TheVariants.{Memory};

    ghost from_gives = { λ _ fault. fault ≡ Memory };

    fn from(_error: AllocError) -> MapFault {
        MapFault::Memory
    }
}

impl From<MapFault> for Refusal {
    ghost from_gives = { λ fault refusal. refusal ≡ refusal_of fault };

    fn from(fault: MapFault) -> Refusal {
        match fault {
            MapFault::EpochGap => Refusal::EpochGap,
            MapFault::Twice => Refusal::Twice,
            MapFault::UnknownDevice => Refusal::UnknownDevice,
            MapFault::AlreadyUp => Refusal::AlreadyUp,
            MapFault::AlreadyDown => Refusal::AlreadyDown,
            MapFault::StillUp => Refusal::StillUp,
            MapFault::UpThruBack => Refusal::UpThruBack,
            MapFault::Ahead => Refusal::Ahead,
            MapFault::BadPool => Refusal::BadPool,
            MapFault::PoolKnown => Refusal::PoolKnown,
            MapFault::BadTemp => Refusal::BadTemp,
            MapFault::TreeFault(fault) => match fault.tree() {
                Some(number) => Refusal::TreeFault(number),
                None => Refusal::Memory,
            },
            MapFault::Memory => Refusal::Memory,
        }
    }
}
