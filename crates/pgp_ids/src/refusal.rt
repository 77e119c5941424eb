ghost use Rattle.std.specs.Prelude.{◌≡◌};
ghost use Rattle.pgp_ids.specs.Refusal.{refusal_number, refusal_name, refusal_tree};

use std::alloc::AllocError;
use thiserror::Error;

/// Why an entry isn't taken. Which comes first where several hold: `Closed`, then those of a map incremental
/// (`EpochGap` to `TreeFault`) or of a report (`UnknownGroup` to `BadVersion`), then `LogFull`, then `Memory`; within
/// these in the order in which they stand here.
#[derive(Clone, Copy, Debug, PartialEq, Eq, Error)]
pub enum Refusal {
    /// The incremental changes a map of another epoch, or leads to no later one.
    #[error("the epoch does not follow that of the map")]
    EpochGap,
    /// A device, pool or group is named twice where it may be named once.
    #[error("a device, pool or group is named twice")]
    Twice,
    /// A device is named that neither exists nor boots.
    #[error("unknown device")]
    UnknownDevice,
    /// A device boots that is up.
    #[error("the device is already up")]
    AlreadyUp,
    /// A device is taken down that is down.
    #[error("the device is already down")]
    AlreadyDown,
    /// A device is destroyed or given up for lost that is up.
    #[error("the device is still up")]
    StillUp,
    /// A device's up_thru would fall.
    #[error("up_thru goes back")]
    UpThruBack,
    /// An epoch lies ahead of the incremental's.
    #[error("an epoch is ahead of the map")]
    Ahead,
    /// A pool's numbers are out of range, or the pool isn't one whose sizes can change so.
    #[error("bad pool")]
    BadPool,
    /// A pool is made that exists.
    #[error("the pool is already known")]
    PoolKnown,
    /// A pg_temp list is none that its group can have.
    #[error("bad pg_temp")]
    BadTemp,
    /// The placement tree has this fault, 1 to 7.
    #[error("the placement tree has a fault")]
    TreeFault(u8),
    /// The log has as many entries as it takes.
    #[error("the log is full")]
    LogFull,
    /// There was no memory.
    #[error("out of memory")]
    Memory,
    /// The map has no such group.
    #[error("unknown placement group")]
    UnknownGroup,
    /// The group can't have such a member.
    #[error("unknown member")]
    UnknownMember,
    /// A report is from an epoch that isn't there yet.
    #[error("the stamp is ahead of the map")]
    FutureStamp,
    /// A report's versions or epochs don't go together.
    #[error("bad version")]
    BadVersion,
    /// The log was closed.
    #[error("the log is closed")]
    Closed,
}

impl Refusal {
    /// The number of the refusal in answers.
    pub fn number(self) -> u8
        ensures { result ≡ refusal_number self }
    {
        match self {
            Refusal::EpochGap => 10,
            Refusal::Twice => 11,
            Refusal::UnknownDevice => 12,
            Refusal::AlreadyUp => 13,
            Refusal::AlreadyDown => 14,
            Refusal::StillUp => 15,
            Refusal::UpThruBack => 16,
            Refusal::Ahead => 17,
            Refusal::BadPool => 18,
            Refusal::PoolKnown => 19,
            Refusal::BadTemp => 20,
            Refusal::TreeFault(_) => 21,
            Refusal::LogFull => 50,
            Refusal::Memory => 51,
            Refusal::UnknownGroup => 60,
            Refusal::UnknownMember => 61,
            Refusal::FutureStamp => 62,
            Refusal::BadVersion => 63,
            Refusal::Closed => 64,
        }
    }

    /// The name of the refusal in answers.
    pub fn name(self) -> &'static str
        ensures { result.now ≡ refusal_name self }
    {
        match self {
            Refusal::EpochGap => "EpochGap",
            Refusal::Twice => "Twice",
            Refusal::UnknownDevice => "UnknownDevice",
            Refusal::AlreadyUp => "AlreadyUp",
            Refusal::AlreadyDown => "AlreadyDown",
            Refusal::StillUp => "StillUp",
            Refusal::UpThruBack => "UpThruBack",
            Refusal::Ahead => "Ahead",
            Refusal::BadPool => "BadPool",
            Refusal::PoolKnown => "PoolKnown",
            Refusal::BadTemp => "BadTemp",
            Refusal::TreeFault(_) => "TreeFault",
            Refusal::LogFull => "LogFull",
            Refusal::Memory => "Memory",
            Refusal::UnknownGroup => "UnknownGroup",
            Refusal::UnknownMember => "UnknownMember",
            Refusal::FutureStamp => "FutureStamp",
            Refusal::BadVersion => "BadVersion",
            Refusal::Closed => "Closed",
        }
    }

    /// The number of the tree's fault, where that is the refusal.
    pub fn tree(self) -> Option<u8>
        ensures { result ≡ refusal_tree self }
    {
        match self {
            Refusal::TreeFault(fault) => Some(fault),
            _ => None,
        }
    }
}

impl From<AllocError> for Refusal {
    ghost use Rattle.pgp_ids.specs.declared.refusal.Refusal.TheVariants.{Memory};

    ghost from_gives = { λ _ refusal. refusal ≡ Memory };

    fn from(_error: AllocError) -> Refusal {
        Refusal::Memory
    }
}
