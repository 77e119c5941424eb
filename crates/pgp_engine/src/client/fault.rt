//! Why an object isn't placed.
ghost use Rattle.std.specs.Prelude.{◌≡◌};
ghost use Rattle.pgp_engine.specs.Faults.{locate_fault_number};

use pgp_feed::{ReadFault, Receipt};
use std::fmt;
use thiserror::Error;

/// Why an object wasn't placed.
#[derive(Drop, Error)]
pub enum LocateFault {
    /// The map of the front makes no such pool.
    #[error("unknown pool")]
    UnknownPool { at: Receipt },
    /// There was no memory.
    #[error("out of memory")]
    Memory,
    /// No copy of the log was lent.
    #[error("no copy to read")]
    NoReader,
}

impl LocateFault {
    /// The number of the fault.
    pub fn number(&self) -> u8
        ensures { result ≡ locate_fault_number self.now }
    {
        match self {
            LocateFault::UnknownPool { .. } => 42,
            LocateFault::Memory => 41,
            LocateFault::NoReader => 52,
        }
    }
}

impl From<ReadFault> for LocateFault {
    ghost use Rattle.std.specs.Prelude.{◌≡◌};
    ghost use Rattle.pgp_engine.specs.Faults.{locate_fault_of};

    ghost from_gives = { λ read fault. fault ≡ locate_fault_of read };

    fn from(fault: ReadFault) -> LocateFault {
        match fault {
            ReadFault::Memory => LocateFault::Memory,
            ReadFault::NoReader => LocateFault::NoReader,
        }
    }
}

impl fmt::Debug for LocateFault {
    fn fmt<W: fmt::Write>(&self, f: &mut fmt::Formatter<W>) -> fmt::Result {
        fmt::Display::fmt(self, f)
    }
}
