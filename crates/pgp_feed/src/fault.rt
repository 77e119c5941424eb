//! Why a feed isn't made, or a front isn't read.
ghost use Rattle.std.specs.Prelude.{◌≡◌};
ghost use Rattle.pgp_feed.specs.Faults.{make_fault_number, read_fault_number};

use thiserror::Error;

/// Why no feed was made.
#[derive(Clone, Copy, Debug, PartialEq, Eq, Error)]
pub enum MakeFault {
    /// There was no memory.
    #[error("out of memory")]
    Memory,
    /// A reader's place was refused.
    #[error("no reader's place")]
    NoReader,
}

impl MakeFault {
    /// The number of the fault.
    pub fn number(self) -> u8
        ensures { result ≡ make_fault_number self }
    {
        match self {
            MakeFault::Memory => 51,
            MakeFault::NoReader => 52,
        }
    }
}

/// Why a front wasn't read.
#[derive(Clone, Copy, Debug, PartialEq, Eq, Error)]
pub enum ReadFault {
    /// There was no memory.
    #[error("out of memory")]
    Memory,
    /// No copy was lent that reaches the front. A copy that is lent reaches the front of each receipt of its feed, since no receipt
    /// is given before its copy is shown; no contract of the copies can say so.
    #[error("no copy to read")]
    NoReader,
}

impl ReadFault {
    /// The number of the fault.
    pub fn number(self) -> u8
        ensures { result ≡ read_fault_number self }
    {
        match self {
            ReadFault::Memory => 51,
            ReadFault::NoReader => 52,
        }
    }
}
