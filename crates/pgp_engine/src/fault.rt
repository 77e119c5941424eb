//! Why nothing was submitted, or why an ask has no answer.
ghost use Rattle.std.specs.Prelude.{◌≡◌};
ghost use Rattle.pgp_engine.specs.Faults.{submit_fault_number, ask_fault_number};

use pgp_feed::{ReadFault, Receipt};
use pgp_ids::Refusal;
use std::alloc::AllocError;
use std::fmt;
use thiserror::Error;

/// Why no entry was published.
#[derive(Drop, Error)]
pub enum SubmitFault {
    /// The front that the receipt names doesn't take the entry. The refusal is never `Memory`.
    #[error("refused: {why}")]
    Refused { why: Refusal, at: Receipt },
    /// There was no memory.
    #[error("out of memory")]
    Memory,
    /// No copy of the log was lent.
    #[error("no copy to read")]
    NoReader,
}

impl SubmitFault {
    /// The number of the fault.
    pub fn number(&self) -> u8
        ensures { result ≡ submit_fault_number self.now }
    {
        match self {
            SubmitFault::Refused { why, at: _ } => why.number(),
            SubmitFault::Memory => 51,
            SubmitFault::NoReader => 52,
        }
    }
}

impl fmt::Debug for SubmitFault {
    fn fmt<W: fmt::Write>(&self, f: &mut fmt::Formatter<W>) -> fmt::Result {
        fmt::Display::fmt(self, f)
    }
}

impl From<AllocError> for SubmitFault {
    ghost use Rattle.pgp_engine.specs.declared.fault.SubmitFault.TheVariants.{Memory};

    ghost from_gives = { λ _ fault. fault ≡ Memory };

    fn from(_error: AllocError) -> SubmitFault {
        SubmitFault::Memory
    }
}

impl From<ReadFault> for SubmitFault {
    ghost use Rattle.pgp_engine.specs.Faults.{submit_fault_of};

    ghost from_gives = { λ read fault. fault ≡ submit_fault_of read };

    fn from(fault: ReadFault) -> SubmitFault {
        match fault {
            ReadFault::Memory => SubmitFault::Memory,
            ReadFault::NoReader => SubmitFault::NoReader,
        }
    }
}

/// Why an ask has no answer, or a shard hasn't read on.
#[derive(Drop, Error)]
pub enum AskFault {
    /// The front that the receipt names makes no such group.
    #[error("unknown placement group")]
    UnknownGroup { at: Receipt },
    /// There was no memory.
    #[error("out of memory")]
    Memory,
    /// No copy of the log was lent.
    #[error("no copy to read")]
    NoReader,
}

impl AskFault {
    /// The number of the fault.
    pub fn number(&self) -> u8
        ensures { result ≡ ask_fault_number self.now }
    {
        match self {
            AskFault::UnknownGroup { at: _ } => 40,
            AskFault::Memory => 41,
            AskFault::NoReader => 52,
        }
    }
}

impl fmt::Debug for AskFault {
    fn fmt<W: fmt::Write>(&self, f: &mut fmt::Formatter<W>) -> fmt::Result {
        fmt::Display::fmt(self, f)
    }
}

impl From<AllocError> for AskFault {
    ghost use Rattle.pgp_engine.specs.declared.fault.AskFault.TheVariants.{Memory};

    ghost from_gives = { λ _ fault. fault ≡ Memory };

    fn from(_error: AllocError) -> AskFault {
        AskFault::Memory
    }
}

impl From<ReadFault> for AskFault {
    ghost use Rattle.pgp_engine.specs.Faults.{ask_fault_of};

    ghost from_gives = { λ read fault. fault ≡ ask_fault_of read };

    fn from(fault: ReadFault) -> AskFault {
        match fault {
            ReadFault::Memory => AskFault::Memory,
            ReadFault::NoReader => AskFault::NoReader,
        }
    }
}
