ghost use Rattle.std.specs.Prelude.{◌≡◌};
ghost use Rattle.pgp_ids.specs.TextFault.{text_fault_number};

use std::alloc::AllocError;
use thiserror::Error;

/// Why a line is no command. A line with several faults has the first in this order.
#[derive(Debug, Drop, Error)]
pub enum TextFault {
    /// It has more than 1,048,576 bytes.
    #[error("the line is longer than 1048576 bytes")]
    LineTooLong,
    /// It is no JSON text.
    #[error("the line is not JSON")]
    NotJson,
    /// It is no object, or its `op` names no operation.
    #[error("the line names no operation")]
    NoOp,
    /// A key that its operation doesn't have; of several, the least in byte order.
    #[error("unknown key {0:?}")]
    UnknownKey(String),
    /// A key that is absent, or whose value is of another shape or out of range; of several, the least in byte order.
    #[error("bad or absent value of key {0:?}")]
    BadField(String),
    /// There was no memory to read it.
    #[error("out of memory")]
    Memory,
}

impl TextFault {
    /// The number of the fault in answers.
    pub fn number(&self) -> u8
        ensures { result ≡ text_fault_number self.now }
    {
        match self {
            TextFault::LineTooLong => 30,
            TextFault::NotJson => 31,
            TextFault::NoOp => 32,
            TextFault::UnknownKey(_) => 33,
            TextFault::BadField(_) => 34,
            TextFault::Memory => 41,
        }
    }
}

impl From<AllocError> for TextFault {
    ghost use Rattle.pgp_ids.specs.declared.text_fault.TextFault.TheVariants.{Memory};

    ghost from_gives = { λ _ fault. fault ≡ Memory };

    fn from(_error: AllocError) -> TextFault {
        TextFault::Memory
    }
}
