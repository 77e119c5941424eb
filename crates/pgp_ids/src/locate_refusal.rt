ghost use Rattle.std.specs.Prelude.{◌≡◌};
ghost use Rattle.pgp_ids.specs.LocateRefusal.{locate_refusal_number, locate_refusal_name};

use std::alloc::AllocError;
use thiserror::Error;

/// Why nothing can be said of where an object lies. The first that holds, in this order.
#[derive(Clone, Copy, Debug, PartialEq, Eq, Error)]
pub enum LocateRefusal {
    /// The map has no such pool.
    #[error("unknown pool")]
    UnknownPool,
    /// There was no memory for the answer.
    #[error("out of memory")]
    Memory,
}

impl LocateRefusal {
    /// The number of the refusal in answers.
    pub fn number(self) -> u8
        ensures { result ≡ locate_refusal_number self }
    {
        match self {
            LocateRefusal::UnknownPool => 42,
            LocateRefusal::Memory => 41,
        }
    }

    /// The name of the refusal in answers.
    pub fn name(self) -> &'static str
        ensures { result.now ≡ locate_refusal_name self }
    {
        match self {
            LocateRefusal::UnknownPool => "UnknownPool",
            LocateRefusal::Memory => "Memory",
        }
    }
}

impl From<AllocError> for LocateRefusal {
    ghost use Rattle.pgp_ids.specs.declared.locate_refusal.LocateRefusal.TheVariants.{Memory};

    ghost from_gives = { λ _ refusal. refusal ≡ Memory };

    fn from(_error: AllocError) -> LocateRefusal {
        LocateRefusal::Memory
    }
}
