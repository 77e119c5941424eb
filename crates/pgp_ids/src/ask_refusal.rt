ghost use Rattle.std.specs.Prelude.{◌≡◌};
ghost use Rattle.pgp_ids.specs.AskRefusal.{ask_refusal_number, ask_refusal_name};

use std::alloc::AllocError;
use thiserror::Error;

/// Why a question about a group has no answer. The first that holds, in this order.
#[derive(Clone, Copy, Debug, PartialEq, Eq, Error)]
pub enum AskRefusal {
    /// The map has no such group.
    #[error("unknown placement group")]
    UnknownGroup,
    /// There was no memory for the answer.
    #[error("out of memory")]
    Memory,
}

impl AskRefusal {
    /// The number of the refusal in answers.
    pub fn number(self) -> u8
        ensures { result ≡ ask_refusal_number self }
    {
        match self {
            AskRefusal::UnknownGroup => 40,
            AskRefusal::Memory => 41,
        }
    }

    /// The name of the refusal in answers.
    pub fn name(self) -> &'static str
        ensures { result.now ≡ ask_refusal_name self }
    {
        match self {
            AskRefusal::UnknownGroup => "UnknownGroup",
            AskRefusal::Memory => "Memory",
        }
    }
}

impl From<AllocError> for AskRefusal {
    ghost use Rattle.pgp_ids.specs.declared.ask_refusal.AskRefusal.TheVariants.{Memory};

    ghost from_gives = { λ _ refusal. refusal ≡ Memory };

    fn from(_error: AllocError) -> AskRefusal {
        AskRefusal::Memory
    }
}
