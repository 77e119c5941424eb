//! Why a script was not explained or compacted.

ghost use Rattle.std.specs.Prelude.{◌≡◌};
ghost use Rattle.pgp_core.specs.declared.whole.WholeFault.TheVariants.{Memory};
ghost use Rattle.pgp_whole.specs.declared.subcommand_fault.SubcommandFault.TheVariants.{Script};

use pgp_core::WholeFault;
use pgp_ids::PgId;
use std::alloc::AllocError;
use thiserror::Error;

/// Why a script wasn't explained or compacted.
#[derive(Clone, Copy, Debug, PartialEq, Eq, Error)]
pub enum SubcommandFault {
    /// The script could not be read whole, or there was no memory to explain or compact it.
    #[error(transparent)]
    Script(WholeFault),
    /// A write failed, or took no byte.
    #[error("write fault")]
    Write,
    /// The map does not have this group, which was asked about.
    #[error("the map has no such group")]
    UnknownGroup(PgId),
}

impl From<WholeFault> for SubcommandFault {
    ghost from_gives = { λ why fault. fault ≡ Script why };

    fn from(fault: WholeFault) -> SubcommandFault {
        SubcommandFault::Script(fault)
    }
}

impl From<AllocError> for SubcommandFault {
    ghost from_gives = { λ _ fault. fault ≡ Script Memory };

    fn from(_error: AllocError) -> SubcommandFault {
        SubcommandFault::Script(WholeFault::Memory)
    }
}
