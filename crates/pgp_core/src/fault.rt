//! Why a script was not answered to its end.

use super::output::WriteFault;
use thiserror::Error;

/// Why a script was not answered to its end.
#[derive(Clone, Copy, Debug, PartialEq, Eq, Error)]
pub enum ScriptFault {
    /// A read failed, or the script is larger than its bounds.
    #[error("read fault")]
    Read,
    /// A write failed, or took no byte.
    #[error("write fault")]
    Write,
    /// Nobody answers its commands, or nobody does any more. The answers to the lines before are written; where that write
    /// fails, the fault is `Write`.
    #[error("no answerer")]
    Gone,
}

impl From<WriteFault> for ScriptFault {
    ghost use Rattle.std.specs.Prelude.{◌≡◌};
    ghost use Rattle.pgp_core.specs.declared.fault.ScriptFault.TheVariants.{Write};

    ghost from_gives = { λ _ fault. fault ≡ Write };

    fn from(_fault: WriteFault) -> ScriptFault {
        ScriptFault::Write
    }
}
