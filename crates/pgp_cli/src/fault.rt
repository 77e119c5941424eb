//! Why the program ended with a fault.

use pgp_core::{ScriptFault, WholeFault};
use pgp_ids::PgId;
use pgp_whole::SubcommandFault;
use std::fmt;

/// Why a script was not answered, explained or compacted to its end.
#[derive(Clone, Copy, Debug)]
pub enum Fault {
    /// A read failed, or the script has more lines or bytes than it may have.
    Read,
    /// It was out of memory.
    Memory,
    /// A write failed, or took no byte.
    Write,
    /// There is no engine with all of its workers, or it could not lend a copy of its log for a line.
    NoEngine,
    /// The map has no such group.
    UnknownGroup(PgId),
}

impl From<ScriptFault> for Fault {
    fn from(why: ScriptFault) -> Fault {
        match why {
            ScriptFault::Read => Fault::Read,
            ScriptFault::Write => Fault::Write,
            ScriptFault::Gone => Fault::NoEngine,
        }
    }
}

impl From<SubcommandFault> for Fault {
    fn from(why: SubcommandFault) -> Fault {
        match why {
            SubcommandFault::Script(WholeFault::Memory) => Fault::Memory,
            SubcommandFault::Script(_) => Fault::Read,
            SubcommandFault::Write => Fault::Write,
            SubcommandFault::UnknownGroup(pg) => Fault::UnknownGroup(pg),
        }
    }
}

impl fmt::Display for Fault {
    fn fmt<W: fmt::Write>(&self, f: &mut fmt::Formatter<W>) -> fmt::Result {
        match self {
            Fault::Read => f.write_str("read fault"),
            Fault::Memory => f.write_str("out of memory"),
            Fault::Write => f.write_str("write fault"),
            Fault::NoEngine => f.write_str("no engine"),
            Fault::UnknownGroup(pg) => {
                write!(f, "the map has no group {}.{:x}", pg.pool.number(), pg.pg)
            }
        }
    }
}
