ghost use Rattle.std.specs.Prelude.{◌≡◌};
ghost use Rattle.pgp_ids.specs.Names.{change_name};

use super::object_name::ObjectName;
use super::version::Version;

/// What a write did to an object.
#[derive(Clone, Copy, Debug, PartialEq, Eq)]
pub enum Change {
    /// It made the object or changed it.
    Modify,
    Delete,
}

impl Change {
    /// The word for it in lines.
    pub fn name(self) -> &'static str
        ensures { result.now ≡ change_name self }
    {
        match self {
            Change::Modify => "modify",
            Change::Delete => "delete",
        }
    }
}

/// One entry of a group's log.
#[derive(Debug, PartialEq, Eq, Drop)]
pub struct LogEntry {
    pub version: Version,
    pub change: Change,
    pub object: ObjectName,
}
