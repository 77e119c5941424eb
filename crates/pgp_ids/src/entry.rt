ghost use Rattle.std.specs.Prelude.{◌≡◌, IfSome, IsSome};
ghost use Rattle.pgp_ids.specs.declared.entry.Entry.TheVariants.{Inc};
ghost use Rattle.pgp_ids.specs.declared.incremental.Incremental.{Incremental as AnyIncremental};

use super::incremental::Incremental;
use super::report::{Info, Report};

/// An entry of the log of all that monitor and devices have told.
#[derive(Debug)]
pub enum Entry {
    /// The next cluster map.
    Inc(Incremental),
    /// A member's info.
    Info(Info),
    /// A part of a member's log.
    Entries(Report),
    /// The log ends here, and takes no further entry.
    Close,
}

// Written out, so that a crate which lets one go has nothing to prove of what lies within.
impl Drop for Entry {
    fn drop(self) {
        match self {
            Entry::Inc(_) => {}
            Entry::Info(_) => {}
            Entry::Entries(_) => {}
            Entry::Close => {}
        }
    }
}

impl Entry {
    /// The incremental, where the entry is one.
    pub fn into_incremental(self) -> Option<Incremental>
        ensures some { IfSome result (λ inc. self ≡ Inc inc) }
        ensures none { (inc : AnyIncremental) → self ≡ Inc inc → IsSome result }
    {
        match self {
            Entry::Inc(inc) => Some(inc),
            _ => None,
        }
    }
}
