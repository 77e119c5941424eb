//! What follows the log, one entry after another.
ghost use Rattle.std.specs.Prelude.{◌≡◌, ℕ, List, [], ◌∷◌, ◌++◌, length, map, true, None, OnOk, OnErr};
ghost use Rattle.std.specs.Arc.{arc_value};
ghost use Rattle.pgp_ids.specs.declared.entry.Entry.{Entry as AnyEntry};
ghost use Rattle.pgp_log.specs.Fits.{fits};
ghost use Rattle.pgp_log.specs.Log.{is_legal};
ghost use Rattle.pgp_engine.specs.kept.Followers.{CanTakeAll, CanTakeNext, HasTakenFewer, HasTakenMore};

use pgp_ids::Entry;
use std::alloc::AllocError;
use std::sync::Arc;

/// What follows the log: it has taken the first entries of it, and takes those that come next.
pub(crate) trait Follower {
    /// It has taken the entries of this log, and no others.
    ghost has_taken: { List AnyEntry → Self → Type 0 };

    /// Its own numbers, which no entry changes.
    ghost numbers: { Self → List ℕ };

    /// How many entries it has taken.
    fn taken(&self) -> usize
        ensures { (log : List AnyEntry) → has_taken log self.now → result ≡ length log };

    /// Takes the next entry. Without memory for it, it has taken what it had before.
    fn take_next(&mut self, entry: &Arc<Entry>) -> Result<(), AllocError>
        requires { CanTakeNext has_taken self.old (arc_value entry.now) }
        ensures ok { OnOk result ((log : List AnyEntry) → has_taken log self.old → fits log (arc_value entry.now) ≡ None
            → has_taken (log ++ arc_value entry.now ∷ []) self.new) }
        ensures err { OnErr result ((log : List AnyEntry) → has_taken log self.old → has_taken log self.new) }
        ensures same { numbers self.new ≡ numbers self.old };
}

/// Has it take the entries that come next. Without memory for one of them, it has taken those before it.
pub(crate) fn take_all<F: Follower>(
    follower: &mut F,
    entries: &[Arc<Entry>],
) -> Result<(), AllocError>
    requires { CanTakeAll F.has_taken follower.old (map arc_value entries.now) }
    ensures whole { OnOk result ((log : List AnyEntry) → F.has_taken log follower.old → is_legal (log ++ map arc_value entries.now) ≡ true
        → F.has_taken (log ++ map arc_value entries.now) follower.new) }
    ensures more { (log : List AnyEntry) → F.has_taken log follower.old → is_legal (log ++ map arc_value entries.now) ≡ true
        → HasTakenMore F.has_taken log (log ++ map arc_value entries.now) follower.new }
    ensures fewer { OnErr result ((log : List AnyEntry) → F.has_taken log follower.old → is_legal (log ++ map arc_value entries.now) ≡ true
        → HasTakenFewer F.has_taken (log ++ map arc_value entries.now) follower.new) }
    ensures same { F.numbers follower.new ≡ F.numbers follower.old }
{
    for entry in entries {
        follower.take_next(entry)?;
    }
    Ok(())
}
