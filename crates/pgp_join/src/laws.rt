//! What holds of logs that are alike.

ghost use Rattle.std.specs.Prelude.{◌≡◌, ◌≢◌, ◌++◌, [], ◌∷◌, ℕ, List, Some, None, true};
ghost use Rattle.pgp_ids.specs.declared.entry.Entry.{Entry};
ghost use Rattle.pgp_ids.specs.declared.entry.Entry.TheVariants as entry;
ghost use Rattle.pgp_ids.specs.declared.incremental.Incremental.{Incremental};
ghost use Rattle.pgp_ids.specs.declared.pg_id.PgId.{PgId};
ghost use Rattle.pgp_ids.specs.declared.refusal.Refusal.TheVariants as refusal;
ghost use Rattle.pgp_map.specs.Checked.{are_checked};
ghost use Rattle.pgp_group.specs.Entries.{incs_of};
ghost use Rattle.pgp_group.specs.View.{scratch};
ghost use Rattle.pgp_log.specs.Fits.{entry_fault, fits};
ghost use Rattle.pgp_log.specs.Locate.{place_of_object};
ghost use Rattle.pgp_log.specs.Log.{is_legal};
ghost use Rattle.pgp_log.specs.Touch.{changes_nothing};
ghost use Rattle.pgp_join.specs.Alike.{AreAlike, AreAlikeViews};

/// Logs that are alike have alike views of every group: now, after whatever entries of which each incremental was checked when it came,
/// and after whatever the other one takes. They put each object in the same place.
pub fn logs_that_are_alike_are_answered_alike()
    ensures after { (log other more : List Entry) (pg : PgId) → AreAlike log other → are_checked (incs_of (log ++ more)) ≡ true
        → AreAlikeViews (scratch (log ++ more) pg) (scratch (other ++ more) pg) }
    ensures taken { (log other more : List Entry) (pg : PgId) → AreAlike log other → is_legal (other ++ more) ≡ true
        → AreAlikeViews (scratch (log ++ more) pg) (scratch (other ++ more) pg) }
    ensures places { (log other : List Entry) (id : ℕ) (name : List ℕ) → AreAlike log other
        → place_of_object (incs_of other) id name ≡ place_of_object (incs_of log) id name }
{}

/// Both take the next entry, or refuse it by the same number, except that the first may be full where the other isn't. An entry has the
/// same fault for both, also later, and they stay alike while the first takes entries.
pub fn logs_that_are_alike_take_the_same_entries()
    ensures next { (log other : List Entry) (new : Entry) → AreAlike log other → fits log new ≢ Some refusal.LogFull → fits other new ≡ fits log new }
    ensures fault { (log other more : List Entry) (new : Entry) → AreAlike log other → are_checked (incs_of (log ++ more)) ≡ true
        → entry_fault (other ++ more) new ≡ entry_fault (log ++ more) new }
    ensures later { (log other more : List Entry) → AreAlike log other → is_legal (log ++ more) ≡ true → AreAlike (log ++ more) (other ++ more) }
{}

/// A legal log is alike itself, and a log that is alike one that is alike another is alike that.
pub fn alike_logs_make_a_chain()
    ensures itself { (log : List Entry) → is_legal log ≡ true → AreAlike log log }
    ensures chain { (a b c : List Entry) → AreAlike a b → AreAlike b c → AreAlike a c }
{}

/// An incremental that changes the epoch alone may be left out where the next entry is an incremental: that one passes over its epoch.
pub fn an_epoch_without_a_change_may_be_passed_over()
    ensures { (log : List Entry) (a b : Incremental) → changes_nothing a ≡ true → is_legal log ≡ true → fits log (entry.Inc a) ≡ None
        → fits (log ++ entry.Inc a ∷ []) (entry.Inc b) ≡ None
        → AreAlike ((log ++ entry.Inc a ∷ []) ++ entry.Inc b ∷ []) (log ++ entry.Inc (record b { after = a.after }) ∷ []) }
{}
