//! Which reports count later, as more of the log comes.

ghost use Rattle.std.specs.Prelude.{◌≡◌, ◌≢◌, ◌≤◌, ◌<◌, ℕ, List, [], ◌∷◌, false};
ghost use Rattle.pgp_ids.specs.declared.entry.Entry.{Entry};
ghost use Rattle.pgp_ids.specs.declared.entry.Entry.TheVariants as entry;
ghost use Rattle.pgp_ids.specs.declared.incremental.Incremental.{Incremental};
ghost use Rattle.pgp_ids.specs.declared.member.Member.{Member};
ghost use Rattle.pgp_map.specs.Map.{epoch};
ghost use Rattle.pgp_group.specs.GroupLog.{GroupLog, incs};
ghost use Rattle.pgp_group.specs.Heard.{is_counted, heard, reported};
ghost use Rattle.pgp_group.specs.Later.{IsAfter, AreSentBy};

/// A new interval has heard nobody: where an incremental opens one, nothing that was sent before its epoch counts.
#[tactic(auto, using(crate::proofs::LaterLemmas::new_laws))]
pub fn a_new_interval_has_heard_nobody()
    ensures counts { (g after : GroupLog) (inc : Incremental) (member : Member) (stamp : ℕ) → IsAfter g (entry.Inc inc ∷ []) after
        → after.history.current ≢ g.history.current → stamp < inc.epoch → is_counted after member stamp ≡ false }
    ensures infos { (g after : GroupLog) (inc : Incremental) → IsAfter g (entry.Inc inc ∷ []) after
        → after.history.current ≢ g.history.current → AreSentBy (epoch (incs g)) g → heard after ≡ [] }
    ensures entries { (g after : GroupLog) (inc : Incremental) (member : Member) → IsAfter g (entry.Inc inc ∷ []) after
        → after.history.current ≢ g.history.current → AreSentBy (epoch (incs g)) g → reported after member ≡ [] }
{}

/// A report whose epoch has come and that doesn't count never counts again, whatever comes later: the first epoch of the current
/// interval never falls, and a device that boots does so in an epoch above every stamp so far.
#[tactic(auto, using(crate::proofs::LaterLemmas::never_laws))]
pub fn what_does_not_count_never_counts_again()
    ensures { (g after : GroupLog) (later : List Entry) (member : Member) (stamp : ℕ) → IsAfter g later after
        → stamp ≤ epoch (incs g) → is_counted g member stamp ≡ false → is_counted after member stamp ≡ false }
{}
