//! Who served is reckoned with: the safety argument of peering, over all logs that go on from one in which a group served.

ghost use Rattle.std.specs.Prelude.{◌≡◌, ◌≤◌, ◌⊎◌, ◌∷◌, ◌++◌, [], List, None, false, true, is_some, Contains};
ghost use Rattle.pgp_code.specs.AnyCode.{enough_of, is_by_place};
ghost use Rattle.pgp_ids.specs.declared.entry.Entry.{Entry};
ghost use Rattle.pgp_ids.specs.declared.entry.Entry.TheVariants as entry;
ghost use Rattle.pgp_ids.specs.declared.incremental.Incremental.{Incremental};
ghost use Rattle.pgp_ids.specs.declared.past.Past.{Past};
ghost use Rattle.pgp_ids.specs.declared.pg_id.PgId.{PgId};
ghost use Rattle.pgp_ids.specs.declared.verdict.Verdict.TheVariants.{Serve};
ghost use Rattle.pgp_interval.specs.Runs.{current_first};
ghost use Rattle.pgp_map.specs.Checked.{are_checked};
ghost use Rattle.pgp_prior.specs.Prior.{is_group_down};
ghost use Rattle.pgp_sets.specs.Status.{status};
ghost use Rattle.pgp_group.specs.Entries.{inc_of, incs_of};
ghost use Rattle.pgp_group.specs.GroupLog.{GroupLog, group_in, incs};
ghost use Rattle.pgp_group.specs.Heard.{les};
ghost use Rattle.pgp_group.specs.Later.{IsAfter};
ghost use Rattle.pgp_group.specs.Peering.{past, prior};
ghost use Rattle.pgp_group.specs.Reckoning.{Remembers, IsStillCurrent, IsRemembered, IsReckonedWith, IsAccountedFor, TakesNothingAway};
ghost use Rattle.pgp_group.specs.Verdict.{verdict};

/// Where a group served, the interval that was current then is current still, or it is past and may have gone read-write, so
/// that nobody forgets that writes may have been taken in it. It is named by its first epoch, its members, and the epoch in which
/// the group served, which it holds. A group that is there stays. It rests on two refusals of maps: up_thru never falls, and a
/// device that is up doesn't boot.
#[tactic(auto, using(crate::proofs::ServedLemmas::served_laws))]
pub fn served()
    ensures remembered { (g after : GroupLog) (later : List Entry) → IsAfter g later after → verdict g ≡ Serve
        → IsRemembered g after }
    ensures each { (g after : GroupLog) (later : List Entry) (interval : Past) → IsAfter g later after → verdict g ≡ Serve
        → Contains (past after) interval → interval.first ≡ current_first g.history → Remembers g interval }
    ensures there { (pg : PgId) (log later : List Entry) → are_checked (incs_of (log ++ later)) ≡ true
        → is_some (group_in log pg) ≡ true → is_some (group_in (log ++ later) pg) ≡ true }
{}

/// Whoever serves later has reckoned with that interval, unless the group is known to have begun to serve since: enough of its
/// acting members were heard or given up for lost, or none of them is down. So each group that serves again has accounted for
/// the interval in which it served, or is in it still.
#[tactic(auto, using(crate::proofs::ServedLemmas::reckoned_laws))]
pub fn reckoned()
    ensures interval { (g after : GroupLog) (later : List Entry) (interval : Past) → IsAfter g later after → verdict g ≡ Serve
        → Contains (past after) interval → interval.first ≡ current_first g.history
        → verdict after ≡ Serve → les after ≤ interval.last → Remembers g interval × IsReckonedWith after interval }
    ensures again { (g after : GroupLog) (later : List Entry) → IsAfter g later after → verdict g ≡ Serve → verdict after ≡ Serve
        → IsStillCurrent g after ⊎ IsAccountedFor g after }
{}

/// A group that isn't down doesn't become so by an incremental that takes no device down, destroys none, and gives none up for
/// lost at an earlier epoch than before, whatever interval it closes; nor by a report that raises no flag.
#[tactic(auto, using(crate::proofs::ReliefLemmas::relief_laws))]
pub fn relief()
    ensures map { (g after : GroupLog) (inc : Incremental) → IsAfter g (entry.Inc inc ∷ []) after
        → TakesNothingAway (incs g) inc → (prior g).down ≡ false → (prior after).down ≡ false }
    // Whether it is down then depends on the past intervals of before alone.
    ensures by_past { (g after : GroupLog) (inc : Incremental) → IsAfter g (entry.Inc inc ∷ []) after
        → TakesNothingAway (incs g) inc
        → (prior after).down
        ≡ is_group_down (enough_of g.history.code) (is_by_place g.history.code) (status (incs after)) (les g) (past g) }
    ensures report { (g after : GroupLog) (new : Entry) → IsAfter g (new ∷ []) after → inc_of new ≡ None
        → past after ≡ past g → (prior g).down ≡ false → (prior after).down ≡ false }
{}
