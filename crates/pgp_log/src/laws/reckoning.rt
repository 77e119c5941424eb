//! Who served is reckoned with, in every legal log that goes on from there.

ghost use Rattle.std.specs.Prelude.{◌≡◌, ◌≤◌, ◌⊎◌, ◌∷◌, ◌++◌, [], List, Some, None, false, true, is_some, Contains};
ghost use Rattle.pgp_ids.specs.declared.entry.Entry.{Entry};
ghost use Rattle.pgp_ids.specs.declared.entry.Entry.TheVariants as entry;
ghost use Rattle.pgp_ids.specs.declared.incremental.Incremental.{Incremental};
ghost use Rattle.pgp_ids.specs.declared.membership.Membership.{Membership};
ghost use Rattle.pgp_ids.specs.declared.past.Past.{Past};
ghost use Rattle.pgp_ids.specs.declared.pg_id.PgId.{PgId};
ghost use Rattle.pgp_ids.specs.declared.verdict.Verdict.TheVariants.{Serve};
ghost use Rattle.pgp_ids.specs.declared.view.View.{View};
ghost use Rattle.pgp_interval.specs.Runs.{current_first};
ghost use Rattle.pgp_sets.specs.Sets.{membership};
ghost use Rattle.pgp_group.specs.Entries.{inc_of, incs_of};
ghost use Rattle.pgp_group.specs.GroupLog.{GroupLog, group_in};
ghost use Rattle.pgp_group.specs.Heard.{les};
ghost use Rattle.pgp_group.specs.Peering.{past, prior};
ghost use Rattle.pgp_group.specs.Reckoning.{WentReadWrite, Remembers, IsStillCurrent, IsReckonedWith, IsAccountedFor, TakesNothingAway};
ghost use Rattle.pgp_group.specs.Verdict.{verdict};
ghost use Rattle.pgp_group.specs.View.{scratch};
ghost use Rattle.pgp_log.specs.Fits.{fits};
ghost use Rattle.pgp_log.specs.Log.{is_legal};

use super::{legal_logs_are_checked_and_short, legal_logs_grow_by_entries_that_fit};
use pgp_group::laws::{history_has_each_epoch, reckoning as group_laws};

/// Where a group served, every legal log that goes on from there has the group. The interval that was current is current in it
/// still, with its members, or it is past and may have gone read-write, so that nobody forgets that writes may have been taken in
/// it. It is named by its first epoch, its members, and the epoch in which the group served, which it holds.
pub fn served()
    ensures remembered { (log later : List Entry) (pg : PgId) (members : Membership) (view after : View) → is_legal (log ++ later) ≡ true
        → scratch log pg ≡ Some view → membership (incs_of log) pg ≡ Some members → view.verdict ≡ Serve
        → scratch (log ++ later) pg ≡ Some after
        → ((after.first ≡ view.first) × (membership (incs_of (log ++ later)) pg ≡ Some members))
        ⊎ ((interval : Past) × Contains after.intervals interval × WentReadWrite view.first view.epoch members interval) }
    ensures each { (log later : List Entry) (pg : PgId) (members : Membership) (view after : View) (interval : Past) → is_legal (log ++ later) ≡ true
        → scratch log pg ≡ Some view → membership (incs_of log) pg ≡ Some members → view.verdict ≡ Serve
        → scratch (log ++ later) pg ≡ Some after
        → Contains after.intervals interval → interval.first ≡ view.first → WentReadWrite view.first view.epoch members interval }
    ensures there { (log later : List Entry) (pg : PgId) (view : View) → is_legal (log ++ later) ≡ true
        → scratch log pg ≡ Some view → is_some (scratch (log ++ later) pg) ≡ true }
{
    group_laws::served();
    legal_logs_are_checked_and_short();
}

/// Whoever serves later has reckoned with that interval, unless the group is known to have begun to serve since: enough of its
/// acting members were heard or given up for lost, or none of them is down. So each group that serves again has accounted for
/// the interval in which it served, or is in it still.
pub fn reckoned()
    ensures interval { (log later : List Entry) (pg : PgId) (g after : GroupLog) (interval : Past) → is_legal (log ++ later) ≡ true
        → group_in log pg ≡ Some g → verdict g ≡ Serve → group_in (log ++ later) pg ≡ Some after
        → Contains (past after) interval → interval.first ≡ current_first g.history
        → verdict after ≡ Serve → les after ≤ interval.last → Remembers g interval × IsReckonedWith after interval }
    ensures again { (log later : List Entry) (pg : PgId) (g after : GroupLog) → is_legal (log ++ later) ≡ true
        → group_in log pg ≡ Some g → verdict g ≡ Serve → group_in (log ++ later) pg ≡ Some after → verdict after ≡ Serve
        → IsStillCurrent g after ⊎ IsAccountedFor g after }
{
    group_laws::reckoned();
    legal_logs_are_checked_and_short();
}

/// A group that isn't down doesn't become so by an incremental that fits, takes no device down, destroys none, and gives none up
/// for lost at an earlier epoch than before, whatever interval it closes; nor by a report that fits and raises no flag.
pub fn relief()
    ensures map { (log : List Entry) (pg : PgId) (g after : GroupLog) (inc : Incremental) → is_legal log ≡ true
        → fits log (entry.Inc inc) ≡ None → group_in log pg ≡ Some g → group_in (log ++ entry.Inc inc ∷ []) pg ≡ Some after
        → TakesNothingAway (incs_of log) inc → (prior g).down ≡ false → (prior after).down ≡ false }
    ensures report { (log : List Entry) (pg : PgId) (g after : GroupLog) (new : Entry) → is_legal log ≡ true
        → fits log new ≡ None → inc_of new ≡ None → group_in log pg ≡ Some g → group_in (log ++ new ∷ []) pg ≡ Some after
        → past after ≡ past g → (prior g).down ≡ false → (prior after).down ≡ false }
{
    group_laws::relief();
    legal_logs_are_checked_and_short();
    legal_logs_grow_by_entries_that_fit();
}
