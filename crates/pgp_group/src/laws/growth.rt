//! How the history of a group grows with the list of incrementals.

ghost use Rattle.std.specs.Prelude.{◌≡◌, ◌≢◌, ◌≤◌, ◌<◌, ◌-◌, ◌++◌, ℕ, All, List, Some, true, length, map, option_map};
ghost use Rattle.std.specs.List.{range_with_len};
ghost use Rattle.pgp_code.specs.Pool.{code_of};
ghost use Rattle.pgp_code.specs.declared.any.AnyCode.{AnyCode};
ghost use Rattle.pgp_ids.specs.declared.entry.Entry.{Entry};
ghost use Rattle.pgp_ids.specs.declared.incremental.Incremental.{Incremental};
ghost use Rattle.pgp_ids.specs.declared.pg_id.PgId.{PgId};
ghost use Rattle.pgp_interval.specs.History.{History, begun};
ghost use Rattle.pgp_interval.specs.Runs.{current_first};
ghost use Rattle.pgp_map.specs.Checked.{are_checked};
ghost use Rattle.pgp_map.specs.Map.{epoch, up_to};
ghost use Rattle.pgp_map.specs.MapFault.{then_with};
ghost use Rattle.pgp_map.specs.MapOf.{IsMapOf};
ghost use Rattle.pgp_map.specs.Pools.{pool, has_group};
ghost use Rattle.pgp_map.specs.declared.map.OsdMap.{OsdMap};
ghost use Rattle.pgp_sets.specs.Sets.{membership, pool_membership};
ghost use Rattle.pgp_group.specs.Entries.{incs_of};
ghost use Rattle.pgp_group.specs.GroupHistory.{EpochsAscend, grown_with, makes, made_at, group_history};
ghost use Rattle.pgp_group.specs.GroupLog.{GroupLog, group_in};
ghost use Rattle.pgp_group.specs.GroupOf.{IsGroupOf, IsThere};
ghost use Rattle.pgp_group.specs.Heard.{les};
ghost use Rattle.pgp_group.specs.declared.group.Group.{Group};

use pgp_map::laws::{checked_lists_grow_by_incrementals_without_fault, pools_of_checked_lists};

/// Each of the incrementals that were checked one by one leads from the last epoch to a later one, so that the map of the last epoch
/// is what they all make. Where each leads to the next epoch, these are 1, 2, and so on. An epoch that was passed over has the map
/// before it.
#[tactic(auto, using(crate::proofs::GrowthLemmas::ascend_laws))]
pub fn epochs_of_checked_incrementals_ascend()
    ensures ascend { (incs : List Incremental) → are_checked incs ≡ true → EpochsAscend incs }
    ensures linked { (incs : List Incremental) (inc : Incremental) → are_checked (then_with incs inc) ≡ true
        → (inc.after ≡ epoch incs) × (inc.after < inc.epoch) }
    ensures counts { (incs : List Incremental) → are_checked incs ≡ true → All (λ inc. inc.after ≡ inc.epoch - 1) incs
        → map (λ inc. inc.epoch) incs ≡ range_with_len 1 (length incs) }
    ensures last { (incs : List Incremental) → are_checked incs ≡ true → All (λ inc. inc.after ≡ inc.epoch - 1) incs
        → epoch incs ≡ length incs }
    ensures all { (incs : List Incremental) → are_checked incs ≡ true → up_to (epoch incs) incs ≡ incs }
    ensures passed { (incs : List Incremental) (inc : Incremental) (at : ℕ) → are_checked (then_with incs inc) ≡ true
        → epoch incs ≤ at → at < inc.epoch → up_to at (then_with incs inc) ≡ incs }
{}

/// A history grows with each incremental: the membership of the new map follows, and what the map before said of the primary
/// that was acting completes the epoch that was current and those that the incremental passes over. A group that is there
/// stays.
pub fn history_grows_with_each_incremental()
    ensures grows { (incs : List Incremental) (inc : Incremental) (pg : PgId) (h : History AnyCode)
        → are_checked (then_with incs inc) ≡ true → group_history incs pg ≡ Some h
        → group_history (then_with incs inc) pg
        ≡ option_map (grown_with incs inc h) (membership (then_with incs inc) pg) }
    ensures stays { (incs : List Incremental) (inc : Incremental) (pg : PgId) (h : History AnyCode)
        → are_checked (then_with incs inc) ≡ true → group_history incs pg ≡ Some h
        → has_group (then_with incs inc) pg ≡ true }
{}

/// With one more incremental the current interval goes on where the membership stays, and opens with the new epoch where it
/// doesn't, so that its first epoch never falls.
#[tactic(auto, using(crate::proofs::FirstLemmas::first_laws))]
pub fn the_current_interval_never_opens_earlier()
    ensures goes_on { (incs : List Incremental) (inc : Incremental) (pg : PgId) (h after : History AnyCode)
        → are_checked (then_with incs inc) ≡ true → group_history incs pg ≡ Some h → group_history (then_with incs inc) pg ≡ Some after
        → after.current ≡ h.current → current_first after ≡ current_first h }
    ensures opens { (incs : List Incremental) (inc : Incremental) (pg : PgId) (h after : History AnyCode)
        → are_checked (then_with incs inc) ≡ true → group_history incs pg ≡ Some h → group_history (then_with incs inc) pg ≡ Some after
        → after.current ≢ h.current → current_first after ≡ inc.epoch }
    ensures never_falls { (incs later : List Incremental) (pg : PgId) (h after : History AnyCode)
        → are_checked (incs ++ later) ≡ true → group_history incs pg ≡ Some h → group_history (incs ++ later) pg ≡ Some after
        → current_first h ≤ current_first after }
{}

/// A history begins with the epoch that makes the pool, which has no other.
#[tactic(auto, using(crate::proofs::GrowthLemmas::begin_laws))]
pub fn history_begins_with_its_pool()
    ensures made { (incs : List Incremental) (inc : Incremental) (id : ℕ) → makes id inc ≡ true
        → made_at (then_with incs inc) id ≡ inc.epoch }
    ensures begins { (incs : List Incremental) (inc : Incremental) (pg : PgId) → makes pg.pool inc ≡ true
        → has_group (then_with incs inc) pg ≡ true
        → group_history (then_with incs inc) pg
        ≡ option_map (λ made. begun (code_of made.kind) inc.epoch (pool_membership (then_with incs inc) pg made)) (pool (then_with incs inc) pg.pool) }
{}

/// The map that the next incremental makes has each group that was there, so that the group can take it.
pub fn the_next_map_has_the_group()
    ensures { (log : List Entry) (pg : PgId) (inc : Incremental) (group : Group) (map : OsdMap) → IsGroupOf log pg group
        → are_checked (then_with (incs_of log) inc) ≡ true → IsMapOf (then_with (incs_of log) inc) map
        → IsThere group map }
{
    checked_lists_grow_by_incrementals_without_fault();
    pools_of_checked_lists();
}

/// The last epoch in which a group is known to have begun to serve never falls.
#[tactic(auto, using(crate::proofs::LaterLemmas::later_laws))]
pub fn serving_is_never_forgotten()
    ensures { (log later : List Entry) (pg : PgId) (g after : GroupLog) → group_in log pg ≡ Some g
        → group_in (log ++ later) pg ≡ Some after → les g ≤ les after }
{}
