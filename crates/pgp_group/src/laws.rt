//! What the definitions say of small logs.
#![tactic(auto, unfolding(crate::specs::Worked::views_computed))]

pub mod causes;
pub mod growth;
pub mod interleaving;
pub mod later;
pub mod reckoning;
pub mod serving_again;
pub mod touched;

ghost use Rattle.std.specs.Prelude.{ℕ, ◌+◌, ◌-◌, ◌<◌, length, slice_get, ◌≡◌, ◌↔◌, List, [], ◌∷◌, ◌++◌, Some, None, is_some, true, false, option_map, codes, Contains};
ghost use Rattle.pgp_ids.specs.declared.entry.Entry.{Entry};
ghost use Rattle.pgp_ids.specs.declared.pg_id.PgId.{PgId};
ghost use Rattle.pgp_ids.specs.declared.peer.PeerState.TheVariants.{Missing, Backfill, Diverged};
ghost use Rattle.pgp_ids.specs.declared.report.Info.{Info};
ghost use Rattle.pgp_ids.specs.declared.verdict.Verdict.{Verdict};
ghost use Rattle.pgp_ids.specs.declared.verdict.Verdict.TheVariants as the;
ghost use Rattle.pgp_info.specs.Best.{HasDistinctMembers, candidates, IsBest};
ghost use Rattle.pgp_ids.specs.declared.incremental.Incremental.{Incremental};
ghost use Rattle.pgp_code.specs.declared.any.AnyCode.{AnyCode};
ghost use Rattle.pgp_interval.specs.History.{History};
ghost use Rattle.pgp_map.specs.Map.{epoch};
ghost use Rattle.pgp_sets.specs.Sets.{membership};
ghost use Rattle.pgp_map.specs.Examples.{empty_step};
ghost use Rattle.pgp_sets.specs.Examples.{of_device, of_weight, copies_group, shards_group, stands_on, copies_placed, copies_on_three, shards_on_three, take_down, resize};
ghost use Rattle.pgp_group.specs.GroupHistory.{group_history, state_at_epoch};
ghost use Rattle.pgp_map.specs.Pools.{has_group};
ghost use Rattle.pgp_group.specs.Entries.{incs_of};
ghost use Rattle.pgp_group.specs.GroupLog.{GroupLog};
ghost use Rattle.pgp_group.specs.Heard.{counted_infos, heard, IsLastOfMember};
ghost use Rattle.std.specs.Ordering.{on};
ghost use Rattle.pgp_ids.specs.Member.{is_before};
ghost use Rattle.pgp_ids.specs.declared.peer.PeerMissing.{PeerMissing};
ghost use Rattle.pgp_lists.specs.Ordered.{IsAscending};
ghost use Rattle.pgp_group.specs.Peering.{best, leader, is_peer, peers, peer_states};
ghost use Rattle.pgp_group.specs.Prefers.{prefers};
ghost use Rattle.pgp_group.specs.Verdict.{verdict, IsFirstCause};
ghost use Rattle.pgp_group.specs.View.{scratch};
ghost use Rattle.pgp_group.specs.Examples.{in_slot, at, on_three, shards_on, known_up, give_up, was, maps, two_shards_down, copy, copy_up_to, shard, infos_sent, modify, delete, entries_of_first, lacks, peer, three_writes, with_entries, before_serving, until_serving, verdict_in, blocked_in, best_in, missing_in, intervals_in, first_in, heard_in, told_before, primary_incomplete, differ_in_one_write, shard_back, heard_since};

/// The verdict is the first whose cause holds, and the only one that is.
#[tactic(auto, using(crate::proofs::PartLemmas::verdict_laws))]
pub fn verdict_is_the_first_that_holds()
    ensures first { (g : GroupLog) → IsFirstCause g (verdict g) }
    ensures only { (g : GroupLog) (other : Verdict) → IsFirstCause g other → verdict g ≡ other }
{}

/// The members that were heard are distinct, and the info of each is its last one that counts.
#[tactic(auto, using(crate::proofs::HeardLemmas::heard_laws))]
pub fn each_heard_info_is_the_last_of_its_member()
    ensures distinct { (g : GroupLog) → HasDistinctMembers (heard g) }
    ensures last { (g : GroupLog) (info : Info)
        → Contains (heard g) info ↔ IsLastOfMember (counted_infos g) info }
{}

/// The best info is the one candidate to which no other is preferred, and there is one wherever there is a candidate.
pub fn best_info_of_a_group()
    ensures best { (g : GroupLog) (info : Info)
        → (best g ≡ Some info) ↔ IsBest (prefers g.history.code (leader g)) (heard g) info }
    ensures none { (g : GroupLog) → (best g ≡ None) ↔ (candidates (heard g) ≡ []) }
{}

/// The history of a group has a state for each epoch from the one that made its pool to the one before the last, that of
/// the map of the epoch, and ends with the membership of the last map.
#[tactic(auto, using(crate::proofs::HistoryLemmas::history_laws))]
pub fn history_has_each_epoch()
    ensures length { (incs : List Incremental) (pg : PgId) (h : History AnyCode)
        → group_history incs pg ≡ Some h → length h.lived ≡ epoch incs - h.first }
    ensures each { (incs : List Incremental) (pg : PgId) (h : History AnyCode) → group_history incs pg ≡ Some h
        → (k : ℕ) → h.first + k < epoch incs → slice_get h.lived k ≡ state_at_epoch incs pg (h.first + k) }
    ensures last { (incs : List Incremental) (pg : PgId) (h : History AnyCode)
        → group_history incs pg ≡ Some h → membership incs pg ≡ Some h.current }
{}

/// The peers are just the members of up and acting that were heard, except for that of the best info, and their states are in
/// ascending order of the members.
pub fn each_other_heard_member_is_a_peer()
    ensures peers { (g : GroupLog) (best info : Info)
        → Contains (peers g best) info ↔ (Contains (heard g) info × (is_peer g best info.member ≡ true)) }
    ensures ascend { (g : GroupLog)
        → IsAscending (on (λ (p : PeerMissing). p.member) is_before) (peer_states g) }
{}

/// A log has a view of a group exactly where its last map has the group.
#[tactic(auto, using(crate::proofs::ViewLemmas::scratch_there))]
pub fn view_is_there_where_the_group_is()
    ensures { (log : List Entry) (pg : PgId) → is_some (scratch log pg) ≡ has_group (incs_of log) pg }
{}

/// The map of an interval's last epoch says whether its primary was known to be up.
pub fn known_up_by_the_last_map()
    ensures by_then { intervals_in (maps (copies_on_three ∷ known_up 2 0 1 ∷ take_down 3 (1 ∷ []) ∷ [])) copies_group
        ≡ Some (was 1 2 (on_three 2) true ∷ []) }
    ensures too_late { let down = record (take_down 3 (1 ∷ [])) { up_thru = of_device 0 1 ∷ [] } in
        intervals_in (maps (copies_on_three ∷ empty_step 2 ∷ down ∷ [])) copies_group ≡ Some (was 1 2 (on_three 2) false ∷ []) }
{}

/// An interval that an incremental ends goes on through the epochs that this passes over.
pub fn epochs_that_are_passed_over()
    ensures past { intervals_in (maps (copies_on_three ∷ known_up 2 0 1 ∷ record (take_down 6 (1 ∷ [])) { after = 2 } ∷ [])) copies_group
        ≡ Some (was 1 5 (on_three 2) true ∷ []) }
    ensures first { first_in (maps (copies_on_three ∷ known_up 2 0 1 ∷ record (take_down 6 (1 ∷ [])) { after = 2 } ∷ [])) copies_group
        ≡ Some 6 }
{}

/// New sizes open an interval, though the devices stay, and up_thru has to reach its first epoch.
pub fn new_sizes_open_an_interval()
    ensures past { intervals_in (maps (copies_on_three ∷ resize 2 3 1 ∷ [])) copies_group
        ≡ Some (was 1 1 (on_three 2) false ∷ []) }
    ensures first { first_in (maps (copies_on_three ∷ resize 2 3 1 ∷ [])) copies_group ≡ Some 2 }
    ensures not_known_up { intervals_in (maps (copies_on_three ∷ resize 2 3 1 ∷ known_up 3 0 1 ∷ take_down 4 (1 ∷ []) ∷ [])) copies_group
        ≡ Some (was 1 1 (on_three 2) false ∷ was 2 3 (on_three 1) false ∷ []) }
    ensures known_up { intervals_in (maps (copies_on_three ∷ resize 2 3 1 ∷ known_up 3 0 2 ∷ take_down 4 (1 ∷ []) ∷ [])) copies_group
        ≡ Some (was 1 1 (on_three 2) false ∷ was 2 3 (on_three 1) true ∷ []) }
{}

/// Where pg_temp names no device that is up, nothing changes, and the interval goes on.
pub fn pg_temp_that_changes_nothing()
    ensures past { let others = record (take_down 2 (1 ∷ 2 ∷ [])) { temp = stands_on copies_group (Some 1 ∷ Some 2 ∷ []) } in
        intervals_in (maps (copies_placed ∷ others ∷ [])) copies_group ≡ Some [] }
    ensures first { let others = record (take_down 2 (1 ∷ 2 ∷ [])) { temp = stands_on copies_group (Some 1 ∷ Some 2 ∷ []) } in
        first_in (maps (copies_placed ∷ others ∷ [])) copies_group ≡ Some 1 }
{}

/// New weights move the group's placement and so open an interval.
pub fn new_weights_open_an_interval()
    ensures { let others = record (empty_step 2) { weight = of_weight 0 0 ∷ of_weight 1 0x10000 ∷ [] } in
        intervals_in (maps (copies_on_three ∷ others ∷ [])) copies_group ≡ Some (was 1 1 (on_three 2) false ∷ []) }
{}

/// A group of which nobody was heard waits for the members of acting.
pub fn nobody_was_heard()
    ensures without_temp { verdict_in (maps (copies_placed ∷ [])) copies_group ≡ Some the.Waiting }
    ensures view { scratch (maps (copies_on_three ∷ [])) copies_group ≡ Some (record {
      count = 1;
      epoch = 1;
      up = Some 0 ∷ [];
      up_primary = Some 0;
      acting = Some 0 ∷ Some 1 ∷ Some 2 ∷ [];
      acting_primary = Some 0;
      first = 1;
      intervals = [];
      les = 0;
      probe = in_slot 0 0 ∷ in_slot 1 0 ∷ in_slot 2 0 ∷ [];
      blocked_by = [];
      verdict = the.Waiting;
      best = None;
      missing = [];
    }) }
{}

/// The log tells nothing of a group that its last map doesn't have.
pub fn no_such_group()
    ensures number { scratch (maps (copies_on_three ∷ [])) (record copies_group { pg = 1 }) ≡ None }
    ensures pool { scratch (maps (copies_on_three ∷ [])) shards_group ≡ None }
    ensures empty { scratch [] copies_group ≡ None }
{}

/// Of an erasure group with all its devices down nobody leads.
pub fn nobody_leads()
    ensures verdict { verdict_in (maps (shards_on_three ∷ take_down 2 (0 ∷ 1 ∷ 2 ∷ []) ∷ [])) shards_group ≡ Some the.NoPrimary }
    ensures intervals { intervals_in (maps (shards_on_three ∷ take_down 2 (0 ∷ 1 ∷ 2 ∷ []) ∷ [])) shards_group
        ≡ Some (was 1 1 (shards_on 0 1 2) false ∷ []) }
    ensures blocked_by { blocked_in (maps (shards_on_three ∷ take_down 2 (0 ∷ 1 ∷ 2 ∷ []) ∷ [])) shards_group ≡ Some [] }
{}

/// One shard of two that are needed is at hand: the group is down, and waits for those that may come back.
pub fn shards_went_down()
    ensures { scratch (maps two_shards_down) shards_group ≡ Some (record {
      count = 3;
      epoch = 3;
      up = None ∷ None ∷ None ∷ [];
      up_primary = None;
      acting = Some 0 ∷ Some 3 ∷ Some 4 ∷ [];
      acting_primary = Some 0;
      first = 3;
      intervals = was 1 2 (shards_on 0 1 2) true ∷ [];
      les = 0;
      probe = in_slot 0 0 ∷ in_slot 3 1 ∷ in_slot 4 2 ∷ [];
      blocked_by = 1 ∷ 2 ∷ [];
      verdict = the.Down;
      best = None;
      missing = [];
    }) }
{}

/// A shard that is given up for lost after the interval began isn't waited for. One that was lost before it is, and one
/// that is destroyed no longer counts.
pub fn shards_given_up()
    ensures lost { blocked_in (maps (two_shards_down ++ give_up 4 1 2 ∷ [])) shards_group ≡ Some [] }
    ensures then_waiting { verdict_in (maps (two_shards_down ++ give_up 4 1 2 ∷ [])) shards_group ≡ Some the.Waiting }
    ensures lost_before { blocked_in (maps (two_shards_down ++ give_up 4 1 1 ∷ [])) shards_group ≡ Some (1 ∷ 2 ∷ []) }
    ensures still_down { verdict_in (maps (two_shards_down ++ give_up 4 1 1 ∷ [])) shards_group ≡ Some the.Down }
    ensures destroyed { let gone = record (empty_step 5) { gone = 1 ∷ [] } in
        blocked_in (maps (two_shards_down ++ give_up 4 1 2 ∷ gone ∷ [])) shards_group ≡ Some (2 ∷ []) }
    ensures down_again { let gone = record (empty_step 5) { gone = 1 ∷ [] } in
        verdict_in (maps (two_shards_down ++ give_up 4 1 2 ∷ gone ∷ [])) shards_group ≡ Some the.Down }
    ensures taken_back { blocked_in (maps (two_shards_down ++ give_up 4 1 2 ∷ give_up 5 1 1 ∷ [])) shards_group
        ≡ Some (1 ∷ 2 ∷ []) }
{}

/// A shard that comes back up has to be heard too, and counts with an info that it sent since.
pub fn shard_comes_back()
    ensures blocked_by { blocked_in shard_back shards_group ≡ Some [] }
    ensures probe { option_map (λ view. view.probe) (scratch shard_back shards_group)
        ≡ Some (in_slot 0 0 ∷ in_slot 1 1 ∷ in_slot 3 1 ∷ in_slot 4 2 ∷ []) }
    ensures first { first_in shard_back shards_group ≡ Some 3 }
    ensures sent_before { verdict_in (shard_back
        ++ infos_sent (shard 0 0 3 ∷ shard 1 1 3 ∷ shard 3 1 3 ∷ shard 4 2 3 ∷ [])) shards_group ≡ Some the.Waiting }
    ensures sent_since { verdict_in heard_since shards_group ≡ Some the.NeedUpThru }
    ensures best { best_in heard_since shards_group ≡ Some (Some (in_slot 0 0)) }
    ensures missing { missing_in heard_since shards_group
        ≡ Some (peer (in_slot 3 1) (Missing []) ∷ peer (in_slot 4 2) (Missing []) ∷ []) }
{}

/// An info that was sent before the current interval isn't heard; one of its first epoch is.
pub fn infos_of_an_earlier_interval()
    ensures before { heard_in told_before copies_group ≡ Some [] }
    ensures then_waiting { verdict_in told_before copies_group ≡ Some the.Waiting }
    ensures since { heard_in (told_before ++ infos_sent (copy 0 2 ∷ [])) copies_group ≡ Some (copy 0 2 ∷ []) }
{}

/// Of equal copies that of the acting primary is the best.
pub fn equal_copies()
    ensures best { best_in (maps (copies_on_three ∷ []) ++ infos_sent (copy 0 1 ∷ copy 1 1 ∷ copy 2 1 ∷ [])) copies_group
        ≡ Some (Some (in_slot 0 0)) }
    ensures missing { missing_in (maps (copies_on_three ∷ []) ++ infos_sent (copy 0 1 ∷ copy 1 1 ∷ copy 2 1 ∷ [])) copies_group
        ≡ Some (peer (in_slot 1 0) (Missing []) ∷ peer (in_slot 2 0) (Missing []) ∷ []) }
{}

/// Where the acting primary's copy isn't complete, another one is the best, and the primary has to go through it all.
pub fn incomplete_primary()
    ensures best { best_in primary_incomplete copies_group ≡ Some (Some (in_slot 1 0)) }
    ensures missing { missing_in primary_incomplete copies_group
        ≡ Some (peer (in_slot 0 0) Backfill ∷ peer (in_slot 2 0) (Missing []) ∷ []) }
    ensures verdict { verdict_in primary_incomplete copies_group ≡ Some the.NeedUpThru }
    ensures told_again { best_in (primary_incomplete ++ infos_sent (copy 0 1 ∷ [])) copies_group ≡ Some (Some (in_slot 0 0)) }
{}

/// A group of shards follows the one that lacks the last write, and those that have it diverged.
pub fn shards_that_differ_in_one_write()
    ensures best { best_in differ_in_one_write shards_group ≡ Some (Some (in_slot 1 1)) }
    ensures missing { missing_in differ_in_one_write shards_group
        ≡ Some (peer (in_slot 0 0) Diverged ∷ peer (in_slot 2 2) Diverged ∷ []) }
    ensures verdict { verdict_in differ_in_one_write shards_group ≡ Some the.NeedUpThru }
{}

/// A group whose members were all heard serves once the map says that its primary was up in this interval.
pub fn group_that_serves()
    ensures before { verdict_in before_serving copies_group ≡ Some the.NeedUpThru }
    ensures count_before { option_map (λ view. view.count) (scratch before_serving copies_group) ≡ Some 5 }
    ensures epoch_before { option_map (λ view. view.epoch) (scratch before_serving copies_group) ≡ Some 1 }
    ensures serves { scratch until_serving copies_group ≡ Some (record {
      count = 6;
      epoch = 2;
      up = Some 0 ∷ [];
      up_primary = Some 0;
      acting = Some 0 ∷ Some 1 ∷ Some 2 ∷ [];
      acting_primary = Some 0;
      first = 1;
      intervals = [];
      les = 0;
      probe = in_slot 0 0 ∷ in_slot 1 0 ∷ in_slot 2 0 ∷ [];
      blocked_by = [];
      verdict = the.Serve;
      best = Some (in_slot 0 0);
      missing =
          peer (in_slot 1 0) (Missing (lacks (codes "b") 2 ∷ []))
          ∷ peer (in_slot 2 0) (Missing (lacks (codes "a") 1 ∷ lacks (codes "b") 2 ∷ []))
          ∷ [];
    }) }
{}

/// Log entries may come in any order, and of two with one number the last counts.
pub fn entries_reported_again()
    ensures missing { let entries = modify 3 (codes "c") ∷ modify 1 (codes "a") ∷ modify 2 (codes "x") ∷ modify 2 (codes "b") ∷ [] in
        missing_in (with_entries entries) copies_group
        ≡ Some (peer (in_slot 1 0) (Missing (lacks (codes "a") 1 ∷ lacks (codes "b") 2 ∷ lacks (codes "c") 3 ∷ []))
        ∷ peer (in_slot 2 0) (Missing (lacks (codes "a") 1 ∷ lacks (codes "b") 2 ∷ lacks (codes "c") 3 ∷ [])) ∷ []) }
{}

/// With a log that lacks a number nothing is known of the peers, and the group needs the log.
pub fn log_that_lacks_a_number()
    ensures missing { let entries = modify 3 (codes "c") ∷ modify 1 (codes "a") ∷ [] in
        missing_in (with_entries entries) copies_group ≡ Some [] }
    ensures verdict { let entries = modify 3 (codes "c") ∷ modify 1 (codes "a") ∷ [] in
        verdict_in (with_entries entries) copies_group ≡ Some the.NeedLog }
{}

/// A peer from before the best copy's log has to go through everything, and one with a write that the log doesn't have
/// diverged.
pub fn peers_off_the_log()
    ensures before_it { let first = record (copy_up_to 0 (at 1 3)) { log_tail = at 1 1 } in
        missing_in (maps (copies_on_three ∷ []) ++ infos_sent (first ∷ copy 1 1 ∷ copy 2 1 ∷ [])
        ++ entries_of_first three_writes ∷ []) copies_group
        ≡ Some (peer (in_slot 1 0) Backfill ∷ peer (in_slot 2 0) Backfill ∷ []) }
    ensures beyond_it { let first = record (copy_up_to 0 (at 1 3)) { les = 1 } in
        missing_in (maps (copies_on_three ∷ []) ++ infos_sent (first ∷ copy_up_to 1 (at 1 4) ∷ copy 2 1 ∷ [])
        ++ entries_of_first three_writes ∷ []) copies_group
        ≡ Some (peer (in_slot 1 0) Diverged
        ∷ peer (in_slot 2 0) (Missing (lacks (codes "a") 1 ∷ lacks (codes "b") 2 ∷ lacks (codes "c") 3 ∷ [])) ∷ []) }
{}

/// An object that was deleted last isn't missing, and one that was written again is, at its last version.
pub fn deleted_and_written_again()
    ensures deleted { let entries = modify 1 (codes "a") ∷ modify 2 (codes "b") ∷ delete 3 (codes "a") ∷ [] in
        missing_in (with_entries entries) copies_group
        ≡ Some (peer (in_slot 1 0) (Missing (lacks (codes "b") 2 ∷ []))
        ∷ peer (in_slot 2 0) (Missing (lacks (codes "b") 2 ∷ [])) ∷ []) }
    ensures written_again { let entries = modify 1 (codes "a") ∷ modify 2 (codes "b") ∷ modify 3 (codes "a") ∷ [] in
        missing_in (with_entries entries) copies_group
        ≡ Some (peer (in_slot 1 0) (Missing (lacks (codes "a") 3 ∷ lacks (codes "b") 2 ∷ []))
        ∷ peer (in_slot 2 0) (Missing (lacks (codes "a") 3 ∷ lacks (codes "b") 2 ∷ [])) ∷ []) }
{}
