//! What the definitions say of small logs, one for each cause by which a group may not serve yet and for each report that
//! plays no part.

ghost use Rattle.std.specs.Prelude.{◌≡◌, [], ◌∷◌, ◌++◌, Some, None, true, false, option_map};
ghost use Rattle.pgp_code.specs.AnyCode.{enough_of, is_by_place};
ghost use Rattle.pgp_code.specs.Pool.{code_of};
ghost use Rattle.pgp_ids.specs.declared.entry.Entry.TheVariants as entry;
ghost use Rattle.pgp_ids.specs.declared.peer.PeerState.TheVariants.{Missing};
ghost use Rattle.pgp_ids.specs.declared.pool.PoolKind.TheVariants.{Replicated};
ghost use Rattle.pgp_ids.specs.declared.verdict.Verdict.TheVariants as the;
ghost use Rattle.pgp_interval.specs.History.{begun, stepped};
ghost use Rattle.pgp_interval.specs.Runs.{past_intervals};
ghost use Rattle.pgp_map.specs.Examples.{empty_step};
ghost use Rattle.pgp_sets.specs.Examples.{copies_group, shards_group, stands_on, copies_placed, copies_on_three, shards_on_three, take_down, resize, lies_on};
ghost use Rattle.pgp_group.specs.GroupLog.{group_in};
ghost use Rattle.pgp_group.specs.Heard.{les, heard};
ghost use Rattle.pgp_group.specs.Peering.{past};
ghost use Rattle.pgp_group.specs.Examples.{in_slot, at, on_three, known_up, give_up, was, maps, unrecorded, two_shards_down, two_parts_on_three, second_part_down, copy, copy_up_to, shard, infos_sent, entries_report, entries_of_first, three_writes, peer, verdict_in, blocked_in, best_in, missing_in, intervals_in, first_in, heard_in};

/// A group is short of members where acting has fewer than min_size, or where their slots aren't enough for the code.
pub fn short_groups()
    ensures of_members { verdict_in (maps (copies_placed ∷ []) ++ infos_sent (copy 0 1 ∷ [])) copies_group ≡ Some the.Short }
    ensures of_slots { let alone = record (take_down 2 (1 ∷ 2 ∷ [])) { sizes = record { pool = 2; size = 3; min_size = 1 } ∷ [] } in
        verdict_in (maps (shards_on_three ∷ alone ∷ []) ++ infos_sent (shard 0 0 2 ∷ [])) shards_group ≡ Some the.Short }
{}

/// Where no copy that was heard is complete, there is none to follow.
pub fn no_complete_copy()
    ensures verdict { verdict_in (maps (copies_placed ∷ [])
        ++ infos_sent (record (copy 0 1) { complete = false } ∷ [])) copies_group ≡ Some the.Incomplete }
    ensures best { best_in (maps (copies_placed ∷ []) ++ infos_sent (record (copy 0 1) { complete = false } ∷ [])) copies_group
        ≡ Some None }
{}

/// When a group last began to serve is told by any info, also by one that isn't counted. A past interval that ended before
/// plays no part, and one that ended then does.
pub fn when_a_group_last_began_to_serve()
    ensures counted { option_map les (group_in (maps (copies_on_three ∷ [])
        ++ infos_sent (record (copy 0 1) { history_les = 1 } ∷ [])) copies_group) ≡ Some 1 }
    ensures not_counted { option_map les (group_in (maps (copies_on_three ∷ resize 2 3 1 ∷ [])
        ++ infos_sent (record (copy 0 1) { history_les = 1 } ∷ [])) copies_group) ≡ Some 1 }
    ensures not_heard { heard_in (maps (copies_on_three ∷ resize 2 3 1 ∷ [])
        ++ infos_sent (record (copy 0 1) { history_les = 1 } ∷ [])) copies_group ≡ Some [] }
    ensures ended_before { blocked_in (maps two_shards_down
        ++ infos_sent (record (shard 0 0 3) { history_les = 3 } ∷ [])) shards_group ≡ Some [] }
    ensures ended_then { blocked_in (maps two_shards_down
        ++ infos_sent (record (shard 0 0 3) { history_les = 2 } ∷ [])) shards_group ≡ Some (1 ∷ 2 ∷ []) }
{}

/// A device that goes down isn't heard any more, though the interval goes on.
pub fn heard_device_goes_down()
    ensures before { heard_in (maps (copies_placed ∷ []) ++ infos_sent (copy 0 1 ∷ copy 2 1 ∷ [])) copies_group
        ≡ Some (copy 0 1 ∷ copy 2 1 ∷ []) }
    ensures after { heard_in (maps (copies_placed ∷ []) ++ infos_sent (copy 0 1 ∷ copy 2 1 ∷ [])
        ++ entry.Inc (take_down 2 (2 ∷ [])) ∷ []) copies_group ≡ Some (copy 0 1 ∷ []) }
{}

/// The log of the best member is made of what this member itself reported, in reports that count.
pub fn entries_that_play_no_part()
    ensures of_another_member { verdict_in (maps (copies_on_three ∷ [])
        ++ infos_sent (copy_up_to 0 (at 1 3) ∷ copy 1 1 ∷ copy 2 1 ∷ [])
        ++ entries_report copies_group (in_slot 1 0) three_writes ∷ []) copies_group ≡ Some the.NeedLog }
    ensures not_counted { let first = record (copy 0 2) { last_update = at 1 3 } in
        verdict_in (maps (copies_on_three ∷ resize 2 3 1 ∷ []) ++ infos_sent (first ∷ copy 1 2 ∷ copy 2 2 ∷ [])
        ++ entries_of_first three_writes ∷ []) copies_group ≡ Some the.NeedLog }
{}

/// Of equal shards that of the acting primary in its place is the best, and not another one of its device.
pub fn primary_in_its_place()
    ensures there { let placed = record shards_on_three { temp = stands_on shards_group (Some 5 ∷ Some 1 ∷ Some 2 ∷ []) } in
        best_in (maps (placed ∷ []) ++ infos_sent (shard 1 1 1 ∷ shard 5 0 1 ∷ [])) shards_group ≡ Some (Some (in_slot 5 0)) }
    ensures elsewhere { let placed = record shards_on_three { temp = stands_on shards_group (Some 5 ∷ Some 1 ∷ Some 2 ∷ []) } in
        best_in (maps (placed ∷ []) ++ infos_sent (shard 1 1 1 ∷ shard 5 2 1 ∷ [])) shards_group ≡ Some (Some (in_slot 1 1)) }
{}

/// A member of up that doesn't serve is a peer too.
pub fn peer_of_up()
    ensures { let placed = record copies_placed { temp = stands_on copies_group (Some 1 ∷ Some 2 ∷ []) } in
        missing_in (maps (placed ∷ []) ++ infos_sent (copy 0 1 ∷ copy 1 1 ∷ copy 2 1 ∷ [])) copies_group
        ≡ Some (peer (in_slot 0 0) (Missing []) ∷ peer (in_slot 2 0) (Missing []) ∷ []) }
{}

/// Reports of another group play no part.
pub fn reports_of_another_group()
    ensures heard { let other = record (copy 0 1) { pg = record copies_group { pg = 1 }; history_les = 1 } in
        heard_in (maps (copies_on_three ∷ []) ++ infos_sent (other ∷ [])) copies_group ≡ Some [] }
    ensures les { let other = record (copy 0 1) { pg = record copies_group { pg = 1 }; history_les = 1 } in
        option_map les (group_in (maps (copies_on_three ∷ []) ++ infos_sent (other ∷ [])) copies_group) ≡ Some 0 }
    ensures entries { verdict_in (maps (copies_on_three ∷ []) ++ infos_sent (copy_up_to 0 (at 1 3) ∷ copy 1 1 ∷ copy 2 1 ∷ [])
        ++ entries_report (record copies_group { pg = 1 }) (in_slot 0 0) three_writes ∷ []) copies_group ≡ Some the.NeedLog }
{}

/// A later info that doesn't count leaves an earlier one of its member standing.
pub fn later_info_that_does_not_count()
    ensures { let late = record (copy 0 1) { complete = false } in
        heard_in (maps (copies_on_three ∷ resize 2 3 1 ∷ []) ++ infos_sent (copy 0 2 ∷ late ∷ [])) copies_group
        ≡ Some (copy 0 2 ∷ []) }
{}

/// An info of an interval that is over doesn't count again where the group comes back to the membership of that interval.
pub fn membership_that_comes_back()
    ensures first { first_in (maps (copies_on_three ∷ resize 2 3 1 ∷ resize 3 3 2 ∷ [])
        ++ infos_sent (copy 0 1 ∷ [])) copies_group ≡ Some 3 }
    ensures heard { heard_in (maps (copies_on_three ∷ resize 2 3 1 ∷ resize 3 3 2 ∷ [])
        ++ infos_sent (copy 0 1 ∷ [])) copies_group ≡ Some [] }
{}

/// A group of two parts is down where the devices of one went down, though the other part has its slot. It waits for each of
/// them that is down; one that is given up for lost counts as if it were at hand, and so a part that has only that one is
/// enough.
pub fn part_that_went_down()
    ensures down { verdict_in (maps second_part_down ++ infos_sent (shard 0 0 3 ∷ [])) shards_group ≡ Some the.Down }
    ensures blocked_by { blocked_in (maps second_part_down ++ infos_sent (shard 0 0 3 ∷ [])) shards_group ≡ Some (1 ∷ 2 ∷ []) }
    ensures other_part_lost { blocked_in (maps (second_part_down ++ give_up 4 1 4 ∷ [])
        ++ infos_sent (shard 0 0 4 ∷ [])) shards_group ≡ Some (2 ∷ []) }
    ensures part_lost { blocked_in (maps (second_part_down ++ give_up 4 2 4 ∷ []) ++ infos_sent (shard 0 0 4 ∷ [])) shards_group
        ≡ Some [] }
    ensures waits { verdict_in (maps (second_part_down ++ give_up 4 2 4 ∷ []) ++ infos_sent (shard 0 0 4 ∷ [])) shards_group
        ≡ Some the.Waiting }
{}

/// A group of two parts serves where each has its slots.
pub fn parts_that_serve()
    ensures { verdict_in (maps (two_parts_on_three ∷ []) ++ infos_sent (shard 0 0 1 ∷ shard 1 1 1 ∷ shard 2 2 1 ∷ [])
        ++ entry.Inc (known_up 2 0 1) ∷ []) shards_group ≡ Some the.Serve }
{}

/// An interval in which acting had fewer than min_size members was none of writes, though its primary was known to be up.
pub fn too_few_to_go_read_write()
    ensures { intervals_in (maps (copies_placed ∷ known_up 2 0 1 ∷ resize 3 3 1 ∷ [])) copies_group
        ≡ Some (was 1 2 (lies_on 3 2 (Some 0 ∷ []) (Some 0 ∷ [])) false ∷ []) }
{}

/// A report raises the flag of a past interval in which it says that the group was clean, whether the report counts or not,
/// and whenever it came. An epoch of another interval, and 0, say nothing of it.
pub fn report_of_an_interval_that_was_clean()
    ensures past { intervals_in (maps unrecorded ++ infos_sent (record (copy 0 3) { last_epoch_clean = 2 } ∷ [])) copies_group
        ≡ Some (was 1 2 (on_three 2) true ∷ []) }
    ensures not_counted { intervals_in (maps unrecorded
        ++ infos_sent (record (copy 1 2) { last_epoch_clean = 1 } ∷ [])) copies_group ≡ Some (was 1 2 (on_three 2) true ∷ []) }
    ensures before_it_ended { intervals_in (maps (copies_on_three ∷ empty_step 2 ∷ [])
        ++ infos_sent (record (copy 0 2) { last_epoch_clean = 2 } ∷ []) ++ entry.Inc (take_down 3 (1 ∷ [])) ∷ []) copies_group
        ≡ Some (was 1 2 (on_three 2) true ∷ []) }
    ensures current { intervals_in (maps unrecorded ++ infos_sent (record (copy 0 3) { last_epoch_clean = 3 } ∷ [])) copies_group
        ≡ Some (was 1 2 (on_three 2) false ∷ []) }
    ensures none { intervals_in (maps unrecorded ++ infos_sent (copy 0 3 ∷ [])) copies_group
        ≡ Some (was 1 2 (on_three 2) false ∷ []) }
{}

/// An interval in which acting had fewer than min_size members no report makes one of writes.
pub fn report_that_too_few_were_clean()
    ensures { let log = maps (copies_placed ∷ resize 2 3 1 ∷ []) ++ infos_sent (record (copy 0 2) { last_epoch_clean = 1 } ∷ []) in
        option_map past (group_in log copies_group) ≡ Some (was 1 1 (lies_on 3 2 (Some 0 ∷ []) (Some 0 ∷ [])) false ∷ []) }
{}

/// A primary that booted after the interval opened wasn't up all through it. In a log it would open an interval; a trace may
/// tell so.
pub fn primary_that_booted_later()
    ensures later { let opening = begun (code_of Replicated) 1 (on_three 2) in
        past_intervals enough_of is_by_place [] (stepped opening (on_three 1) (record { up_from = 2; up_thru = 2 }))
        ≡ was 1 1 (on_three 2) false ∷ [] }
    ensures before { let opening = begun (code_of Replicated) 1 (on_three 2) in
        past_intervals enough_of is_by_place [] (stepped opening (on_three 1) (record { up_from = 1; up_thru = 2 }))
        ≡ was 1 1 (on_three 2) true ∷ [] }
{}
