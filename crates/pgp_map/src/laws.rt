//! What the definitions say of small lists of incrementals.

ghost use Rattle.std.specs.Prelude.{◌≡◌, ◌≤◌, ℕ, List, [], ◌∷◌, ◌++◌, Option, Some, None, true, false, map, option_map};
ghost use Rattle.pgp_crush.specs.Bucket.{bucket_of};
ghost use Rattle.pgp_crush.specs.TreeFault.{tree_fault};
ghost use Rattle.pgp_crush.specs.declared.fault.TreeFault.{TreeFault as Fault};
ghost use Rattle.pgp_ids.specs.declared.bucket.BucketSpec.{BucketSpec as Spec};
ghost use Rattle.pgp_map.specs.declared.fault.MapFault.TheVariants.{EpochGap, Twice, UnknownDevice, AlreadyUp, AlreadyDown, StillUp, UpThruBack, Ahead, BadPool, PoolKnown, BadTemp, TreeFault};
ghost use Rattle.pgp_map.specs.Devices.{exists, is_up, up_from, down_at, up_thru, lost_at, weight};
ghost use Rattle.pgp_map.specs.Map.{epoch, up_to, tree};
ghost use Rattle.pgp_ids.specs.Parts.{are_parts};
ghost use Rattle.pgp_ids.specs.Pool.{is_kind_by_place};
ghost use Rattle.pgp_ids.specs.declared.incremental.Incremental.{Incremental};
ghost use Rattle.pgp_ids.specs.declared.pg_id.PgId.{PgId};
ghost use Rattle.pgp_ids.specs.declared.part.Part.{Part};
ghost use Rattle.pgp_ids.specs.declared.pool.PoolKind.TheVariants.{Erasure, Grouped};
ghost use Rattle.pgp_ids.specs.declared.pool.PoolSpec.{PoolSpec};
ghost use Rattle.pgp_map.specs.declared.map.OsdMap.{OsdMap};
ghost use Rattle.pgp_map.specs.Checked.{are_checked};
ghost use Rattle.pgp_map.specs.Held.{held_exists, held_up, held_lost_at, held_pool, HasGroup};
ghost use Rattle.pgp_map.specs.MapFault.{map_fault, then_with, is_pool};
ghost use Rattle.pgp_map.specs.MapOf.{IsMapOf};
ghost use Rattle.pgp_map.specs.Pools.{pool, temp, has_group};
ghost use Rattle.pgp_map.specs.Examples.{empty_step, boot, weighs, dated, one_up, one_up_one_down, pool_of_copies, pool_of_shards, shards_of, part_of, grouped, pool_step, large_pools, sized, placed, two_pools, made_again};
ghost use Rattle.std.specs.List.{range_with_len};
ghost use Rattle.std.specs.Option.{option_map_or};

/// An incremental leads from the map's epoch to a later one, and may pass over some. The first one changes the map of epoch 0.
#[tactic(auto, unfolding(crate::specs::MapFault::map_fault))]
pub fn epochs_follow_each_other()
    ensures gap { map_fault [] (empty_step 2) ≡ Some EpochGap }
    ensures first { map_fault [] (empty_step 1) ≡ None }
    ensures again { map_fault one_up (empty_step 1) ≡ Some EpochGap }
    ensures first_of_all { map_fault one_up (boot 3 (0 ∷ 0 ∷ [])) ≡ Some EpochGap }
    ensures passes { map_fault one_up (record (empty_step 4) { after = 1 }) ≡ None }
    ensures of_another_map { map_fault one_up (record (empty_step 4) { after = 0 }) ≡ Some EpochGap }
    ensures stands { map_fault one_up (record (empty_step 1) { after = 1 }) ≡ Some EpochGap }
{}

/// One incremental may boot a device and weigh it; a device that neither is there nor boots can't be weighed.
#[tactic(auto, unfolding(crate::specs::MapFault::map_fault))]
pub fn devices_are_known()
    ensures absent { map_fault [] (record (empty_step 1) { weight = weighs 0 0 }) ≡ Some UnknownDevice }
    ensures booting { map_fault [] (record (boot 1 (0 ∷ [])) { weight = weighs 0 0 }) ≡ None }
    ensures destroyed { map_fault [] (record (empty_step 1) { gone = 0 ∷ [] }) ≡ Some UnknownDevice }
    ensures lost { map_fault [] (record (empty_step 1) { lost = dated 0 0 }) ≡ Some UnknownDevice }
    ensures before_up { map_fault one_up (record (boot 2 (0 ∷ [])) { down = 1 ∷ [] }) ≡ Some UnknownDevice }
{}

/// A device may stand once in up, down and gone together, and once in each other list.
#[tactic(auto, unfolding(crate::specs::MapFault::map_fault))]
pub fn nothing_is_named_twice()
    ensures down_and_gone { map_fault one_up (record (empty_step 2) { down = 0 ∷ []; gone = 0 ∷ [] }) ≡ Some Twice }
    ensures up_and_down { map_fault one_up (record (boot 2 (0 ∷ [])) { down = 0 ∷ [] }) ≡ Some Twice }
    ensures before_unknown { map_fault [] (record (empty_step 1) { down = 7 ∷ 7 ∷ [] }) ≡ Some Twice }
    ensures weights { map_fault one_up (record (empty_step 2) { weight = weighs 0 0 ++ weighs 0 1 }) ≡ Some Twice }
    ensures up_thrus { map_fault one_up (record (empty_step 2) { up_thru = dated 0 1 ++ dated 0 2 }) ≡ Some Twice }
    ensures losses { map_fault one_up (record (empty_step 2) { down = 0 ∷ []; lost = dated 0 1 ++ dated 0 1 }) ≡ Some Twice }
    ensures lists { map_fault two_pools (record (empty_step 2) { temp = placed 1 [] ++ placed 1 (Some 0 ∷ []) }) ≡ Some Twice }
    ensures lists_of_two { map_fault two_pools (record (empty_step 2) { temp = placed 1 [] ++ placed 2 [] }) ≡ None }
    ensures made_and_sized { map_fault [] (record (empty_step 1) { pools = pool_of_copies 1 3 ∷ []; sizes = sized 1 2 1 }) ≡ Some Twice }
{}

/// Which devices can boot, go down, be destroyed and be given up for lost.
#[tactic(auto, unfolding(crate::specs::MapFault::map_fault))]
pub fn devices_that_stand()
    ensures up { map_fault one_up (boot 2 (0 ∷ [])) ≡ Some AlreadyUp }
    ensures down { map_fault (boot 1 (0 ∷ []) ∷ record (empty_step 2) { down = 0 ∷ [] } ∷ []) (record (empty_step 3) { down = 0 ∷ [] }) ≡ Some AlreadyDown }
    ensures destroyed_up { map_fault one_up (record (empty_step 2) { gone = 0 ∷ [] }) ≡ Some StillUp }
    ensures lost_as_it_boots { map_fault [] (record (boot 1 (0 ∷ [])) { lost = dated 0 1 }) ≡ Some StillUp }
    ensures lost_as_it_goes_down { map_fault one_up (record (empty_step 2) { down = 0 ∷ []; lost = dated 0 2 }) ≡ None }
    ensures lost_ahead { map_fault one_up (record (empty_step 2) { down = 0 ∷ []; lost = dated 0 3 }) ≡ Some Ahead }
{}

/// Of several faults the first in their order is told.
#[tactic(auto, unfolding(crate::specs::MapFault::map_fault))]
pub fn faults_come_in_order()
    ensures up_before_down { map_fault one_up_one_down (record (boot 3 (0 ∷ [])) { down = 1 ∷ [] }) ≡ Some AlreadyUp }
    ensures down_before_still_up { map_fault one_up_one_down (record (empty_step 3) { down = 1 ∷ []; gone = 0 ∷ [] }) ≡ Some AlreadyDown }
    ensures still_up_before_back { map_fault one_up_one_down (record (empty_step 3) { gone = 0 ∷ []; up_thru = dated 1 1 }) ≡ Some StillUp }
    ensures back_before_ahead { map_fault one_up_one_down (record (empty_step 3) { up_thru = dated 1 1 ++ dated 0 4 }) ≡ Some UpThruBack }
    ensures ahead_before_bad_pool { map_fault one_up_one_down (record (empty_step 3) { up_thru = dated 0 4; pools = pool_of_copies 1 17 ∷ [] }) ≡ Some Ahead }
{}

/// up_thru never falls, and is never above the incremental's epoch.
#[tactic(auto, unfolding(crate::specs::MapFault::map_fault))]
pub fn up_thru_rises()
    ensures ahead { map_fault one_up (record (empty_step 2) { up_thru = dated 0 3 }) ≡ Some Ahead }
    ensures at_its_epoch { map_fault one_up (record (empty_step 2) { up_thru = dated 0 2 }) ≡ None }
    ensures back { map_fault (boot 1 (0 ∷ []) ∷ record (empty_step 2) { up_thru = dated 0 2 } ∷ []) (record (empty_step 3) { up_thru = dated 0 1 }) ≡ Some UpThruBack }
    ensures again { map_fault (boot 1 (0 ∷ []) ∷ record (empty_step 2) { up_thru = dated 0 2 } ∷ []) (record (empty_step 3) { up_thru = dated 0 2 }) ≡ None }
{}

/// A pool's sizes are 1 to 16 and 1 to the size, those of an erasure pool stay, and a pool is made once.
#[tactic(auto, unfolding(crate::specs::MapFault::map_fault))]
pub fn pools_in_range()
    ensures absent { map_fault one_up (record (empty_step 2) { sizes = sized 1 1 1 }) ≡ Some BadPool }
    ensures too_small { map_fault [] (record (empty_step 1) { pools = pool_of_copies 1 0 ∷ [] }) ≡ Some BadPool }
    ensures too_large { map_fault [] (record (empty_step 1) { pools = pool_of_copies 1 17 ∷ [] }) ≡ Some BadPool }
    ensures largest { map_fault [] (record (empty_step 1) { pools = pool_of_copies 1 16 ∷ [] }) ≡ None }
    ensures erasure { map_fault two_pools (record (empty_step 2) { sizes = sized 2 4 2 }) ≡ Some BadPool }
    ensures min_size_of_erasure { map_fault two_pools (record (empty_step 2) { sizes = sized 2 3 3 }) ≡ None }
    ensures min_size { let pool = pool_of_copies 1 1 in
        map_fault [] (record (empty_step 1) { pools = record pool { min_size = 2 } ∷ [] }) ≡ Some BadPool }
    ensures all_shards { map_fault [] (record (empty_step 1) { pools = shards_of 3 ∷ [] }) ≡ None }
    ensures too_many_shards { map_fault [] (record (empty_step 1) { pools = shards_of 4 ∷ [] }) ≡ Some BadPool }
    ensures no_shards { map_fault [] (record (empty_step 1) { pools = shards_of 0 ∷ [] }) ≡ Some BadPool }
    ensures all_groups { map_fault [] (record (empty_step 1) { pools = large_pools 16 }) ≡ None }
    ensures too_many_groups { map_fault [] (record (empty_step 1) { pools = large_pools 17 }) ≡ Some BadPool }
    ensures groups { let pool = record (pool_of_copies 1 1) { pg_num = 1024 } in
        map_fault [] (record (empty_step 1) { pools = record pool { pg_num = 1025 } ∷ [] }) ≡ Some BadPool }
    ensures known { map_fault two_pools (record (empty_step 2) { pools = pool_of_copies 1 3 ∷ [] }) ≡ Some PoolKnown }
    ensures bad_before_known { map_fault two_pools (record (empty_step 2) { pools = pool_of_copies 1 17 ∷ [] }) ≡ Some BadPool }
    ensures known_before_temp { map_fault two_pools (record (empty_step 2) { pools = pool_of_copies 1 3 ∷ []; temp = placed 9 [] }) ≡ Some PoolKnown }
{}

/// A grouped pool has a part, and each part a slot and a least number of 1 to its number of slots. Its slots are below the
/// size, each once in all of the parts, and a slot may be in no part.
#[tactic(auto, unfolding(crate::specs::MapFault::map_fault))]
pub fn parts_in_range()
    ensures two { map_fault [] (pool_step (grouped 1 (part_of (1 ∷ 0 ∷ []) 1 ∷ part_of (2 ∷ []) 1 ∷ []))) ≡ None }
    ensures slots_in_no_part { map_fault [] (pool_step (grouped 1 (None ∷ part_of (1 ∷ []) 1 ∷ []))) ≡ None }
    ensures all_slots { map_fault [] (pool_step (grouped 1 (part_of (0 ∷ 1 ∷ 2 ∷ []) 3 ∷ []))) ≡ None }
    ensures no_part { map_fault [] (pool_step (grouped 1 [])) ≡ Some BadPool }
    ensures no_slot { map_fault [] (pool_step (grouped 1 (part_of (0 ∷ []) 1 ∷ part_of [] 0 ∷ []))) ≡ Some BadPool }
    ensures slot_at_the_size { map_fault [] (pool_step (grouped 1 (part_of (2 ∷ 3 ∷ []) 1 ∷ []))) ≡ Some BadPool }
    ensures slot_twice_in_a_part { map_fault [] (pool_step (grouped 1 (part_of (0 ∷ 0 ∷ []) 1 ∷ []))) ≡ Some BadPool }
    ensures slot_in_two_parts { map_fault [] (pool_step (grouped 1 (part_of (0 ∷ 1 ∷ []) 1 ∷ part_of (1 ∷ []) 1 ∷ []))) ≡ Some BadPool }
    ensures least_of_0 { map_fault [] (pool_step (grouped 1 (part_of (0 ∷ 1 ∷ []) 0 ∷ []))) ≡ Some BadPool }
    ensures least_above_the_slots { map_fault [] (pool_step (grouped 1 (part_of (0 ∷ 1 ∷ []) 3 ∷ []))) ≡ Some BadPool }
{}

/// A grouped pool keeps its size, and its pg_temp lists have as many places.
#[tactic(auto, unfolding(crate::specs::MapFault::map_fault))]
pub fn grouped_pools_keep_their_size()
    ensures larger { map_fault (pool_step (grouped 1 (part_of (0 ∷ []) 1 ∷ [])) ∷ []) (record (empty_step 2) { sizes = sized 1 4 2 }) ≡ Some BadPool }
    ensures smaller { map_fault (pool_step (grouped 1 (part_of (0 ∷ []) 1 ∷ [])) ∷ []) (record (empty_step 2) { sizes = sized 1 2 2 }) ≡ Some BadPool }
    ensures min_size { map_fault (pool_step (grouped 1 (part_of (0 ∷ []) 1 ∷ [])) ∷ []) (record (empty_step 2) { sizes = sized 1 3 3 }) ≡ None }
    ensures empty_places { map_fault (pool_step (grouped 1 (part_of (0 ∷ []) 1 ∷ [])) ∷ []) (record (empty_step 2) { temp = placed 1 (None ∷ Some 1 ∷ None ∷ []) }) ≡ None }
    ensures too_few_places { map_fault (pool_step (grouped 1 (part_of (0 ∷ []) 1 ∷ [])) ∷ []) (record (empty_step 2) { temp = placed 1 (Some 0 ∷ Some 1 ∷ []) }) ≡ Some BadTemp }
    ensures taken_away { map_fault (pool_step (grouped 1 (part_of (0 ∷ []) 1 ∷ [])) ∷ []) (record (empty_step 2) { temp = placed 1 [] }) ≡ None }
{}

/// A pg_temp list is judged by the pools of the new map.
#[tactic(auto, unfolding(crate::specs::MapFault::map_fault))]
pub fn temp_lists_fit()
    ensures absent { map_fault one_up (record (empty_step 2) { temp = placed 1 (Some 0 ∷ []) }) ≡ Some BadTemp }
    ensures made_with_it { map_fault one_up (record (empty_step 2) { pools = pool_of_copies 1 3 ∷ []; temp = placed 1 (Some 0 ∷ []) }) ≡ None }
    ensures empty_place { map_fault two_pools (record (empty_step 2) { temp = placed 1 (None ∷ []) }) ≡ Some BadTemp }
    ensures shards { map_fault two_pools (record (empty_step 2) { temp = placed 2 (None ∷ Some 1 ∷ None ∷ []) }) ≡ None }
    ensures too_few_shards { map_fault two_pools (record (empty_step 2) { temp = placed 2 (Some 0 ∷ Some 1 ∷ []) }) ≡ Some BadTemp }
    ensures taken_away { map_fault two_pools (record (empty_step 2) { temp = placed 2 [] }) ≡ None }
    ensures repeated { map_fault two_pools (record (empty_step 2) { temp = placed 1 (Some 0 ∷ Some 0 ∷ []) }) ≡ Some BadTemp }
    ensures all_places { map_fault two_pools (record (empty_step 2) { temp = placed 1 (map Some (range_with_len 0 16)) }) ≡ None }
    ensures too_many_places { map_fault two_pools (record (empty_step 2) { temp = placed 1 (map Some (range_with_len 0 17)) }) ≡ Some BadTemp }
    ensures before_tree { map_fault one_up (record (empty_step 2) { temp = placed 1 []; crush = Some [] }) ≡ Some BadTemp }
{}

/// A tree's fault is that of an incremental that gives it and nothing else.
#[tactic(auto, unfolding(crate::specs::MapFault::map_fault, pgp_crush::specs::Worked::placements_computed))]
pub fn trees_are_judged_last()
    ensures no_buckets { map_fault [] (record (empty_step 1) { crush = Some [] }) ≡ Some (TreeFault Fault.NoRoot) }
    ensures any { (buckets : List Spec) → map_fault [] (record (empty_step 1) { crush = Some buckets }) ≡ option_map TreeFault (tree_fault (map bucket_of buckets)) }
{}

/// Weight, up_thru and the epoch of its loss outlive a device that is destroyed and boots again.
pub fn facts_outlive_a_device()
    ensures exists { exists made_again 0 ≡ true }
    ensures up { is_up made_again 0 ≡ true }
    ensures booted { up_from made_again 0 ≡ 5 }
    ensures downed { down_at made_again 0 ≡ 2 }
    ensures weight { weight made_again 0 ≡ 5 }
    ensures up_thru { up_thru made_again 0 ≡ 1 }
    ensures lost { lost_at made_again 0 ≡ 3 }
    ensures other_weight { weight made_again 1 ≡ 65536 }
    ensures epoch { epoch made_again ≡ 5 }
{}

/// The map of an earlier epoch is that of the incrementals up to it, also where it was passed over.
pub fn earlier_maps()
    ensures destroyed { exists (up_to 4 made_again) 0 ≡ false }
    ensures down { is_up (up_to 2 made_again) 0 ≡ false }
    ensures there { exists (up_to 2 made_again) 0 ≡ true }
    ensures booted { up_from (up_to 4 made_again) 0 ≡ 1 }
    ensures epoch { epoch (up_to 3 made_again) ≡ 3 }
    ensures passed_over { up_to 3 (one_up ++ record (boot 4 (1 ∷ [])) { after = 1 } ∷ []) ≡ one_up }
{}

/// A pool has the sizes that it was given last, and a group the list that it was given last.
pub fn pools_and_lists()
    ensures made { pool two_pools 1 ≡ Some (pool_of_copies 1 3) }
    ensures sized { pool (record (boot 1 []) { pools = pool_of_copies 1 3 ∷ [] } ∷ record (empty_step 2) { sizes = sized 1 4 2 } ∷ []) 1 ≡ Some (record (pool_of_copies 1 4) { min_size = 2 }) }
    ensures absent { pool two_pools 3 ≡ None }
    ensures list { temp (record (empty_step 1) { temp = placed 1 (Some 2 ∷ []) } ∷ []) (record { pool = 1; pg = 0 }) ≡ Some 2 ∷ [] }
    ensures taken_away { temp (record (empty_step 1) { temp = placed 1 (Some 2 ∷ []) } ∷ record (empty_step 2) { temp = placed 1 [] } ∷ []) (record { pool = 1; pg = 0 }) ≡ [] }
    ensures no_tree { tree two_pools ≡ None }
{}

/// A list of incrementals that were checked one by one grows by one that has no fault, and by no other.
#[tactic(auto, using(crate::proofs::CheckedLemmas::checked_laws))]
pub fn checked_lists_grow_by_incrementals_without_fault()
    ensures none { are_checked [] ≡ true }
    ensures front { (incs later : List Incremental) → are_checked (incs ++ later) ≡ true → are_checked incs ≡ true }
    ensures last { (incs : List Incremental) (inc : Incremental) → are_checked (then_with incs inc) ≡ true
        → map_fault incs inc ≡ None }
    ensures longer { (incs : List Incremental) (inc : Incremental) → are_checked incs ≡ true → map_fault incs inc ≡ None
        → are_checked (then_with incs inc) ≡ true }
{}

/// Each pool of a checked list is in range, and its map has each group that the list gives it.
#[tactic(auto, using(crate::proofs::CheckedLemmas::checked_laws))]
pub fn pools_of_checked_lists()
    ensures range { (incs : List Incremental) (id : ℕ) (made : PoolSpec) → are_checked incs ≡ true
        → pool incs id ≡ Some made → is_pool made ≡ true }
    ensures group { (incs : List Incremental) (map : OsdMap) (pg : PgId) → IsMapOf incs map → are_checked incs ≡ true
        → has_group incs pg ≡ true → HasGroup map pg }
{}

/// Along a checked list the up_thru of a device never falls, a pool in which each member has a place of its own keeps its
/// size, and the size of a grouped pool allows its parts for ever.
#[tactic(auto, using(crate::proofs::CheckedLemmas::checked_laws))]
pub fn what_later_incrementals_keep()
    ensures up_thru { (incs later : List Incremental) (osd : ℕ) → are_checked (incs ++ later) ≡ true
        → up_thru incs osd ≤ up_thru (incs ++ later) osd }
    ensures size { (incs later : List Incremental) (id k : ℕ) (made : PoolSpec) → are_checked (incs ++ later) ≡ true
        → pool incs id ≡ Some made → made.kind ≡ Erasure k → option_map (λ now. now.size) (pool (incs ++ later) id) ≡ Some made.size }
    ensures places { (incs later : List Incremental) (id : ℕ) (made : PoolSpec) → are_checked (incs ++ later) ≡ true
        → pool incs id ≡ Some made → is_kind_by_place made.kind ≡ true → option_map (λ now. now.size) (pool (incs ++ later) id) ≡ Some made.size }
    ensures parts { (incs later : List Incremental) (id : ℕ) (groups : List (Option Part)) (made : PoolSpec) → are_checked (incs ++ later) ≡ true
        → pool incs id ≡ Some made → made.kind ≡ Grouped groups
        → option_map_or (λ now. are_parts now.size groups) (pool (incs ++ later) id) false ≡ true }
{}

/// What a map itself says of a device or a pool is what its incrementals say.
#[tactic(auto, unfolding(crate::specs::Held::held_exists, crate::specs::Held::held_up, crate::specs::Held::held_lost_at, crate::specs::Held::held_pool))]
pub fn maps_say_what_their_incrementals_say()
    ensures exists { (incs : List Incremental) (map : OsdMap) (osd : ℕ) → IsMapOf incs map
        → held_exists map osd ≡ exists incs osd }
    ensures up { (incs : List Incremental) (map : OsdMap) (osd : ℕ) → IsMapOf incs map
        → held_up map osd ≡ is_up incs osd }
    ensures lost_at { (incs : List Incremental) (map : OsdMap) (osd : ℕ) → IsMapOf incs map
        → held_lost_at map osd ≡ lost_at incs osd }
    ensures pool { (incs : List Incremental) (map : OsdMap) (id : ℕ) → IsMapOf incs map
        → held_pool map id ≡ pool incs id }
{}
