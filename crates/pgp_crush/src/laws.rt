//! Worked examples that the definitions compute, and that the table of an erasure pool's placement is one and the only one.
#![tactic(auto, unfolding(crate::specs::Worked::placements_computed))]

ghost use Rattle.std.specs.Prelude.{◌≡◌, ◌≢◌, ◌<◌, slice_set, ◌≤◌, ℕ, ℤ, ◌+◌, ◌*◌, pos, negsuc, [], ◌∷◌, Some, None, true, List, Option, Contains, length, map, sum};
ghost use Rattle.pgp_ids.specs.Osds.{first_osd, osd_count};
ghost use Rattle.pgp_crush.specs.declared.fault.TreeFault.TheVariants.{NoRoot, TwiceHeld, WrongType, Unknown, TooDeep, TooMany, WeightSum};
ghost use Rattle.pgp_crush.specs.declared.descent.Rank.{Rank};
ghost use Rattle.pgp_crush.specs.declared.descent.Rank.TheVariants.{Same};
ghost use Rattle.pgp_crush.specs.declared.descent.Step.{Step};
ghost use Rattle.pgp_crush.specs.declared.descent.Descent.TheVariants.{Early, Empty};
ghost use Rattle.pgp_crush.specs.Candidate.{Input, input_of};
ghost use Rattle.pgp_crush.specs.Choice.{straw2_place, choice};
ghost use Rattle.pgp_crush.specs.Logarithm.{reciprocal, coarse_log, fine_log, logarithm};
ghost use Rattle.pgp_crush.specs.Descent.{path, descent};
ghost use Rattle.pgp_crush.specs.FirstN.{first_n};
ghost use Rattle.pgp_crush.specs.Out.{is_in};
ghost use Rattle.pgp_crush.specs.Placement.{IsPlacement, placement};
ghost use Rattle.pgp_crush.specs.declared.rule.Rule.{Rule};
ghost use Rattle.pgp_ids.specs.declared.bucket.BucketAlg.TheVariants.{List as Weighed};
ghost use Rattle.std.specs.List.{All, range_with_len};
ghost use Rattle.pgp_crush.specs.Cells.{indep};
ghost use Rattle.pgp_crush.specs.Indep.{IsTable, IsIndep, place_at};
ghost use Rattle.pgp_crush.specs.Bucket.{Bucket, root_of};
ghost use Rattle.pgp_crush.specs.TreeFault.{is_known, tree_fault};
ghost use Rattle.pgp_crush.specs.Examples.{uniform, list_bucket, straw2, three_devices, one_in, device_in_a_row, empty_root, two_hosts, outer_in, four_in_a_list, four_in, chain, wide};

/// Of three devices device 0 alone is in: a replicated pool lists it, and in an erasure pool one place of three has it.
pub fn one_device_in()
    ensures listed { first_n (input_of three_devices one_in 7 0) 3 ≡ Some 0 ∷ [] }
    ensures listed_for_another_input { first_n (input_of three_devices one_in 4294967295 0) 3 ≡ Some 0 ∷ [] }
    ensures placed { first_osd (indep (input_of three_devices one_in 7 0) 3) ≡ Some 0 }
    ensures placed_once { osd_count (indep (input_of three_devices one_in 7 0) 3) ≡ 1 }
    ensures placed_for_another_input { first_osd (indep (input_of three_devices one_in 4294967295 0) 3) ≡ Some 0 }
    ensures placed_once_for_another_input { osd_count (indep (input_of three_devices one_in 4294967295 0) 3) ≡ 1 }
{}

/// A device that stands where a bucket is sought ends the search.
pub fn device_too_early()
    ensures early { descent device_in_a_row 7 (Same 0) 1 (root_of device_in_a_row) ≡ Early }
    ensures none_listed { first_n (input_of device_in_a_row one_in 7 1) 3 ≡ [] }
    ensures none_placed { indep (input_of device_in_a_row one_in 7 1) 3 ≡ None ∷ None ∷ None ∷ [] }
{}

/// A list bucket chooses its first item, if that has all the weight, and also if none has a weight.
pub fn list_of_little_weight()
    ensures one_weight { choice 7 3 (list_bucket (0x10000 ∷ 0 ∷ [])) ≡ Some (pos 0) }
    ensures no_weight { choice 7 3 (list_bucket (0 ∷ 0 ∷ [])) ≡ Some (pos 0) }
    ensures last_has_all { choice 7 3 (list_bucket (0 ∷ 0x10000 ∷ [])) ≡ Some (pos 1) }
{}

/// A list bucket whose weights are all 0 but the first always chooses its first item.
#[tactic(auto, using(crate::proofs::ChoiceLemmas::first_of_all_weight))]
pub fn first_item_of_all_weight()
    ensures { (x r : ℕ) (b : Bucket) (item : ℤ) (items : List ℤ) (weight : ℕ) (weights : List ℕ) → b.alg ≡ Weighed → b.items ≡ item ∷ items
        → b.weights ≡ weight ∷ weights → All (λ w. w ≡ 0) weights → choice x r b ≡ Some item }
{}

/// A straw2 bucket chooses what Ceph's does.
pub fn straw2_choices()
    ensures equal_weights { choice 0 0 (straw2 (pos 0 ∷ pos 1 ∷ pos 2 ∷ []) (65536 ∷ 65536 ∷ 65536 ∷ [])) ≡ Some (pos 0) }
    ensures another_try { choice 0 3 (straw2 (pos 0 ∷ pos 1 ∷ pos 2 ∷ []) (65536 ∷ 65536 ∷ 65536 ∷ [])) ≡ Some (pos 2) }
    ensures small_weights { choice 1 0 (straw2 (pos 0 ∷ pos 1 ∷ pos 2 ∷ []) (65536 ∷ 131072 ∷ 196608 ∷ [])) ≡ Some (pos 2) }
    ensures second_choice { choice 1 1 (straw2 (pos 0 ∷ pos 1 ∷ pos 2 ∷ []) (65536 ∷ 131072 ∷ 196608 ∷ [])) ≡ Some (pos 0) }
    ensures disks { choice 12345 0 (straw2 (pos 7 ∷ pos 3 ∷ pos 9 ∷ pos 4 ∷ []) (57231 ∷ 119208 ∷ 238465 ∷ 57231 ∷ [])) ≡ Some (pos 7) }
    ensures third_choice { choice 12345 2 (straw2 (pos 7 ∷ pos 3 ∷ pos 9 ∷ pos 4 ∷ []) (57231 ∷ 119208 ∷ 238465 ∷ 57231 ∷ [])) ≡ Some (pos 9) }
    ensures uneven_weights { choice 2147483646 0 (straw2 (pos 10 ∷ pos 11 ∷ pos 12 ∷ pos 13 ∷ pos 14 ∷ []) (32768 ∷ 65536 ∷ 1 ∷ 99 ∷ 327680 ∷ [])) ≡ Some (pos 14) }
    ensures buckets { choice 77 0 (straw2 (negsuc 1 ∷ negsuc 2 ∷ negsuc 3 ∷ negsuc 4 ∷ []) (196608 ∷ 65536 ∷ 65536 ∷ 131072 ∷ [])) ≡ Some (negsuc 1) }
    ensures second_bucket { choice 77 1 (straw2 (negsuc 1 ∷ negsuc 2 ∷ negsuc 3 ∷ negsuc 4 ∷ []) (196608 ∷ 65536 ∷ 65536 ∷ 131072 ∷ [])) ≡ Some (negsuc 2) }
    ensures low_ids { choice 987654321 0 (straw2 (negsuc 65535 ∷ negsuc 39999 ∷ negsuc 8 ∷ negsuc 1 ∷ []) (65536 ∷ 65536 ∷ 458752 ∷ 65536 ∷ [])) ≡ Some (negsuc 8) }
    ensures large_weights { choice 42 0 (straw2 (negsuc 9 ∷ negsuc 10 ∷ negsuc 11 ∷ []) (1342177280 ∷ 1073741824 ∷ 1073676288 ∷ [])) ≡ Some (negsuc 10) }
    ensures large_weights_again { choice 42 2 (straw2 (negsuc 9 ∷ negsuc 10 ∷ negsuc 11 ∷ []) (1342177280 ∷ 1073741824 ∷ 1073676288 ∷ [])) ≡ Some (negsuc 9) }
    ensures large_weights_once_more { choice 42 3 (straw2 (negsuc 9 ∷ negsuc 10 ∷ negsuc 11 ∷ []) (1342177280 ∷ 1073741824 ∷ 1073676288 ∷ [])) ≡ Some (negsuc 11) }
{}

/// An item of no weight loses to each other in a straw2 bucket. Of equal draws the first wins, whatever their fractions say.
pub fn straw2_corners()
    ensures no_weight { choice 5 0 (straw2 (pos 4 ∷ pos 5 ∷ pos 6 ∷ []) (0 ∷ 0 ∷ 0 ∷ [])) ≡ Some (pos 4) }
    ensures one_weight { choice 6 0 (straw2 (pos 4 ∷ pos 5 ∷ pos 6 ∷ []) (0 ∷ 1 ∷ 0 ∷ [])) ≡ Some (pos 5) }
    ensures equal_draws { choice 55260 0 (straw2 (pos 0 ∷ pos 1 ∷ []) (2147483648 ∷ 2147483647 ∷ [])) ≡ Some (pos 0) }
    ensures rounded_down { choice 193 0 (straw2 (pos 0 ∷ pos 1 ∷ []) (67657 ∷ 3219271 ∷ [])) ≡ Some (pos 1) }
{}

/// Where the weight of one item changes, a straw2 bucket chooses as before, unless it chose that item or chooses it now.
pub fn a_weight_moves_its_item_alone()
    ensures { (x r : ℕ) (items : List ℤ) (weights : List ℕ) (i weight : ℕ) → 0 < length items → straw2_place x r items weights ≢ i
        → straw2_place x r items (slice_set weights i weight) ≢ i → straw2_place x r items (slice_set weights i weight) ≡ straw2_place x r items weights }
{}

/// Logarithms of hashes.
pub fn logarithms_of_hashes()
    ensures of_zero { logarithm 0 ≡ 0 }
    ensures of_one { logarithm 1 ≡ 17592186044416 }
    ensures of_two { logarithm 2 ≡ 27882955186109 }
    ensures of_a_byte { logarithm 255 ≡ 140737488355328 }
    ensures of_a_thousand { logarithm 1000 ≡ 175345047775141 }
    ensures nothing_added { logarithm 32767 ≡ 263882790666240 }
    ensures odd_entry { logarithm 32823 ≡ 263926462280517 }
    ensures another_odd_entry { logarithm 32894 ≡ 263981028385179 }
    ensures next_coarse_entry { logarithm 33023 ≡ 264080302632414 }
    ensures the_same { logarithm 33024 ≡ 264080302632414 }
    ensures two_thirds { logarithm 43690 ≡ 271184163638610 }
    ensures greatest { logarithm 65534 ≡ 281474932780304 }
    ensures last_coarse_entry { logarithm 65535 ≡ 281474708275200 }
{}

/// The tables of the logarithm have the sums of those of Ceph's library, and those of place times entry, from place 1 on.
pub fn sums_of_the_tables()
    ensures reciprocals { sum (map (λ k. reciprocal k) (range_with_len 0 129)) ≡ 0x59792bfbd8e818 }
    ensures reciprocals_by_place { sum (map (λ k. (k + 1) * reciprocal k) (range_with_len 0 129)) ≡ 0x141ce32e0f65084d }
    ensures coarse { sum (map (λ k. coarse_log k) (range_with_len 0 129)) ≡ 0x47d5a50fa139ff }
    ensures coarse_by_place { sum (map (λ k. (k + 1) * coarse_log k) (range_with_len 0 129)) ≡ 0x179d414310467426 }
    ensures fine { sum (map (λ i. fine_log i) (range_with_len 0 256)) ≡ 0x1701049d1d61a }
    ensures fine_by_place { sum (map (λ i. (i + 1) * fine_log i) (range_with_len 0 256)) ≡ 0xf603e125d8eb2e }
{}

/// Two hosts, of each of which one device is in, and a list of four equal weights: each position has its own place.
pub fn positions_keep_their_places()
    ensures two_hosts { indep (input_of two_hosts outer_in 6 1) 2 ≡ Some 3 ∷ Some 0 ∷ [] }
    ensures list { indep (input_of four_in_a_list four_in 1 0) 2 ≡ Some 2 ∷ Some 1 ∷ [] }
{}

/// A placement meets its rule, and nothing else does.
#[tactic(auto, using(crate::proofs::PlacementLemmas::placements))]
pub fn placements_are_the_only_ones()
    ensures placed { (tree : Option (List Bucket)) (rule : Rule) (weights : List ℕ) (x n : ℕ)
        → IsPlacement tree rule weights x n (placement tree rule weights x n) }
    ensures only { (tree : Option (List Bucket)) (rule : Rule) (weights : List ℕ) (x n : ℕ) (places : List (Option ℕ))
        → IsPlacement tree rule weights x n places → places ≡ placement tree rule weights x n }
{}

/// A group has at most as many places as its pool has copies, and in an erasure pool exactly one for each shard.
#[tactic(auto, using(crate::proofs::PlacementLemmas::placement_sizes))]
pub fn placements_have_their_size()
    ensures at_most { (tree : Option (List Bucket)) (rule : Rule) (weights : List ℕ) (x n : ℕ)
        → length (placement tree rule weights x n) ≤ n }
    ensures erasure { (tree : Option (List Bucket)) (rule : Rule) (weights : List ℕ) (x n : ℕ) → rule.indep ≡ true
        → length (placement tree rule weights x n) ≡ n }
{}

/// Two lists of weights by which the same devices are in for an input give the same placement.
#[tactic(auto, using(crate::proofs::PlacementLemmas::placement_by_who_is_in))]
pub fn placements_depend_on_who_is_in()
    ensures { (tree : Option (List Bucket)) (rule : Rule) (weights others : List ℕ) (x n : ℕ)
        → ((osd : ℕ) → is_in others x osd ≡ is_in weights x osd)
        → placement tree rule others x n ≡ placement tree rule weights x n }
{}

/// A placement stays where fewer devices are in, if each of its own that was in still is: what goes out moves only the groups that
/// lie on it.
#[tactic(auto, using(crate::proofs::FewerInLemmas::placement_of_fewer))]
pub fn placements_stay_where_others_go_out()
    ensures { (tree : Option (List Bucket)) (rule : Rule) (weights others : List ℕ) (x n : ℕ)
        → ((osd : ℕ) → is_in others x osd ≡ true → is_in weights x osd ≡ true)
        → ((osd : ℕ) → Contains (placement tree rule weights x n) (Some osd) → is_in weights x osd ≡ true → is_in others x osd ≡ true)
        → placement tree rule others x n ≡ placement tree rule weights x n }
{}

/// A bucket with no items chooses nothing.
pub fn empty_bucket()
    ensures empty { descent empty_root 7 (Same 0) 0 (root_of empty_root) ≡ Empty }
    ensures none_listed { first_n (input_of empty_root one_in 7 0) 2 ≡ [] }
    ensures none_placed { indep (input_of empty_root one_in 7 0) 2 ≡ None ∷ None ∷ [] }
    ensures no_fault { tree_fault empty_root ≡ None }
{}

/// Trees that are refused, each with its first fault, and trees that stand at the limits.
pub fn refused_trees()
    ensures two_roots { tree_fault (uniform (negsuc 0) 1 (pos 0 ∷ []) ∷ uniform (negsuc 1) 1 (pos 1 ∷ []) ∷ []) ≡ Some NoRoot }
    ensures no_bucket { tree_fault [] ≡ Some NoRoot }
    ensures device_in_two_places { tree_fault (uniform (negsuc 0) 2 (negsuc 1 ∷ pos 0 ∷ []) ∷ uniform (negsuc 1) 1 (pos 0 ∷ []) ∷ []) ≡ Some TwiceHeld }
    ensures type_not_above { tree_fault (uniform (negsuc 0) 1 (negsuc 1 ∷ []) ∷ uniform (negsuc 1) 1 (pos 0 ∷ []) ∷ []) ≡ Some WrongType }
    ensures no_such_bucket { tree_fault (uniform (negsuc 0) 2 (negsuc 6 ∷ []) ∷ []) ≡ Some Unknown }
    ensures no_such_device { tree_fault (uniform (negsuc 0) 1 (pos 4096 ∷ []) ∷ []) ≡ Some Unknown }
    ensures last_device { tree_fault (uniform (negsuc 0) 1 (pos 4095 ∷ []) ∷ []) ≡ None }
    ensures eleven_levels { tree_fault (chain 11 0) ≡ Some TooDeep }
    ensures ten_levels { tree_fault (chain 10 0) ≡ None }
    ensures type_of_devices { tree_fault (uniform (negsuc 0) 0 (pos 0 ∷ []) ∷ []) ≡ Some WrongType }
    ensures id_twice { tree_fault (uniform (negsuc 0) 2 (negsuc 1 ∷ []) ∷ uniform (negsuc 1) 1 [] ∷ uniform (negsuc 1) 1 [] ∷ []) ≡ Some TwiceHeld }
    ensures as_many_items_as_may_be { tree_fault (wide 256) ≡ None }
    ensures many_items { tree_fault (wide 257) ≡ Some TooMany }
    ensures heavy { tree_fault (list_bucket (4294967295 ∷ 1 ∷ []) ∷ []) ≡ Some WeightSum }
    ensures as_heavy_as_may_be { tree_fault (list_bucket (4294967294 ∷ 1 ∷ []) ∷ []) ≡ None }
    ensures two_hosts { tree_fault two_hosts ≡ None }
{}

/// An erasure pool's placement is read off a table in which each position has its least round, and there is one such table.
#[tactic(auto, using(crate::proofs::IndepLemmas::tables))]
pub fn one_table()
    ensures placed { (i : Input) (n : ℕ) → IsIndep i n (indep i n) }
    ensures only { (i : Input) (n : ℕ) (table other : List (Option ℕ)) → IsTable i n table → IsTable i n other → table ≡ other }
    ensures placement { (i : Input) (n : ℕ) (table : List (Option ℕ)) → IsTable i n table → indep i n ≡ map (place_at i n table) (range_with_len 0 n) }
{}

/// In a tree without fault, a way down from any of its buckets comes only to buckets and devices that are there, and more
/// levels than a way has would lead it no further.
#[tactic(auto, using(crate::proofs::ReachLemmas::ways_end))]
pub fn ways_down_end_in_the_tree()
    ensures there { (tree : List Bucket) (x : ℕ) (rank : Rank) (levels : ℕ) (b : Bucket) (s : Step) → tree_fault tree ≡ None → Contains tree b → Contains (path tree x rank levels (Some b)) s → is_known tree s.item ≡ true }
    ensures end { (tree : List Bucket) (x : ℕ) (rank : Rank) (more : ℕ) (b : Bucket) → tree_fault tree ≡ None → Contains tree b → path tree x rank (10 + more) (Some b) ≡ path tree x rank 10 (Some b) }
{}
