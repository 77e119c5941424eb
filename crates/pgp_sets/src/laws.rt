//! What the definitions say of small maps.
#![tactic(auto, unfolding(crate::specs::Worked::sets_computed))]

ghost use Rattle.std.specs.Prelude.{◌≡◌, ◌≤◌, ℕ, List, Option, true, false, [], ◌∷◌, Some, None, length};
ghost use Rattle.pgp_sets.specs.declared.status.Status.TheVariants.{Up, Gone, Lost, Down};
ghost use Rattle.pgp_ids.specs.Pool.{is_kind_by_place};
ghost use Rattle.pgp_ids.specs.declared.incremental.Incremental.{Incremental};
ghost use Rattle.pgp_ids.specs.declared.membership.Membership.{Membership};
ghost use Rattle.pgp_ids.specs.declared.pg_id.PgId.{PgId};
ghost use Rattle.pgp_ids.specs.declared.pool.PoolSpec.{PoolSpec};
ghost use Rattle.pgp_map.specs.declared.map.OsdMap.{OsdMap};
ghost use Rattle.pgp_map.specs.Examples.{boot, empty_step};
ghost use Rattle.pgp_map.specs.MapFault.{map_fault, then_with};
ghost use Rattle.pgp_map.specs.Pools.{pool};
ghost use Rattle.pgp_map.specs.MapOf.{IsMapOf};
ghost use Rattle.pgp_sets.specs.Status.{status, held_status};
ghost use Rattle.pgp_sets.specs.Sets.{membership, membership_at, raw_set_of, moves, may_place_elsewhere, are_up};
ghost use Rattle.pgp_sets.specs.Examples.{of_device, of_weight, copies_group, shards_group, stands_on, lies_on, copies_placed, one_copy_placed, copies_on_three, shards_on_three, parts_on_three, take_down, resize};

/// Each device of up and of acting is up.
pub fn who_lies_there_is_up()
    ensures up { (incs : List Incremental) (pg : PgId) (members : Membership)
        → membership incs pg ≡ Some members → are_up incs members.up ≡ true }
    ensures acting { (incs : List Incremental) (pg : PgId) (members : Membership)
        → membership incs pg ≡ Some members → are_up incs members.acting ≡ true }
{}

/// An up set has at most as many places as the size of the pool, and in an erasure or grouped pool exactly as many.
pub fn up_sets_have_their_size()
    ensures at_most { (incs : List Incremental) (pg : PgId) (members : Membership)
        → membership incs pg ≡ Some members → length members.up ≤ members.size }
    ensures by_place { (incs : List Incremental) (pg : PgId) (made : PoolSpec) (members : Membership) → pool incs pg.pool ≡ Some made
        → is_kind_by_place made.kind ≡ true → membership incs pg ≡ Some members → length members.up ≡ members.size }
{}

/// Where the tree puts a group stays, unless an incremental gives a tree, sizes of the group's pool, or a weight by which a device
/// comes in for the group or goes out of its raw set. Without a tree, weights, and sizes of the pool it gives none of these.
pub fn raw_sets_stay()
    ensures stay { (incs : List Incremental) (inc : Incremental) (pg : PgId) (places : List (Option ℕ)) → map_fault incs inc ≡ None
        → may_place_elsewhere incs inc pg ≡ false → raw_set_of incs pg ≡ Some places → raw_set_of (then_with incs inc) pg ≡ Some places }
    ensures unmoved { (incs : List Incremental) (inc : Incremental) (pg : PgId)
        → moves inc pg.pool ≡ false → may_place_elsewhere incs inc pg ≡ false }
{}

/// A weight that leaves the device in puts a group nowhere else, nor does one that takes out a device on which the group doesn't lie.
/// One that takes out a device of the group may, and so may one that brings a device in.
pub fn weights_that_switch()
    ensures heavier { let given = record (empty_step 2) { weight = of_weight 0 0x20000 ∷ [] } in
        may_place_elsewhere (copies_placed ∷ []) given copies_group ≡ false }
    ensures out { let given = record (empty_step 2) { weight = of_weight 0 0 ∷ [] } in
        may_place_elsewhere (copies_placed ∷ []) given copies_group ≡ true }
    ensures lies_there { raw_set_of (one_copy_placed ∷ []) copies_group ≡ Some (Some 0 ∷ []) }
    ensures out_elsewhere { let given = record (empty_step 2) { weight = of_weight 1 0 ∷ of_weight 2 0 ∷ [] } in
        may_place_elsewhere (one_copy_placed ∷ []) given copies_group ≡ false }
    ensures out_there { let given = record (empty_step 2) { weight = of_weight 0 0 ∷ [] } in
        may_place_elsewhere (one_copy_placed ∷ []) given copies_group ≡ true }
    ensures comes_in { let given = record (empty_step 2) { weight = of_weight 1 0x10000 ∷ [] } in
        may_place_elsewhere (copies_placed ∷ []) given copies_group ≡ true }
{}

/// The status that a map gives by [`StatusOf`](crate::StatusOf) is the one that the incrementals give that made it.
pub fn statuses_are_those_of_the_incrementals()
    ensures { (incs : List Incremental) (map : OsdMap) (osd first : ℕ) → IsMapOf incs map
        → held_status map osd first ≡ status incs osd first }
{}

/// A device that is down may come back, until it is given up for lost; what was lost before an interval plays no part in it.
pub fn device_that_went_down()
    ensures up { status (boot 1 (0 ∷ []) ∷ []) 0 1 ≡ Up }
    ensures down { status (boot 1 (0 ∷ []) ∷ take_down 2 (0 ∷ []) ∷ []) 0 1 ≡ Down }
    ensures lost { let given_up = record (take_down 2 (0 ∷ [])) { lost = of_device 0 2 ∷ [] } in
        status (boot 1 (0 ∷ []) ∷ given_up ∷ []) 0 1 ≡ Lost }
    ensures lost_at_its_start { let given_up = record (take_down 2 (0 ∷ [])) { lost = of_device 0 1 ∷ [] } in
        status (boot 1 (0 ∷ []) ∷ given_up ∷ []) 0 1 ≡ Down }
{}

/// A device that was given up for lost and comes back is up, and one that is destroyed is gone.
pub fn device_that_was_lost()
    ensures back { let given_up = record (take_down 2 (0 ∷ [])) { lost = of_device 0 2 ∷ [] } in
        status (boot 1 (0 ∷ []) ∷ given_up ∷ boot 3 (0 ∷ []) ∷ []) 0 1 ≡ Up }
    ensures destroyed { let given_up = record (take_down 2 (0 ∷ [])) { lost = of_device 0 2 ∷ [] } in
        let destroyed = record (empty_step 3) { gone = 0 ∷ [] } in
        status (boot 1 (0 ∷ []) ∷ given_up ∷ destroyed ∷ []) 0 1 ≡ Gone }
    ensures never_there { status [] 0 1 ≡ Gone }
{}

/// A replicated pool places its group on the devices that have weight, in order, and pg_temp stands in for that.
pub fn copies()
    ensures placed { membership (copies_placed ∷ []) copies_group ≡ Some (lies_on 3 2 (Some 0 ∷ []) (Some 0 ∷ [])) }
    ensures on_three { membership (copies_on_three ∷ []) copies_group
        ≡ Some (lies_on 3 2 (Some 0 ∷ []) (Some 0 ∷ Some 1 ∷ Some 2 ∷ [])) }
    ensures one_down { membership (copies_on_three ∷ take_down 2 (1 ∷ []) ∷ []) copies_group
        ≡ Some (lies_on 3 2 (Some 0 ∷ []) (Some 0 ∷ Some 2 ∷ [])) }
{}

/// Where no device of pg_temp is up, the group is served by the devices on which it lies, as before.
pub fn pg_temp_without_devices()
    ensures falls_back { let others = record (take_down 2 (1 ∷ 2 ∷ [])) {
      temp = stands_on copies_group (Some 1 ∷ Some 2 ∷ []);
    } in
        membership (copies_placed ∷ others ∷ []) copies_group ≡ Some (lies_on 3 2 (Some 0 ∷ []) (Some 0 ∷ [])) }
    ensures taken_away { let none = record (empty_step 2) { temp = stands_on copies_group [] } in
        membership (copies_on_three ∷ none ∷ []) copies_group ≡ Some (lies_on 3 2 (Some 0 ∷ []) (Some 0 ∷ [])) }
{}

/// New weights move the group's placement, and new sizes are part of its membership.
pub fn weights_and_sizes()
    ensures weights { let others = record (empty_step 2) {
      weight = of_weight 0 0 ∷ of_weight 1 0x10000 ∷ [];
    } in
        membership (copies_on_three ∷ others ∷ []) copies_group
        ≡ Some (lies_on 3 2 (Some 1 ∷ []) (Some 0 ∷ Some 1 ∷ Some 2 ∷ [])) }
    ensures sizes { membership (copies_on_three ∷ resize 2 3 1 ∷ []) copies_group
        ≡ Some (lies_on 3 1 (Some 0 ∷ []) (Some 0 ∷ Some 1 ∷ Some 2 ∷ [])) }
{}

/// An erasure pool keeps the places of devices that aren't up empty, and a list of empty places isn't empty.
pub fn shards()
    ensures on_three { membership (shards_on_three ∷ []) shards_group
        ≡ Some (lies_on 3 2 (None ∷ None ∷ None ∷ []) (Some 0 ∷ Some 1 ∷ Some 2 ∷ [])) }
    ensures one_down { membership (shards_on_three ∷ take_down 2 (1 ∷ []) ∷ []) shards_group
        ≡ Some (lies_on 3 2 (None ∷ None ∷ None ∷ []) (Some 0 ∷ None ∷ Some 2 ∷ [])) }
    ensures all_down { membership (shards_on_three ∷ take_down 2 (0 ∷ 1 ∷ 2 ∷ []) ∷ []) shards_group
        ≡ Some (lies_on 3 2 (None ∷ None ∷ None ∷ []) (None ∷ None ∷ None ∷ [])) }
{}

/// So does a grouped pool, also of a slot that is in none of its parts.
pub fn parts()
    ensures on_three { membership (parts_on_three ∷ []) shards_group
        ≡ Some (lies_on 3 2 (None ∷ None ∷ None ∷ []) (Some 0 ∷ Some 1 ∷ Some 2 ∷ [])) }
    ensures one_down { membership (parts_on_three ∷ take_down 2 (1 ∷ []) ∷ []) shards_group
        ≡ Some (lies_on 3 2 (None ∷ None ∷ None ∷ []) (Some 0 ∷ None ∷ Some 2 ∷ [])) }
{}

/// Without a tree no device is placed, and without its pool a group has no membership.
pub fn nothing_to_place_on()
    ensures copies { membership (record copies_placed { crush = None } ∷ []) copies_group ≡ Some (lies_on 3 2 [] []) }
    ensures shards { let placed = record shards_on_three { crush = None; temp = [] } in
        membership (placed ∷ []) shards_group
        ≡ Some (lies_on 3 2 (None ∷ None ∷ None ∷ []) (None ∷ None ∷ None ∷ [])) }
    ensures no_pool { membership (copies_placed ∷ []) shards_group ≡ None }
{}

/// The membership of an epoch is that of the map which the incrementals up to it make.
pub fn earlier_epoch()
    ensures before { membership_at 1 (copies_on_three ∷ take_down 2 (1 ∷ []) ∷ []) copies_group
        ≡ Some (lies_on 3 2 (Some 0 ∷ []) (Some 0 ∷ Some 1 ∷ Some 2 ∷ [])) }
    ensures before_its_pool { membership_at 0 (copies_on_three ∷ []) copies_group ≡ None }
{}
