//! Which groups an entry touches, and that it leaves the others as they were.

ghost use Rattle.std.specs.Prelude.{◌≡◌, ◌++◌, [], ◌∷◌, List, Some, true, false, length, option_map};
ghost use Rattle.pgp_ids.specs.declared.entry.Entry.{Entry};
ghost use Rattle.pgp_ids.specs.declared.entry.Entry.TheVariants as entry;
ghost use Rattle.pgp_ids.specs.declared.pg_id.PgId.{PgId};
ghost use Rattle.pgp_map.specs.Checked.{are_checked};
ghost use Rattle.pgp_map.specs.Examples.{empty_step, boot};
ghost use Rattle.pgp_map.specs.Map.{epoch};
ghost use Rattle.pgp_sets.specs.Examples.{of_weight, copies_group, shards_group, stands_on, copies_placed, copies_on_three, take_down, resize};
ghost use Rattle.pgp_group.specs.Entries.{incs_of};
ghost use Rattle.pgp_group.specs.Examples.{in_slot, maps, known_up, give_up, two_shards_down, copy, infos_sent, entries_report, three_writes, until_serving};
ghost use Rattle.pgp_group.specs.Touched.{is_touched, view_at};
ghost use Rattle.pgp_group.specs.View.{scratch};

/// An entry that doesn't touch a group changes its view in count and epoch alone, where each map incremental of the log was
/// checked when it came. A group that isn't there doesn't come.
pub fn untouched_groups_stay_as_they_were()
    ensures { (log : List Entry) (new : Entry) (pg : PgId) → are_checked (incs_of (log ++ new ∷ [])) ≡ true
        → is_touched log new pg ≡ false
        → scratch (log ++ new ∷ []) pg
        ≡ option_map (view_at (length (log ++ new ∷ [])) (epoch (incs_of (log ++ new ∷ [])))) (scratch log pg) }
{}

/// An incremental with nothing but its epoch touches no group, and neither does one that tells of a device with which the
/// group has nothing to do.
pub fn groups_that_an_entry_leaves()
    ensures nothing { is_touched until_serving (entry.Inc (empty_step 3)) copies_group ≡ false }
    ensures stranger { is_touched (maps two_shards_down) (entry.Inc (take_down 4 (5 ∷ []))) shards_group ≡ false }
    ensures without_weight { is_touched (maps (copies_placed ∷ [])) (entry.Inc (take_down 2 (1 ∷ []))) copies_group ≡ false }
    ensures pool { let made = record (empty_step 1) { pools = copies_on_three.pools } in
        is_touched [] (entry.Inc made) shards_group ≡ false }
    ensures sizes { is_touched (maps (copies_on_three ∷ [])) (entry.Inc (resize 2 3 1)) shards_group ≡ false }
    ensures temp { let given = record (empty_step 2) { temp = stands_on copies_group (Some 1 ∷ []) } in
        is_touched (maps (copies_on_three ∷ [])) (entry.Inc given) (record copies_group { pg = 1 }) ≡ false }
    ensures report { is_touched (maps (copies_on_three ∷ [])) (entry.Info (copy 0 1)) shards_group ≡ false }
    ensures entries { let told = entries_report copies_group (in_slot 0 0) three_writes in
        is_touched (maps (copies_on_three ∷ [])) told (record copies_group { pg = 1 }) ≡ false }
    ensures close { is_touched until_serving entry.Close copies_group ≡ false }
{}

/// Each that a group depends on, by itself: its pool, sizes and pg_temp, weights, the tree, and its reports.
pub fn groups_that_an_entry_touches()
    ensures pool { let made = record (empty_step 1) { pools = copies_on_three.pools } in
        is_touched [] (entry.Inc made) copies_group ≡ true }
    ensures sizes { is_touched (maps (copies_on_three ∷ [])) (entry.Inc (resize 2 3 1)) copies_group ≡ true }
    ensures temp { let given = record (empty_step 2) { temp = stands_on copies_group (Some 1 ∷ []) } in
        is_touched (maps (copies_on_three ∷ [])) (entry.Inc given) copies_group ≡ true }
    ensures weights { let inc = record (empty_step 4) { weight = of_weight 5 0 ∷ [] } in
        is_touched (maps two_shards_down) (entry.Inc inc) shards_group ≡ true }
    ensures tree { let inc = record (empty_step 4) { crush = copies_on_three.crush } in
        is_touched (maps two_shards_down) (entry.Inc inc) shards_group ≡ true }
    ensures report { is_touched (maps (copies_on_three ∷ [])) (entry.Info (copy 0 1)) copies_group ≡ true }
    ensures entries { let told = entries_report copies_group (in_slot 0 0) three_writes in
        is_touched (maps (copies_on_three ∷ [])) told copies_group ≡ true }
{}

/// A device touches the groups that have to do with it, whatever becomes of it: where it stands in the placement, in pg_temp,
/// in up or acting of a past interval, or sent a report.
pub fn groups_that_a_device_touches()
    ensures placed { is_touched (maps (copies_placed ∷ [])) (entry.Inc (take_down 2 (0 ∷ []))) copies_group ≡ true }
    ensures in_temp { is_touched (maps (copies_on_three ∷ [])) (entry.Inc (take_down 2 (1 ∷ []))) copies_group ≡ true }
    ensures boots { is_touched (maps two_shards_down) (entry.Inc (boot 4 (1 ∷ []))) shards_group ≡ true }
    ensures gone { let inc = record (empty_step 4) { gone = 1 ∷ [] } in
        is_touched (maps two_shards_down) (entry.Inc inc) shards_group ≡ true }
    ensures lost { is_touched (maps two_shards_down) (entry.Inc (give_up 4 1 2)) shards_group ≡ true }
    ensures up_thru { is_touched (maps (copies_placed ∷ [])) (entry.Inc (known_up 2 0 1)) copies_group ≡ true }
    ensures was_in_up { let placed = record copies_placed { temp = stands_on copies_group (Some 1 ∷ Some 2 ∷ []) } in
        let moved = record (empty_step 2) { weight = of_weight 0 0 ∷ of_weight 1 0x10000 ∷ [] } in
        is_touched (maps (placed ∷ moved ∷ [])) (entry.Inc (take_down 3 (0 ∷ []))) copies_group ≡ true }
    ensures sent_an_info { let log = maps (copies_placed ∷ []) ++ infos_sent (copy 1 1 ∷ []) in
        is_touched log (entry.Inc (take_down 2 (1 ∷ []))) copies_group ≡ true }
    ensures sent_entries { let log = maps (copies_placed ∷ []) ++ entries_report copies_group (in_slot 1 0) three_writes ∷ [] in
        is_touched log (entry.Inc (take_down 2 (1 ∷ []))) copies_group ≡ true }
{}
