//! What holds of any log, and what the definitions say of small ones.
#![tactic(auto, unfolding(crate::specs::Worked::logs_computed))]

pub mod reckoning;

ghost use Rattle.std.specs.Prelude.{◌≡◌, ℕ, ◌<◌, ◌≤◌, ◌-◌, All, map, List, [], ◌∷◌, ◌++◌, length, Some, None, true, false, option_map, codes};
ghost use Rattle.std.specs.List.{range_with_len};
ghost use Rattle.pgp_ids.specs.declared.entry.Entry.{Entry};
ghost use Rattle.pgp_ids.specs.declared.entry.Entry.TheVariants as entry;
ghost use Rattle.pgp_ids.specs.declared.pg_id.PgId.{PgId};
ghost use Rattle.pgp_ids.specs.declared.refusal.Refusal.{Refusal};
ghost use Rattle.pgp_ids.specs.declared.refusal.Refusal.TheVariants as refusal;
ghost use Rattle.pgp_map.specs.Examples.{empty_step, boot};
ghost use Rattle.pgp_sets.specs.Examples.{copies_group, copies_on_three, resize};
ghost use Rattle.pgp_map.specs.Checked.{are_checked};
ghost use Rattle.pgp_sets.specs.Sets.{membership};
ghost use Rattle.pgp_group.specs.Entries.{incs_of};
ghost use Rattle.pgp_group.specs.GroupHistory.{EpochsAscend};
ghost use Rattle.pgp_group.specs.Touched.{is_touched, view_at};
ghost use Rattle.pgp_group.specs.View.{scratch};
ghost use Rattle.pgp_group.specs.Examples.{at, in_slot, copy, copy_up_to, shard, known_up, maps, on_three, two_shards_down, entries_of_first, modify, until_serving, serving_again, others_serve};
ghost use Rattle.pgp_log.specs.Fits.{fits, entry_fault, is_close, is_closed};
ghost use Rattle.pgp_log.specs.Log.{epoch_of, is_accepted_at, is_legal, EndsWithClose};
ghost use Rattle.pgp_log.specs.Locate.{group_of_object};

use pgp_group::laws::touched as group_laws;

/// An entry is refused since the log is closed, or else for what is wrong with it, or else since the log is full, which
/// it never is for a Close. A full log is too large for a worked example: this is of any log of that length, and a test of the
/// program fills one.
pub fn refusals_in_order()
    ensures closed { (log : List Entry) (new : Entry) → is_closed log ≡ true
        → fits log new ≡ Some refusal.Closed }
    ensures own { (log : List Entry) (new : Entry) (why : Refusal) → is_closed log ≡ false
        → entry_fault log new ≡ Some why → fits log new ≡ Some why }
    ensures full { (log : List Entry) (new : Entry) → is_closed log ≡ false → entry_fault log new ≡ None
        → is_close new ≡ false → 65535 ≤ length log → fits log new ≡ Some refusal.LogFull }
    ensures room { (log : List Entry) (new : Entry) → is_closed log ≡ false → entry_fault log new ≡ None
        → length log < 65535 → fits log new ≡ None }
    ensures close { (log : List Entry) → is_closed log ≡ false → fits log entry.Close ≡ None }
{}

/// Whether an entry was taken depends on nothing after it.
pub fn later_entries_play_no_part()
    ensures { (log later : List Entry) (n : ℕ) → n < length log
        → is_accepted_at (log ++ later) n ≡ is_accepted_at log n }
{}

/// Fronts of a legal log are legal, and a legal log with one more entry is legal exactly where that one fits.
pub fn legal_logs_grow_by_entries_that_fit()
    ensures front { (log later : List Entry) → is_legal (log ++ later) ≡ true → is_legal log ≡ true }
    ensures last { (log : List Entry) (new : Entry) → is_legal (log ++ new ∷ []) ≡ true → fits log new ≡ None }
    ensures longer { (log : List Entry) (new : Entry) → is_legal log ≡ true → fits log new ≡ None
        → is_legal (log ++ new ∷ []) ≡ true }
{}

/// Each incremental of a legal log leads to a later epoch than those before it, so that those up to an epoch are the first ones. Where
/// each leads to the next epoch, these are 1, 2, and so on.
pub fn epochs_of_a_legal_log()
    ensures ascend { (log : List Entry) → is_legal log ≡ true → EpochsAscend (incs_of log) }
    ensures counts { (log : List Entry) → is_legal log ≡ true → All (λ inc. inc.after ≡ inc.epoch - 1) (incs_of log)
        → map (λ inc. inc.epoch) (incs_of log) ≡ range_with_len 1 (length (incs_of log)) }
{}

/// A legal log is of checked incrementals, and has at most 65,536 entries: 65,535 and a Close.
pub fn legal_logs_are_checked_and_short()
    ensures checked { (log : List Entry) → is_legal log ≡ true → are_checked (incs_of log) ≡ true }
    ensures short { (log : List Entry) → is_legal log ≡ true → length log ≤ 65536 }
    ensures room { (log : List Entry) → is_legal log ≡ true → is_closed log ≡ false → length log ≤ 65535 }
{}

/// A log that was closed ends with its Close.
pub fn closed_logs_end_with_a_close()
    ensures { (log : List Entry) → is_legal log ≡ true → is_closed log ≡ true → EndsWithClose log }
{}

/// An entry that a legal log takes changes the view of a group that it doesn't touch in count and epoch alone. A group that
/// the map lacks is still lacking.
pub fn untouched_groups_stay_as_they_were()
    ensures { (log : List Entry) (new : Entry) (pg : PgId) → is_legal log ≡ true → fits log new ≡ None
        → is_touched log new pg ≡ false
        → scratch (log ++ new ∷ []) pg
        ≡ option_map (view_at (length (log ++ new ∷ [])) (epoch_of (log ++ new ∷ []))) (scratch log pg) }
{
    group_laws::untouched_groups_stay_as_they_were();
    legal_logs_grow_by_entries_that_fit();
    legal_logs_are_checked_and_short();
}

/// The first incremental changes the map of epoch 0.
pub fn first_incremental()
    ensures gap { fits [] (entry.Inc (empty_step 2)) ≡ Some refusal.EpochGap }
    ensures next { fits [] (entry.Inc (empty_step 1)) ≡ None }
    ensures passes { fits [] (entry.Inc (record (empty_step 2) { after = 0 })) ≡ None }
{}

/// A device is known to have been up through the incremental's own epoch at most, and through no earlier one than before.
pub fn epochs_through_which_a_device_was_up()
    ensures ahead { fits (maps (copies_on_three ∷ [])) (entry.Inc (known_up 2 0 3)) ≡ Some refusal.Ahead }
    ensures exact { fits (maps (copies_on_three ∷ [])) (entry.Inc (known_up 2 0 2)) ≡ None }
    ensures back { let log = maps (copies_on_three ∷ known_up 2 0 2 ∷ []) in
        fits log (entry.Inc (known_up 3 0 1)) ≡ Some refusal.UpThruBack }
    ensures up { let log = maps (copies_on_three ∷ known_up 2 0 2 ∷ []) in
        fits log (entry.Inc (boot 3 (0 ∷ []))) ≡ Some refusal.AlreadyUp }
    ensures up_and_down { let log = maps (copies_on_three ∷ known_up 2 0 2 ∷ []) in
        fits log (entry.Inc (record (boot 3 (0 ∷ [])) { down = 0 ∷ [] })) ≡ Some refusal.Twice }
{}

/// An info has to be of a group and a member that the map has.
pub fn infos_of_nobody()
    ensures group { let info = record (copy 0 1) { pg = record copies_group { pg = 1 } } in
        fits (maps (copies_on_three ∷ [])) (entry.Info info) ≡ Some refusal.UnknownGroup }
    ensures device { fits (maps (copies_on_three ∷ [])) (entry.Info (copy 3 1)) ≡ Some refusal.UnknownMember }
    ensures slot { let info = record (copy 0 1) { member = in_slot 0 1 } in
        fits (maps (copies_on_three ∷ [])) (entry.Info info) ≡ Some refusal.UnknownMember }
    ensures last_slot { fits (maps two_shards_down) (entry.Info (shard 5 2 3)) ≡ None }
    ensures slot_beyond { fits (maps two_shards_down) (entry.Info (shard 5 3 3)) ≡ Some refusal.UnknownMember }
{}

/// A stamp may be the map's epoch, and none above.
pub fn stamps()
    ensures exact { fits (maps (copies_on_three ∷ resize 2 3 1 ∷ [])) (entry.Info (copy 0 2)) ≡ None }
    ensures before { fits (maps (copies_on_three ∷ resize 2 3 1 ∷ [])) (entry.Info (copy 0 1)) ≡ None }
    ensures ahead { fits (maps (copies_on_three ∷ resize 2 3 1 ∷ [])) (entry.Info (copy 0 3)) ≡ Some refusal.FutureStamp }
    ensures first { fits (maps (copies_on_three ∷ [])) (entry.Info (copy 0 2)) ≡ Some refusal.FutureStamp }
{}

/// The epochs and versions of an info have to go together: no epoch is above the stamp.
pub fn infos_that_contradict_themselves()
    ensures les { let info = record (copy 0 1) { les = 2 } in
        fits (maps (copies_on_three ∷ [])) (entry.Info info) ≡ Some refusal.BadVersion }
    ensures history_les { let info = record (copy 0 1) { history_les = 2 } in
        fits (maps (copies_on_three ∷ [])) (entry.Info info) ≡ Some refusal.BadVersion }
    ensures last_epoch_clean { let info = record (copy 0 1) { last_epoch_clean = 2 } in
        fits (maps (copies_on_three ∷ [])) (entry.Info info) ≡ Some refusal.BadVersion }
    ensures half_a_version { let info = copy_up_to 0 (at 1 0) in
        fits (maps (copies_on_three ∷ [])) (entry.Info info) ≡ Some refusal.BadVersion }
    ensures other_half { let info = copy_up_to 0 (at 0 1) in
        fits (maps (copies_on_three ∷ [])) (entry.Info info) ≡ Some refusal.BadVersion }
    ensures ahead { let info = copy_up_to 0 (at 2 1) in
        fits (maps (copies_on_three ∷ [])) (entry.Info info) ≡ Some refusal.BadVersion }
    ensures tail_beyond { let info = record (copy 0 1) { log_tail = at 1 1 } in
        fits (maps (copies_on_three ∷ [])) (entry.Info info) ≡ Some refusal.BadVersion }
    ensures one_number_twice { let info = record (copy 0 2) { last_update = at 2 1; log_tail = at 1 1 } in
        fits (maps (copies_on_three ∷ resize 2 3 1 ∷ [])) (entry.Info info) ≡ Some refusal.BadVersion }
    ensures together { let info = record (copy 0 2) { les = 2; history_les = 2; last_epoch_clean = 2; last_update = at 2 2; log_tail = at 1 1 } in
        fits (maps (copies_on_three ∷ resize 2 3 1 ∷ [])) (entry.Info info) ≡ None }
{}

/// No log entry has the version before the first write, nor one of an epoch that is still to come.
pub fn log_entries_without_a_version()
    ensures zero { let entry = record (modify 0 (codes "a")) { version = at 0 0 } in
        fits (maps (copies_on_three ∷ [])) (entries_of_first (entry ∷ [])) ≡ Some refusal.BadVersion }
    ensures ahead { let entry = record (modify 1 (codes "a")) { version = at 2 1 } in
        fits (maps (copies_on_three ∷ [])) (entries_of_first (entry ∷ [])) ≡ Some refusal.BadVersion }
    ensures good { fits (maps (copies_on_three ∷ [])) (entries_of_first (modify 1 (codes "a") ∷ [])) ≡ None }
{}

/// The logs by which a group comes to serve, and serves again, are legal, and so is that by which one is down.
pub fn legal_logs()
    ensures serving { is_legal until_serving ≡ true }
    ensures down { is_legal (maps two_shards_down) ≡ true }
    ensures serving_again { is_legal serving_again ≡ true }
    ensures others_serve { is_legal others_serve ≡ true }
    ensures closed { is_legal (until_serving ++ entry.Close ∷ []) ≡ true }
    ensures gap { is_legal (maps (empty_step 2 ∷ [])) ≡ false }
{}

/// An object lies in the group to which its name hashes, and that group where its map puts it.
pub fn object_is_located()
    ensures group { group_of_object (copies_on_three ∷ []) 1 (codes "a") ≡ Some copies_group }
    ensures members { membership (copies_on_three ∷ []) copies_group ≡ Some (on_three 2) }
    ensures no_pool { group_of_object (copies_on_three ∷ []) 9 (codes "a") ≡ None }
{}
