//! What the laws of reckoning say of small logs: of groups that served and serve again, and of one that a report makes down.

ghost use Rattle.std.specs.Prelude.{◌≡◌, [], ◌∷◌, ◌++◌, Some, true, false, option_map};
ghost use Rattle.pgp_ids.specs.declared.entry.Entry.TheVariants as entry;
ghost use Rattle.pgp_ids.specs.declared.verdict.Verdict.TheVariants as the;
ghost use Rattle.pgp_prior.specs.Blocks.{has_down};
ghost use Rattle.pgp_sets.specs.Examples.{copies_group, shards_group, take_down};
ghost use Rattle.pgp_sets.specs.Sets.{membership};
ghost use Rattle.pgp_sets.specs.Status.{status};
ghost use Rattle.pgp_group.specs.Entries.{incs_of};
ghost use Rattle.pgp_group.specs.GroupLog.{group_in, incs};
ghost use Rattle.pgp_group.specs.Peering.{prior};
ghost use Rattle.pgp_group.specs.Reckoning.{heard_or_lost};
ghost use Rattle.pgp_group.specs.View.{scratch};
ghost use Rattle.pgp_group.specs.Examples.{in_slot, on_three, shards_on, was, maps, two_shards_unrecorded, shard, infos_sent, until_serving, resized, serving_again, shards_serving, all_down, others_serve, with_both};

/// A group serves in epoch 2, in the interval that opened at epoch 1. New sizes end it: it is past, of the same members, lasted
/// through epoch 2, and may have gone read-write.
pub fn interval_in_which_a_group_served()
    ensures serves { option_map (λ view. view.verdict) (scratch until_serving copies_group) ≡ Some the.Serve }
    ensures members { membership (incs_of until_serving) copies_group ≡ Some (on_three 2) }
    ensures past { option_map (λ view. view.intervals) (scratch resized copies_group) ≡ Some (was 1 2 (on_three 2) true ∷ []) }
    ensures first { option_map (λ view. view.first) (scratch resized copies_group) ≡ Some 3 }
    ensures waits { option_map (λ view. view.verdict) (scratch resized copies_group) ≡ Some the.Waiting }
{}

/// It serves again once its members were heard and the map says that its primary is up in the new interval. No info tells that
/// it began to serve since, so it has reckoned with the interval: all of its acting members were heard.
pub fn group_that_serves_again()
    ensures serves { option_map (λ view. view.verdict) (scratch serving_again copies_group) ≡ Some the.Serve }
    ensures past { option_map (λ view. view.intervals) (scratch serving_again copies_group) ≡ Some (was 1 2 (on_three 2) true ∷ []) }
    ensures les { option_map (λ view. view.les) (scratch serving_again copies_group) ≡ Some 0 }
    ensures heard { option_map (λ g. heard_or_lost g (was 1 2 (on_three 2) true)) (group_in serving_again copies_group)
        ≡ Some (in_slot 0 0 ∷ in_slot 1 0 ∷ in_slot 2 0 ∷ []) }
    ensures known_since { let since = record (with_both 0 4) { history_les = 3 } in
        option_map (λ view. view.les) (scratch (serving_again ++ infos_sent (since ∷ [])) copies_group) ≡ Some 3 }
{}

/// A group serves on three devices. They go down, and it waits for them. Once they are destroyed others serve it, who have heard
/// none of them: none is down any more.
pub fn group_that_others_serve()
    ensures served { option_map (λ view. view.verdict) (scratch shards_serving shards_group) ≡ Some the.Serve }
    ensures past { option_map (λ view. view.intervals) (scratch all_down shards_group) ≡ Some (was 1 2 (shards_on 0 1 2) true ∷ []) }
    ensures down { option_map (λ view. view.verdict) (scratch all_down shards_group) ≡ Some the.Down }
    ensures blocked_by { option_map (λ view. view.blocked_by) (scratch all_down shards_group) ≡ Some (0 ∷ 1 ∷ 2 ∷ []) }
    ensures serves { option_map (λ view. view.verdict) (scratch others_serve shards_group) ≡ Some the.Serve }
    ensures still_past { option_map (λ view. view.intervals) (scratch others_serve shards_group) ≡ Some (was 1 2 (shards_on 0 1 2) true ∷ []) }
    ensures les { option_map (λ view. view.les) (scratch others_serve shards_group) ≡ Some 0 }
    ensures heard { option_map (λ g. heard_or_lost g (was 1 2 (shards_on 0 1 2) true)) (group_in others_serve shards_group) ≡ Some [] }
    ensures none_down { option_map (λ g. has_down true (status (incs g)) (was 1 2 (shards_on 0 1 2) true)) (group_in others_serve shards_group)
        ≡ Some false }
{}

/// New sizes end the interval in which a group served, and take nothing away: the group isn't down. Nor does an info that raises
/// no flag make it so. One that raises a flag can, and so can a device that goes down.
pub fn group_that_stays_relieved()
    ensures before { option_map (λ g. (prior g).down) (group_in until_serving copies_group) ≡ Some false }
    ensures ended { option_map (λ g. (prior g).down) (group_in resized copies_group) ≡ Some false }
    ensures told { option_map (λ g. (prior g).down) (group_in (resized ++ infos_sent (with_both 0 3 ∷ [])) copies_group) ≡ Some false }
    ensures taken_away { let log = shards_serving ++ entry.Inc (take_down 3 (0 ∷ 1 ∷ [])) ∷ [] in
        option_map (λ g. (prior g).down) (group_in log shards_group) ≡ Some true }
    ensures unrecorded { option_map (λ g. (prior g).down) (group_in (maps two_shards_unrecorded) shards_group) ≡ Some false }
    ensures raised { let log = maps two_shards_unrecorded ++ infos_sent (record (shard 0 0 3) { last_epoch_clean = 2 } ∷ []) in
        option_map (λ g. (prior g).down) (group_in log shards_group) ≡ Some true }
{}
