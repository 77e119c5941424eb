//! What holds of any world, and what the definitions say of small ones.
#![tactic(auto, unfolding(pgp_log::specs::Worked::logs_computed))]

ghost use Rattle.std.specs.Prelude.{◌≡◌, List, [], ◌∷◌, ◌++◌, true, false, Ok, Err};
ghost use Rattle.pgp_ids.specs.declared.ask_refusal.AskRefusal.TheVariants as ask;
ghost use Rattle.pgp_ids.specs.declared.entry.Entry.TheVariants as entry;
ghost use Rattle.pgp_ids.specs.declared.refusal.Refusal.TheVariants as refusal;
ghost use Rattle.pgp_map.specs.Examples.{empty_step};
ghost use Rattle.pgp_sets.specs.Examples.{copies_group, copies_on_three};
ghost use Rattle.std.specs.List.{list_any};
ghost use Rattle.pgp_group.specs.View.{scratch};
ghost use Rattle.pgp_group.specs.Examples.{known_up, before_serving, until_serving};
ghost use Rattle.pgp_log.specs.Log.{is_legal};
ghost use Rattle.pgp_shard.specs.Shard.{shard_of};
ghost use Rattle.pgp_shard.specs.World.{World, Step, Reply, opening_world, after_all, replies, view_reply};
ghost use Rattle.pgp_shard.specs.WorldRun.{MayRun, IsDone, is_want, taken_of};
ghost use Rattle.pgp_shard.specs.World.Step.{Submit, Absorb, Ask};
ghost use Rattle.pgp_shard.specs.World.Reply.{Submitted, Absorbed, Asked};
ghost use Rattle.pgp_shard.specs.Examples.{submits};

/// A run in which no step is out of memory is answered as the definition says; and each run is the definition's run of the steps
/// that there was memory for, of which a shard's reading may have been cut short. In each run the log grows by the entries
/// whose submit was answered with a length, in their order, and by nothing else; and it stays legal.
pub fn runs_of_a_world()
    ensures answers { (w last : World) (steps : List Step) (given : List Reply) → MayRun w steps given last
        → list_any is_want given ≡ false → (given ≡ replies w steps) × (last ≡ after_all w steps) }
    ensures done { (w last : World) (steps : List Step) (given : List Reply) → MayRun w steps given last
        → IsDone w steps given last }
    ensures log { (w last : World) (steps : List Step) (given : List Reply) → MayRun w steps given last
        → last.log ≡ w.log ++ taken_of steps given }
    ensures legal { (w last : World) (steps : List Step) (given : List Reply) → MayRun w steps given last
        → is_legal w.log ≡ true → is_legal last.log ≡ true }
{}

/// A shard answers by what it has read of the log, whatever was submitted since.
pub fn shard_answers_by_what_it_read()
    ensures nothing { replies (opening_world 1) (Submit (entry.Inc copies_on_three) ∷ Ask copies_group ∷ [])
        ≡ Submitted (Ok 1) ∷ Asked (Err ask.UnknownGroup) ∷ [] }
    ensures refused { replies (opening_world 1) (Submit (entry.Inc (empty_step 2)) ∷ Submit (entry.Inc (empty_step 1)) ∷ [])
        ≡ Submitted (Err refusal.EpochGap) ∷ Submitted (Ok 1) ∷ [] }
{}

/// The entries by which a group comes to serve, submitted to a world of one shard: its answers follow what it has read.
pub fn group_comes_to_serve()
    ensures { replies (opening_world 1) (submits before_serving ++ Absorb 0 9 ∷ Ask copies_group
        ∷ Submit (entry.Inc (known_up 2 0 1)) ∷ Ask copies_group ∷ Absorb 0 1 ∷ Ask copies_group ∷ [])
        ≡ Submitted (Ok 1) ∷ Submitted (Ok 2) ∷ Submitted (Ok 3) ∷ Submitted (Ok 4) ∷ Submitted (Ok 5)
        ∷ Absorbed (Ok tt) ∷ Asked (view_reply (scratch before_serving copies_group))
        ∷ Submitted (Ok 6) ∷ Asked (view_reply (scratch before_serving copies_group))
        ∷ Absorbed (Ok tt) ∷ Asked (view_reply (scratch until_serving copies_group)) ∷ [] }
{}

/// The same in a world of two shards: the group's shard, the second one, has read nothing where the first alone has read.
pub fn group_asks_its_own_shard()
    ensures number { shard_of 2 copies_group ≡ 1 }
    ensures replies { replies (opening_world 2) (submits before_serving ++ Absorb 0 9 ∷ Ask copies_group ∷ Absorb 1 9 ∷ Ask copies_group
        ∷ Submit (entry.Inc (known_up 2 0 1)) ∷ Absorb 0 1 ∷ Ask copies_group ∷ Absorb 1 1 ∷ Ask copies_group ∷ [])
        ≡ Submitted (Ok 1) ∷ Submitted (Ok 2) ∷ Submitted (Ok 3) ∷ Submitted (Ok 4) ∷ Submitted (Ok 5)
        ∷ Absorbed (Ok tt) ∷ Asked (Err ask.UnknownGroup) ∷ Absorbed (Ok tt) ∷ Asked (view_reply (scratch before_serving copies_group))
        ∷ Submitted (Ok 6) ∷ Absorbed (Ok tt) ∷ Asked (view_reply (scratch before_serving copies_group))
        ∷ Absorbed (Ok tt) ∷ Asked (view_reply (scratch until_serving copies_group)) ∷ [] }
{}
