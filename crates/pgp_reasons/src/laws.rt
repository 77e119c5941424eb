//! What the sets of devices in an explanation are worth, as functions with nothing to do: what each says is its contract.

ghost use Rattle.std.specs.Prelude.{◌≡◌, ℕ, List, [], ◌∷◌, ◌++◌, ◌&&◌, ◌||◌, not, true, false, length, nat_le, count_by, Contains};
ghost use Rattle.std.specs.List.{list_any};
ghost use Rattle.pgp_ids.specs.declared.entry.Entry.TheVariants as entry;
ghost use Rattle.pgp_ids.specs.declared.incremental.Incremental.{Incremental};
ghost use Rattle.pgp_ids.specs.declared.log_entry.LogEntry.{LogEntry};
ghost use Rattle.pgp_ids.specs.declared.report.Info.{Info};
ghost use Rattle.pgp_code.specs.Pool.{shards};
ghost use Rattle.pgp_missing.specs.Log.{has_number, is_in_log};
ghost use Rattle.pgp_prior.specs.Examples.{lay_on, with_statuses};
ghost use Rattle.pgp_sets.specs.declared.status.Status.TheVariants.{Down, Gone};
ghost use Rattle.pgp_group.specs.GroupLog.{GroupLog};
ghost use Rattle.pgp_group.specs.Later.{IsAfter};
ghost use Rattle.pgp_group.specs.Peering.{prior};
ghost use Rattle.pgp_reasons.specs.Fates.{writes_by};
ghost use Rattle.pgp_reasons.specs.Gaps.{gaps_in, is_in_gap, AreApart};
ghost use Rattle.pgp_reasons.specs.GroupWays.{destroyed_osds, is_down_with, ways, GoesWay};
ghost use Rattle.pgp_reasons.specs.Price.{price_by};
ghost use Rattle.pgp_reasons.specs.Reasons.{AreWaysOf};
ghost use Rattle.pgp_reasons.specs.Smallest.{smallest, holds, IsPartOf};
ghost use Rattle.pgp_reasons.specs.Ways.{status_after};
ghost use Rattle.pgp_reasons.specs.declared.fates.Writes.TheVariants as writes;
ghost use Rattle.pgp_reasons.specs.declared.ways.AnyOf.{AnyOf};
ghost use Rattle.pgp_reasons.specs.declared.ways.Ways.TheVariants as listed;

/// A group is down after the next map exactly if this layer says so, whatever the map says beside which devices boot, and which are
/// given up for lost.
pub fn brings_back()
    ensures { (starts losses : List ℕ) (g after : GroupLog) (inc : Incremental)
        → IsAfter g (entry.Inc inc ∷ []) after → GoesWay starts losses inc → (prior after).down ≡ is_down_with starts losses g }
{}

/// What brings a group back does so with more devices.
pub fn more_helps()
    ensures { (starts losses more_starts more_losses : List ℕ) (g : GroupLog) → IsPartOf starts more_starts → IsPartOf losses more_losses
        → is_down_with starts losses g ≡ false → is_down_with more_starts more_losses g ≡ false }
{}

/// To start devices and to declare them lost come to the same for whether a group is down: of devices that it waits for any may be
/// declared lost in place of booting. What is lost is what those devices hold.
pub fn starts_and_losses_are_the_same_sets()
    ensures { (g : GroupLog) (starts losses : List ℕ) → IsPartOf losses (prior g).blocked_by
        → is_down_with starts losses g ≡ is_down_with (starts ++ losses) [] g }
{}

/// The smallest sets say all. However a set is split into devices that boot and devices that are declared lost, it brings the
/// group back. No part of it does, however that is split. Any devices that boot, and any that are declared lost, include one
/// of these sets if they bring the group back, as long as no device boots that was destroyed after it had served in an interval that blocks.
pub fn smallest_are_all()
    ensures enough { (g : GroupLog) (set starts losses : List ℕ) → Contains (ways g) set → IsPartOf losses set → IsPartOf set (starts ++ losses)
        → is_down_with starts losses g ≡ false }
    ensures of_them { (g : GroupLog) (set : List ℕ) → Contains (ways g) set → IsPartOf set (prior g).blocked_by }
    ensures no_part { (g : GroupLog) (set starts losses : List ℕ) (osd : ℕ) → Contains (ways g) set → IsPartOf (starts ++ losses) set
        → Contains set osd → (Contains (starts ++ losses) osd → ⊥) → is_down_with starts losses g ≡ true }
    ensures each { (g : GroupLog) (starts losses : List ℕ) → (prior g).down ≡ true
        → ((osd : ℕ) → Contains starts osd → Contains (destroyed_osds g) osd → ⊥) → is_down_with starts losses g ≡ false
        → (set : List ℕ) × (Contains (ways g) set × IsPartOf set (starts ++ losses)) }
{}

/// Where any so many of some devices are said to bring a group back, devices that boot or are declared lost do so exactly if they are
/// as many of these, as long as no device boots that was destroyed after it had served in an interval that blocks.
pub fn any_so_many_are_all()
    ensures { (g : GroupLog) (any : AnyOf) (starts losses : List ℕ) → (prior g).down ≡ true → AreWaysOf g (listed.Any any)
        → ((osd : ℕ) → Contains starts osd → Contains (destroyed_osds g) osd → ⊥)
        → is_down_with starts losses g ≡ not (nat_le any.least (count_by (holds (starts ++ losses)) any.osds)) }
{}

/// A device that is a member of an interval that blocks and was destroyed is in no set: it can't be started, nor be declared lost.
pub fn no_set_has_a_destroyed_device()
    ensures { (g : GroupLog) (set : List ℕ) (osd : ℕ) → Contains (ways g) set → Contains (destroyed_osds g) osd → Contains set osd → ⊥ }
{}

/// Of the devices 0, 3 and 5 the first alone is enough, or the two others. Three devices of which any two are enough have
/// three smallest sets. Where nothing is needed, the empty set is the only one; where all of them are too few, there is none.
pub fn small_sets()
    ensures one_or_two { smallest (λ set. holds set 0 || (holds set 3 && holds set 5)) (0 ∷ 3 ∷ 5 ∷ [])
        ≡ (0 ∷ []) ∷ (3 ∷ 5 ∷ []) ∷ [] }
    ensures any_two { smallest (λ set. nat_le 2 (length set)) (0 ∷ 3 ∷ 5 ∷ [])
        ≡ (0 ∷ 3 ∷ []) ∷ (0 ∷ 5 ∷ []) ∷ (3 ∷ 5 ∷ []) ∷ [] }
    ensures nothing { smallest (λ set. true) (0 ∷ 3 ∷ []) ≡ [] ∷ [] }
    ensures too_few { smallest (λ set. nat_le 3 (length set)) (0 ∷ 3 ∷ []) ≡ [] }
{}

/// A group of an erasure pool with two data shards lay on the devices 0, 1 and 2, of which 1 and 2 are down. To start one of them, and
/// to declare the other lost, leaves its writes readable. With one of them lost they are away, as the other one still has its shard.
/// With both lost they are gone, and no object can be read any more. So it is where 1 was destroyed and 2 is declared lost; with 2
/// started they are readable.
pub fn prices()
    ensures mixed { writes_by (shards 2) (status_after (1 ∷ []) (2 ∷ []) (with_statuses Down Down)) lay_on ≡ writes.Readable }
    ensures one { writes_by (shards 2) (status_after [] (1 ∷ []) (with_statuses Down Down)) lay_on ≡ writes.Away }
    ensures both { writes_by (shards 2) (status_after [] (1 ∷ 2 ∷ []) (with_statuses Down Down)) lay_on ≡ writes.Gone }
    ensures whole { (price_by (shards 2) (with_statuses Down Down) (status_after [] (1 ∷ 2 ∷ []) (with_statuses Down Down)) (λ osd. 0) 0
        (lay_on ∷ [])).unreadable ≡ true }
    ensures destroyed { writes_by (shards 2) (status_after [] (2 ∷ []) (with_statuses Gone Down)) lay_on ≡ writes.Gone }
    ensures started { writes_by (shards 2) (status_after (2 ∷ []) [] (with_statuses Gone Down)) lay_on ≡ writes.Readable }
{}

/// A number lies in a gap exactly where it is one of the member's log by its info and no entry has it which the member
/// reported. Gaps stand in ascending order, and between two of them a number is left out.
#[tactic(auto, using(crate::proofs::GapLawLemmas::gap_laws))]
pub fn each_number_that_is_lacked_lies_in_a_gap()
    ensures each { (info : Info) (reported : List LogEntry) (v : ℕ)
        → list_any (is_in_gap v) (gaps_in info reported) ≡ (is_in_log info v && not (has_number v reported)) }
    ensures apart { (info : Info) (reported : List LogEntry) → AreApart (gaps_in info reported) }
{}
