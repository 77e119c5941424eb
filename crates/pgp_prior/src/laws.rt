//! What the prior set is by any code, and what the definitions say of a small group.
ghost use Rattle.std.specs.Prelude.{◌≡◌, ℕ, [], ◌∷◌, List, Bool, true, false, Contains, nat_lt};
ghost use Rattle.pgp_ids.specs.Member.{is_before};
ghost use Rattle.pgp_ids.specs.declared.member.Member.{Member};
ghost use Rattle.pgp_ids.specs.declared.membership.Membership.{Membership};
ghost use Rattle.pgp_ids.specs.declared.past.Past.{Past};
ghost use Rattle.pgp_sets.specs.declared.status.Status.{Status};
ghost use Rattle.pgp_sets.specs.declared.status.Status.TheVariants.{Up, Gone, Lost, Down};
ghost use Rattle.pgp_lists.specs.Ordered.{IsAscending};
ghost use Rattle.pgp_prior.specs.Prior.{probe, blocked_by, is_group_down, IsBlocking, IsProbed};
ghost use Rattle.pgp_prior.specs.Better.{is_no_worse, IsNoWorse};
ghost use Rattle.pgp_prior.specs.Changes.{is_no_better, is_same_or_gone, IsNoBetter};
ghost use Rattle.pgp_ids.specs.Past.{raised_at};
ghost use Rattle.pgp_prior.specs.Examples.{prior_with, prior_after, lay_unwritten, lay_on, lost_in, in_slot};

use pgp_code::Recoverable;

/// A group is down exactly where a past interval blocks it, and then for each device of such an interval that is down.
#[tactic(auto, using(crate::proofs::PriorLemmas::group_waits))]
pub fn a_group_is_down_where_an_interval_blocks()
    ensures blocked { (enough : List ℕ → Bool) (by_place : Bool) (status : ℕ → ℕ → Status) (les : ℕ) (past : List Past)
        → is_group_down enough by_place status les past ≡ true
        → (interval : Past) × ((member : Member) × IsBlocking enough by_place status les past interval member) }
    ensures blocking { (enough : List ℕ → Bool) (by_place : Bool) (status : ℕ → ℕ → Status) (les : ℕ) (past : List Past)
        (interval : Past) (member : Member) → IsBlocking enough by_place status les past interval member
        → is_group_down enough by_place status les past ≡ true }
    ensures waited_for { (enough : List ℕ → Bool) (by_place : Bool) (status : ℕ → ℕ → Status) (les : ℕ)
        (past : List Past) (osd : ℕ) → Contains (blocked_by enough by_place status les past) osd
        → (interval : Past) × ((member : Member)
        × (IsBlocking enough by_place status les past interval member × (member.osd ≡ osd))) }
    ensures each_waited_for { (enough : List ℕ → Bool) (by_place : Bool) (status : ℕ → ℕ → Status) (les : ℕ)
        (past : List Past) (interval : Past) (member : Member)
        → IsBlocking enough by_place status les past interval member
        → Contains (blocked_by enough by_place status les past) member.osd }
{}

/// Just the members of up and acting have to be heard, and those of intervals that matter that are up.
pub fn whom_a_group_has_to_hear()
    ensures heard { (by_place : Bool) (status : ℕ → ℕ → Status) (les : ℕ) (past : List Past) (current : Membership)
        (member : Member) → Contains (probe by_place status les past current) member
        → IsProbed by_place status les past current member }
    ensures each { (by_place : Bool) (status : ℕ → ℕ → Status) (les : ℕ) (past : List Past) (current : Membership)
        (member : Member) → IsProbed by_place status les past current member
        → Contains (probe by_place status les past current) member }
{}

/// The members to hear and the devices to wait for are in ascending order, each once.
#[tactic(auto, using(crate::proofs::PriorLemmas::sets_ascend))]
pub fn prior_sets_ascend()
    ensures probe { (by_place : Bool) (status : ℕ → ℕ → Status) (les : ℕ) (past : List Past) (current : Membership)
        → IsAscending is_before (probe by_place status les past current) }
    ensures blocked_by { (enough : List ℕ → Bool) (by_place : Bool) (status : ℕ → ℕ → Status) (les : ℕ)
        (past : List Past) → IsAscending nat_lt (blocked_by enough by_place status les past) }
{}

/// A group that isn't down stays so where devices come up, or are given up for lost that were down, whatever its code.
pub fn better_statuses_never_block<R: Recoverable>()
    ensures { (code : R) (old new : ℕ → ℕ → Status) (les : ℕ) (past : List Past) → IsNoWorse old new
        → is_group_down (R.enough code) (R.by_place code) old les past ≡ false
        → is_group_down (R.enough code) (R.by_place code) new les past ≡ false }
{}

/// A group that is down stays so where devices are up no more, or lost no more, and those that are down stay so.
pub fn worse_statuses_never_relieve<R: Recoverable>()
    ensures { (code : R) (old new : ℕ → ℕ → Status) (les : ℕ) (past : List Past) → IsNoBetter old new
        → is_group_down (R.enough code) (R.by_place code) old les past ≡ true
        → is_group_down (R.enough code) (R.by_place code) new les past ≡ true }
{}

/// A group that is down stays so where one of its past intervals may have gone read-write after all, whatever its code.
pub fn raised_intervals_never_relieve()
    ensures { (enough : List ℕ → Bool) (by_place : Bool) (status : ℕ → ℕ → Status) (les : ℕ) (past : List Past) (place : ℕ)
        → is_group_down enough by_place status les past ≡ true
        → is_group_down enough by_place status les (raised_at place past) ≡ true }
{}

/// One shard of three is at hand, the two others may come back: the group waits for both.
pub fn two_shards_down()
    ensures down { (prior_with Down Down 2).down ≡ true }
    ensures blocked_by { (prior_with Down Down 2).blocked_by ≡ 1 ∷ 2 ∷ [] }
    ensures probe { (prior_with Down Down 2).probe ≡ in_slot 0 0 ∷ in_slot 3 1 ∷ in_slot 4 2 ∷ [] }
{}

/// An interval that ended before the group last began to serve holds nobody up.
pub fn served_since()
    ensures down { (prior_with Down Down 3).down ≡ false }
    ensures blocked_by { (prior_with Down Down 3).blocked_by ≡ [] }
{}

/// A shard that was given up for lost is not waited for, and counts as if it were there.
pub fn one_shard_lost()
    ensures down { (prior_with Lost Down 0).down ≡ false }
    ensures blocked_by { (prior_with Lost Down 0).blocked_by ≡ [] }
{}

/// A shard that was destroyed doesn't count, so the other one is waited for.
pub fn one_shard_gone()
    ensures down { (prior_with Gone Down 0).down ≡ true }
    ensures blocked_by { (prior_with Gone Down 0).blocked_by ≡ 2 ∷ [] }
{}

/// Where nobody can come back, nobody is waited for.
pub fn both_shards_gone()
    ensures down { (prior_with Gone Gone 0).down ≡ false }
    ensures blocked_by { (prior_with Gone Gone 0).blocked_by ≡ [] }
{}

/// A device of an interval that matters has to be heard, once it is up.
pub fn shard_back_up()
    ensures down { (prior_with Up Down 0).down ≡ false }
    ensures probe { (prior_with Up Down 0).probe
        ≡ in_slot 0 0 ∷ in_slot 1 1 ∷ in_slot 3 1 ∷ in_slot 4 2 ∷ [] }
{}

/// A shard that was given up for lost at epoch 2, after the interval began, is not waited for. Once it counts as lost at
/// epoch 1 alone it is down again, which is worse, and the group waits for both shards.
pub fn a_lost_shard_counts_as_lost_no_more()
    ensures lost { (prior_with (lost_in 2 1) Down 0).down ≡ false }
    ensures lowered { (prior_with (lost_in 1 1) Down 0).down ≡ true }
    ensures blocked_by { (prior_with (lost_in 1 1) Down 0).blocked_by ≡ 1 ∷ 2 ∷ [] }
    ensures worse { is_no_better (lost_in 2 1) (lost_in 1 1) ≡ true }
    ensures not_better { is_no_worse (lost_in 2 1) (lost_in 1 1) ≡ false }
{}

/// A lost shard that is destroyed can make a group down, and where the last one that it waits for is destroyed, it isn't
/// down any more. So a device that is destroyed makes things neither better nor worse.
pub fn destroyed_shards()
    ensures lost { (prior_with Lost Down 0).down ≡ false }
    ensures lost_gone { (prior_with Gone Down 0).down ≡ true }
    ensures both_gone { (prior_with Gone Gone 0).down ≡ false }
    ensures down_gone { is_no_worse Down Gone ≡ false }
    ensures allowed { is_same_or_gone Down Gone ≡ true }
{}

/// An interval that was not read-write holds nobody up. Once it may have gone read-write after all, the group waits for its
/// devices that are down. Where there is no such interval, or it may have done so already, nothing changes.
pub fn interval_that_was_written_after_all()
    ensures before { (prior_after (lay_unwritten ∷ []) Down Down).down ≡ false }
    ensures after { (prior_after (raised_at 0 (lay_unwritten ∷ [])) Down Down).down ≡ true }
    ensures blocked_by { (prior_after (raised_at 0 (lay_unwritten ∷ [])) Down Down).blocked_by ≡ 1 ∷ 2 ∷ [] }
    ensures beyond { raised_at 1 (lay_unwritten ∷ []) ≡ lay_unwritten ∷ [] }
    ensures already { raised_at 0 (lay_on ∷ []) ≡ lay_on ∷ [] }
{}
