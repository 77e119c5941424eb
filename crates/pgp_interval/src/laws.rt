//! What the intervals of any history are, and what the definitions say of small ones.
ghost use Rattle.std.specs.Prelude.{◌≡◌, ◌≢◌, ℕ, ◌+◌, ◌↔◌, [], ◌∷◌, ◌++◌, ◌<◌, ◌≤◌, List, Contains, map, filter, nat_le, true, false, IsTrue};
ghost use Rattle.pgp_ids.specs.declared.history.PrimaryFacts.{PrimaryFacts};
ghost use Rattle.pgp_ids.specs.declared.membership.Membership.{Membership};
ghost use Rattle.pgp_interval.specs.SameMembers.{is_same};
ghost use Rattle.pgp_interval.specs.History.{History, begun, grown, last_place};
ghost use Rattle.pgp_interval.specs.Runs.{past_intervals, current_first, ending_at};
ghost use Rattle.pgp_interval.specs.Raised.{raised};
ghost use Rattle.pgp_interval.specs.Interval.{IsInterval, EachIsOver, HasEachOver, LieEndToEnd};
ghost use Rattle.pgp_interval.specs.Examples.{both, both_needed, alone, known_up_to, two_epochs_then, ended_at_2};

use pgp_code::{Recoverable, Replicated};

/// Two memberships are taken for the same exactly where they are equal.
#[tactic(auto, using(crate::proofs::Same::same_laws))]
pub fn same_memberships_are_equal()
    ensures { (a b : Membership) → IsTrue (is_same a b) ↔ (a ≡ b) }
{}

/// The past intervals are maximal runs that are over, and each such run is one of them.
#[tactic(auto, using(crate::proofs::IntervalLemmas::past_laws))]
pub fn past_intervals_are_the_runs_that_are_over<R: Recoverable>()
    ensures each { (h : History R) (cleans : List ℕ)
        → EachIsOver R.enough R.by_place cleans h (past_intervals R.enough R.by_place cleans h) }
    ensures every { (h : History R) (cleans : List ℕ)
        → HasEachOver R.enough R.by_place cleans h (past_intervals R.enough R.by_place cleans h) }
{}

/// The current interval is the one maximal run that reaches the last epoch.
pub fn current_interval_reaches_the_last_epoch<R: Recoverable>()
    ensures run { (h : History R)
        → (first : ℕ) × (current_first h ≡ h.first + first) × IsInterval h first (last_place h) }
    ensures only { (h : History R) (first : ℕ)
        → IsInterval h first (last_place h) → current_first h ≡ h.first + first }
{}

/// From the first epoch on the intervals cover each epoch once, and neighbours have different memberships.
#[tactic(auto, using(crate::proofs::IntervalLemmas::lie_end_to_end))]
pub fn intervals_lie_end_to_end<R: Recoverable>()
    ensures { (h : History R) (cleans : List ℕ)
        → LieEndToEnd h h.first (past_intervals R.enough R.by_place cleans h) }
{}

/// A later epoch of the same membership continues the current interval. One of another makes a past interval of it, which ends
/// just before, and opens the next. The past intervals stay as they were.
#[tactic(auto, using(crate::proofs::GrownLemmas::grown_laws))]
pub fn a_later_epoch_continues_or_ends_the_current_interval<R: Recoverable>()
    ensures continues { (h : History R) (cleans : List ℕ) (passed : ℕ) (facts : PrimaryFacts)
        → past_intervals R.enough R.by_place cleans (grown h passed h.current facts)
        ≡ past_intervals R.enough R.by_place cleans h }
    ensures continues_from { (h : History R) (passed : ℕ) (facts : PrimaryFacts)
        → current_first (grown h passed h.current facts) ≡ current_first h }
    ensures ends { (h : History R) (cleans : List ℕ) (passed : ℕ) (members : Membership) (facts : PrimaryFacts)
        → members ≢ h.current → past_intervals R.enough R.by_place cleans (grown h passed members facts)
        ≡ past_intervals R.enough R.by_place cleans h
        ++ ending_at R.enough R.by_place cleans h (h.first + last_place h + passed) facts ∷ [] }
    ensures opens_at { (h : History R) (passed : ℕ) (members : Membership) (facts : PrimaryFacts)
        → members ≢ h.current → current_first (grown h passed members facts) ≡ h.first + last_place h + passed + 1 }
{}

/// More epochs in which the group was clean raise flags of past intervals. They lower none, and change nothing else.
#[tactic(auto, using(crate::proofs::CleanLemmas::clean_laws))]
pub fn more_cleans_raise_flags<R: Recoverable>()
    ensures { (h : History R) (cleans more : List ℕ)
        → past_intervals R.enough R.by_place (cleans ++ more) h
        ≡ map (raised (R.enough h.code) (R.by_place h.code) more) (past_intervals R.enough R.by_place cleans h) }
{}

/// In which order infos name the epochs in which the group was clean, and how often, plays no part.
#[tactic(auto, using(crate::proofs::CleanLemmas::clean_laws))]
pub fn order_of_cleans_plays_no_part<R: Recoverable>()
    ensures { (h : History R) (cleans others : List ℕ)
        → ((clean : ℕ) → Contains cleans clean → Contains others clean)
        → ((clean : ℕ) → Contains others clean → Contains cleans clean)
        → past_intervals R.enough R.by_place cleans h ≡ past_intervals R.enough R.by_place others h }
{}

/// Epochs before the group's first have no effect, and so 0, which an info names that knows of no epoch in which the
/// group was clean.
#[tactic(auto, using(crate::proofs::CleanLemmas::clean_laws))]
pub fn cleans_before_the_first_epoch_have_no_effect<R: Recoverable>()
    ensures early { (h : History R) (cleans : List ℕ)
        → past_intervals R.enough R.by_place (filter (nat_le h.first) cleans) h
        ≡ past_intervals R.enough R.by_place cleans h }
    ensures zero { (h : History R) (cleans : List ℕ) → 1 ≤ h.first
        → past_intervals R.enough R.by_place (0 ∷ cleans) h ≡ past_intervals R.enough R.by_place cleans h }
{}

/// A group that lay on two devices at the epochs 1 and 2 and on one at epoch 3 may have gone read-write: the primary,
/// up since epoch 1, was recorded as up at epoch 1 by the last map of the interval.
pub fn recorded_in_the_last_map(code: Replicated)
    ensures past { let h = two_epochs_then code (known_up_to 0) (known_up_to 1) alone in
        let copies = ⟦<Replicated as Recoverable>⟧ in
        past_intervals copies.enough copies.by_place [] h ≡ ended_at_2 true ∷ [] }
    ensures current { let h = two_epochs_then code (known_up_to 0) (known_up_to 1) alone in
        current_first h ≡ 3 }
{}

/// The facts of the interval's first epoch play no part.
pub fn recorded_in_the_first_map(code: Replicated)
    ensures past { let h = two_epochs_then code (known_up_to 1) (known_up_to 0) alone in
        let copies = ⟦<Replicated as Recoverable>⟧ in
        past_intervals copies.enough copies.by_place [] h ≡ ended_at_2 false ∷ [] }
    ensures current { let h = two_epochs_then code (known_up_to 1) (known_up_to 0) alone in
        current_first h ≡ 3 }
{}

/// A group that was clean at epoch 2 may have gone read-write, though no map of the interval recorded its primary.
pub fn clean_within_the_interval(code: Replicated)
    ensures { let h = two_epochs_then code (known_up_to 0) (known_up_to 0) alone in
        let copies = ⟦<Replicated as Recoverable>⟧ in
        past_intervals copies.enough copies.by_place (2 ∷ []) h ≡ ended_at_2 true ∷ [] }
{}

/// That it was clean after the interval, or that no epoch is known in which it was, says nothing of the interval.
pub fn clean_outside_the_interval(code: Replicated)
    ensures { let h = two_epochs_then code (known_up_to 0) (known_up_to 0) alone in
        let copies = ⟦<Replicated as Recoverable>⟧ in
        past_intervals copies.enough copies.by_place (3 ∷ 0 ∷ []) h ≡ ended_at_2 false ∷ [] }
{}

/// A new min_size opens an interval, though the devices stay.
pub fn min_size_opens_an_interval(code: Replicated)
    ensures past { let h = two_epochs_then code (known_up_to 0) (known_up_to 1) both_needed in
        let copies = ⟦<Replicated as Recoverable>⟧ in
        past_intervals copies.enough copies.by_place [] h ≡ ended_at_2 true ∷ [] }
    ensures current { let h = two_epochs_then code (known_up_to 0) (known_up_to 1) both_needed in
        current_first h ≡ 3 }
{}

/// One epoch is the current interval, and nothing is past.
pub fn one_epoch_has_no_past(code: Replicated)
    ensures past { let copies = ⟦<Replicated as Recoverable>⟧ in
        past_intervals copies.enough copies.by_place [] (begun code 1 both) ≡ [] }
    ensures current { current_first (begun code 1 both) ≡ 1 }
{}
