ghost use Rattle.std.specs.Prelude.{◌≡◌, ℕ, List, [], Bool, true, false};
ghost use Rattle.pgp_ids.specs.SlotSet.{IsSlotSet, is_within};

use pgp_ids::SlotSet;

/// A code by which a pool keeps an object on several devices.
pub trait Recoverable {
    /// Whether the slots of an ascending list are enough.
    ghost enough: { Self → List ℕ → Bool };

    /// Whether a member's slot is its place in the list.
    ghost by_place: { Self → Bool };

    /// Whether the content can be had from the members in these slots.
    fn enough(&self, have: SlotSet) -> bool
        ensures { result ≡ enough self.now have };

    /// Whether a member's slot is its place in the acting list. Otherwise every member has slot 0.
    fn by_place(&self) -> bool
        ensures { result ≡ by_place self.now };

    /// More slots are never less.
    ghost monotone: { (code : Self) (a b : List ℕ) → IsSlotSet a → IsSlotSet b → is_within a b ≡ true
        → enough code a ≡ true → enough code b ≡ true };

    /// The empty set is never enough.
    ghost empty_is_short: { (code : Self) → enough code [] ≡ false };
}
