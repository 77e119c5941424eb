//! Buckets choose.

ghost use Rattle.std.specs.Prelude.{◌≡◌, ℕ, ℤ, ◌<◌, List, length, Contains};

/// A bucket that chooses one of its items. A tree mixes kinds of buckets. What a level of a way down does with a choice uses
/// the law of this trait alone: that the choice is an item.
pub trait Chooser {
    ghost items: { Self → List ℤ };

    ghost choice: { Self → ℕ → ℕ → ℤ };

    /// The item chosen for the input `x` of a placement, and a number `r` that differs from try to try.
    fn choose(&self, x: u32, r: u32) -> i32
        requires { 0 < length (items self.now) }
        ensures { result ≡ choice self.now x r };

    ghost chooses_item: { (c : Self) (x r : ℕ) → 0 < length (items c) → Contains (items c) (choice c x r) };
}
