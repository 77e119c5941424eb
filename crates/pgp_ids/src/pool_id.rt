ghost use Rattle.std.specs.Prelude.{◌≡◌, ℕ, ◌≤◌, ◌↔◌, IsSome, IfSome};

use std::marker::Model;

/// The number of a pool of placement groups: 1 to 255.
#[derive(Clone, Copy, Debug, PartialEq, Eq, Hash)]
pub struct PoolId {
    number: u8,
}

impl Model for PoolId {
    ghost Value = { ℕ };

    ghost view = { λ p. p.number };

    ghost invariant = { λ p. (1 ≤ p.number) × (p.number ≤ 255) };

    ghost inverse = { λ n. record { number = n } };
}

impl PoolId {
    /// The pool of this number, where it isn't 0.
    pub fn new(number: u8) -> Option<Self>
        ensures in_range { IsSome result ↔ (1 ≤ number) }
        ensures value { IfSome result (λ pool. pool ≡ number) }
    {
        if number >= 1 {
            Some(PoolId { number })
        } else {
            None
        }
    }

    /// Its number, at least 1.
    pub fn number(self) -> u8
        ensures value { result ≡ self }
        ensures at_least_one { 1 ≤ result }
    {
        self.number
    }
}
