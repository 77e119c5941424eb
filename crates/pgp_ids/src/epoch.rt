ghost use Rattle.std.specs.Prelude.{◌≡◌, ℕ, ◌+◌, ◌-◌, ◌<◌, ◌^◌, Some, SomeIff};

use std::fmt;
use std::marker::Model;

/// The number of a cluster map. The empty map before the first incremental is epoch 0.
#[derive(Clone, Copy, Debug, PartialEq, Eq, PartialOrd, Ord)]
pub struct Epoch {
    number: u32,
}

impl Model for Epoch {
    ghost Value = { ℕ };

    ghost view = { λ e. e.number };

    ghost inverse = { λ n. record { number = n } };
}

impl Epoch {
    /// The epoch of this number.
    pub fn new(number: u32) -> Self
        ensures { result ≡ number }
    {
        Epoch { number }
    }

    /// Its number.
    pub fn number(self) -> u32
        ensures { result ≡ self }
    {
        self.number
    }

    /// The epoch before this one; that of 0 is 0.
    pub fn before(self) -> Self
        ensures { result ≡ self - 1 }
    {
        Epoch {
            number: self.number.saturating_sub(1),
        }
    }

    /// The epoch after this one, where there is one.
    pub fn next(self) -> Option<Self>
        ensures { SomeIff result (self + 1 < 2 ^ 32) (self + 1) }
    {
        let number = self.number.checked_add(1)?;
        Some(Epoch { number })
    }
}

impl fmt::Display for Epoch {
    fn fmt<W: fmt::Write>(&self, f: &mut fmt::Formatter<W>) -> fmt::Result {
        write!(f, "{}", self.number)
    }
}
