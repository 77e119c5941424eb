ghost use Rattle.std.specs.Prelude.{◌≡◌, ℕ, ◌<◌, ◌≤◌, ◌↔◌, IsSome, IfSome};

use std::marker::Model;

/// The number of a storage device (an OSD): 0 to [`OsdId::MAX`].
#[derive(Clone, Copy, Debug, PartialEq, Eq, Hash, PartialOrd, Ord)]
pub struct OsdId {
    number: u16,
}

impl Model for OsdId {
    ghost Value = { ℕ };

    ghost view = { λ o. o.number };

    ghost invariant = { λ o. o.number ≤ 4095 };

    ghost inverse = { λ n. record { number = n } };
}

impl OsdId {
    /// The greatest device number.
    pub const MAX: u16 = 4095;

    /// The device of this number, where it is in range.
    pub fn new(number: u16) -> Option<Self>
        ensures in_range { IsSome result ↔ (number ≤ Self.MAX) }
        ensures value { IfSome result (λ osd. osd ≡ number) }
    {
        if number <= Self::MAX {
            Some(OsdId { number })
        } else {
            None
        }
    }

    /// Its number, at most [`OsdId::MAX`].
    pub fn number(self) -> u16
        ensures value { result ≡ self }
        ensures in_range { result ≤ Self.MAX }
    {
        self.number
    }
}
