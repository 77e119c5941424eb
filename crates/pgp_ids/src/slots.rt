ghost use Rattle.std.specs.Prelude.{◌≡◌, ℕ, ◌<◌, ◌^◌, List, [], length, nat_eq};
ghost use Rattle.std.specs.Cmp.{partial_equiv_from_equiv};
ghost use Rattle.std.specs.Cmp.Lexicographic.{pointwise, nat_list_eq_equiv};
ghost use Rattle.pgp_ids.specs.SlotSet.{has_slot, with_slot, is_within, common, is_below};

use std::marker::Model;

/// Slots are numbered from 0 to one below this.
pub const SLOT_LIMIT: u8 = 32;

/// A set of slots, each below [`SLOT_LIMIT`]. Contracts see it as the list of its slots in ascending order.
#[derive(Clone, Copy, Debug)]
pub struct SlotSet {
    bits: u32,
}

impl Model for SlotSet {
    ghost use Rattle.std.specs.Prelude.{List, ℕ, ◌<◌, ◌^◌};
    ghost use Rattle.pgp_ids.specs.SlotBits.{slots_of, bits_of, bits_of-slots_of};

    ghost Value = { List ℕ };

    ghost view = { λ s. slots_of s.bits };

    ghost invariant = { λ s. s.bits < 2 ^ 32 };

    ghost inverse = { λ slots. record { bits = bits_of slots } };

    ghost inverse_ok = { λ s fits. bits_of-slots_of s fits };
}

impl PartialEq for SlotSet {
    ghost eq = { pointwise nat_eq };

    ghost laws = { partial_equiv_from_equiv nat_list_eq_equiv };

    fn eq(&self, other: &SlotSet) -> bool {
        self.bits == other.bits
    }
}

impl Eq for SlotSet {
    ghost laws = { nat_list_eq_equiv };
}

impl SlotSet {
    #[tactic(auto, unfolding(crate::specs::SlotBits::slots_of))]
    /// The set without a slot.
    pub fn empty() -> Self
        ensures { result ≡ [] }
    {
        SlotSet { bits: 0 }
    }

    /// The set with this slot too.
    pub fn with(self, slot: u8) -> Self
        requires { slot < SLOT_LIMIT }
        ensures { result ≡ with_slot slot self }
    {
        SlotSet {
            bits: self.bits | 1 << slot,
        }
    }

    /// Whether the slot is in the set.
    pub fn has(self, slot: u8) -> bool
        requires { slot < SLOT_LIMIT }
        ensures { result ≡ has_slot slot self }
    {
        self.bits >> slot & 1 == 1
    }

    /// How many slots it has.
    pub fn count(self) -> u32
        ensures { result ≡ length self }
    {
        self.bits.count_ones()
    }

    /// Whether each of its slots is in `other`.
    pub fn within(self, other: SlotSet) -> bool
        ensures { result ≡ is_within self other }
    {
        self.bits & !other.bits == 0
    }

    /// The slots that are in both.
    pub fn common(self, other: SlotSet) -> Self
        ensures { result ≡ common self other }
    {
        SlotSet {
            bits: self.bits & other.bits,
        }
    }

    /// Whether each of its slots is below `limit`.
    pub fn is_below(self, limit: u8) -> bool
        ensures { result ≡ is_below limit self }
    {
        limit >= SLOT_LIMIT || self.bits < 1 << limit
    }
}
