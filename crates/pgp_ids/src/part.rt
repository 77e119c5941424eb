ghost use Rattle.std.specs.Prelude.{◌≡◌, ◌<◌, ◌&&◌, ℕ};
ghost use Rattle.std.specs.List.{All, list_all};
ghost use Rattle.pgp_ids.specs.SlotSet.{has_slot};
ghost use Rattle.pgp_ids.specs.Parts.{set_of, has_twice, parts_of, is_part, is_apart, are_apart, are_parts};

use super::slots::{SLOT_LIMIT, SlotSet};
use std::marker::Model;

/// A part of a grouped code: of these slots at least `least` have to be at hand.
#[derive(Clone, Copy, Debug, PartialEq, Eq)]
pub struct Part {
    pub slots: SlotSet,
    /// In a part that a map takes it is 1 to the number of the slots.
    pub least: u8,
    /// Whether a slot came twice in the list that the part was made from: a map refuses that, and a set can't say it.
    pub twice: bool,
}

impl Part {
    /// The part of the slots in this list, in any order.
    pub fn new(slots: &[u8], least: u8) -> Self
        requires { All (λ slot. slot < SLOT_LIMIT) slots.now }
        ensures slots { result.slots ≡ set_of slots.now }
        ensures members { (slot : ℕ) → has_slot slot result.slots ≡ has_slot slot slots.now }
        ensures least { result.least ≡ least }
        ensures twice { result.twice ≡ has_twice slots.now }
    {
        let mut set = SlotSet::empty();
        let mut twice = false;
        for slot in slots {
            twice |= set.has(*slot);
            set = set.with(*slot);
        }
        Part {
            slots: set,
            least,
            twice,
        }
    }

    /// Whether a pool of this size can have the part: its slots are below the size, each once in its list, and the
    /// least number is 1 to their number.
    pub fn is_of_size(&self, size: u8) -> bool
        ensures { result ≡ is_part size self.now }
    {
        !self.twice
            && self.slots.is_below(size)
            && self.least >= 1
            && u32::from(self.least) <= self.slots.count()
    }
}

/// How many parts a grouped code has at most.
pub const MAX_PARTS: usize = 16;

/// The parts of a grouped code, each in one of 16 places, so that the kind of a pool is copied without memory. A place that
/// holds no part is `None`. Contracts see the list of the places.
#[derive(Clone, Copy, Debug, PartialEq, Eq)]
pub struct Parts {
    places: [Option<Part>; MAX_PARTS],
}

impl Model for Parts {
    ghost use Rattle.std.specs.Prelude.{List, Option};
    ghost use Rattle.pgp_ids.specs.declared.part.Part.{Part};

    ghost Value = { List (Option Part) };

    ghost view = { λ parts. parts.places };

    ghost inverse = { λ places. record { places = places } };
}

impl Parts {
    /// The parts in these places.
    pub fn new(places: [Option<Part>; MAX_PARTS]) -> Self
        ensures { result ≡ places }
    {
        Parts { places }
    }

    /// The places in order.
    pub fn places(&self) -> &[Option<Part>]
        ensures { result.now ≡ self.now }
    {
        &self.places
    }

    /// Whether a pool of this size can have these parts: there is one, each is of the size, and no slot is in two.
    pub fn are_of_size(&self, size: u8) -> bool
        ensures { result ≡ are_parts size self.now }
    {
        are_fit(&self.places, size) && self.places.iter().any(|place| place.is_some())
    }
}

/// Whether each part is of the size, and no slot is in two.
fn are_fit(groups: &[Option<Part>], size: u8) -> bool
    ensures { result ≡ (list_all (is_part size) (parts_of groups.now) && are_apart (parts_of groups.now)) }
{
    let mut rest = groups;
    while let Some((first, others)) = rest.split_first() {
        if let Some(part) = first
            && !(part.is_of_size(size) && is_apart_from_all(part, others))
        {
            return false;
        }
        rest = others;
    }
    true
}

/// Whether no slot of the part is in one of the others.
fn is_apart_from_all(part: &Part, others: &[Option<Part>]) -> bool
    ensures { result ≡ list_all (is_apart part.now) (parts_of others.now) }
{
    for group in others {
        if let Some(other) = group
            && part.slots.common(other.slots).count() != 0
        {
            return false;
        }
    }
    true
}
