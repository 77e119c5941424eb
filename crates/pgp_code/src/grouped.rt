ghost use Rattle.pgp_code.specs.Parts.{enough_parts, want_slots, enough_parts-mono, enough_parts-nil};
ghost use Rattle.pgp_ids.specs.Parts.{parts_of};
ghost use Rattle.std.specs.List.{list_all};
ghost use Rattle.std.specs.Prelude.{◌≡◌, ◌↔◌, true, nat_le, IsSome, IfSome};

use super::recoverable::Recoverable;
use pgp_ids::{Part, Parts, SlotSet};

/// A code of parts: each member holds the shard of its place, and of each part at least its least number of slots has to
/// be there.
#[derive(Clone, Copy, Debug)]
pub struct Grouped {
    pub groups: Parts,
    ghost wanted: { want_slots groups ≡ true },
}

impl Grouped {
    /// The code of these parts, where there is one and each least number is at least 1.
    pub fn new(groups: Parts) -> Option<Self>
        ensures variant { IsSome result ↔ (want_slots groups ≡ true) }
        ensures value { IfSome result (λ code. code.groups ≡ groups) }
    {
        let places = groups.places();
        let has_part = places.iter().any(|place| place.is_some());
        if has_part && each_wants_a_slot(places) {
            Some(Grouped { groups })
        } else {
            None
        }
    }
}

fn each_wants_a_slot(groups: &[Option<Part>]) -> bool
    ensures { result ≡ list_all (λ part. nat_le 1 part.least) (parts_of groups.now) }
{
    for group in groups {
        if let Some(part) = group
            && part.least < 1
        {
            return false;
        }
    }
    true
}

impl Recoverable for Grouped {
    ghost enough = { λ code slots. enough_parts code.groups slots };

    ghost by_place = { λ _. true };

    ghost monotone = { λ code a b. enough_parts-mono code.groups a b };

    ghost empty_is_short = { λ code. enough_parts-nil code.groups code.wanted };

    fn enough(&self, have: SlotSet) -> bool {
        for group in self.groups.places() {
            if let Some(part) = group
                && part.slots.common(have).count() < u32::from(part.least)
            {
                return false;
            }
        }
        true
    }

    fn by_place(&self) -> bool {
        true
    }
}
