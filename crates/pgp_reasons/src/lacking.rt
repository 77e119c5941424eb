//! How many more slots a code needs.

ghost use Rattle.std.specs.Prelude.{◌≡◌, ◌-◌, ◌^◌, ◌↔◌, true, length, min};
ghost use Rattle.std.specs.List.{sum_by};
ghost use Rattle.pgp_ids.specs.Parts.{parts_of};
ghost use Rattle.pgp_code.specs.AnyCode.{enough_of};
ghost use Rattle.pgp_reasons.specs.Lacking.{lacking, lacking_of_part};

use pgp_code::AnyCode;
use pgp_ids::{Part, SlotSet};

/// How many more slots the code needs, 0 if these are enough.
#[tactic(auto, using(crate::proofs::LackingLemmas::lacks_none))]
pub(crate) fn lacking(code: &AnyCode, slots: SlotSet) -> usize
    ensures value { result ≡ lacking code.now slots }
    ensures enough { (result ≡ 0) ↔ (enough_of code.now slots ≡ true) }
{
    match code {
        AnyCode::Replicated(_) => less_by(1, slots),
        AnyCode::Erasure(code) => less_by(code.k, slots),
        AnyCode::Grouped(code) => lacking_of_parts(code.groups.places(), slots),
    }
}

/// How many more slots the parts lack together.
fn lacking_of_parts(groups: &[Option<Part>], slots: SlotSet) -> usize
    ensures { result ≡ min (sum_by (lacking_of_part slots) (parts_of groups.now)) (2 ^ 64 - 1) }
{
    let mut all: usize = 0;
    for group in groups {
        if let Some(part) = group {
            all = all.saturating_add(less_by(part.least, part.slots.common(slots)));
        }
    }
    all
}

/// How many slots there are less than the least number.
fn less_by(least: u8, slots: SlotSet) -> usize
    ensures { result ≡ least - length slots }
{
    usize::from(least).saturating_sub(slots.count() as usize)
}
