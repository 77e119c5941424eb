//! Which copies of a group may be followed.

ghost use Rattle.std.specs.Prelude.{◌≡◌, IfOk};
ghost use Rattle.std.specs.Option.{option_copied};
ghost use Rattle.pgp_reasons.specs.Copies.{copies_of, good_members, is_as_good, numbered_slots};

use super::lacking::lacking;
use pgp_code::AnyCode;
use pgp_ids::{Info, Member, Seq, SlotSet};
use pgp_lists::insert_in_order;
use std::alloc::{AllocError, Global};

/// The copies of a group that were heard and may be followed.
#[derive(Drop)]
pub struct Copies {
    /// The members that were heard whose copies are complete and served as late as the best one. In ascending order.
    pub members: Seq<Member>,
    /// How many more slots than theirs the code needs for all that was written to be read.
    pub lacks: usize,
}

/// The copies of these infos that may be followed, where this one is the best, if there is one.
pub(crate) fn copies_of(
    alloc: Global,
    code: &AnyCode,
    best: Option<&Info>,
    infos: &[Info],
) -> Result<Copies, AllocError>
    ensures { IfOk result (λ copies. copies ≡ copies_of code.now (option_copied best.entry) infos.now) }
{
    let members = good_members(alloc, best, infos)?;
    let lacks = lacking(code, slots_of(members.as_slice()));
    Ok(Copies {
        members: Seq::from_vec(members),
        lacks,
    })
}

/// The members of those of the infos whose copies are complete and served as late as the best one, if there is one.
fn good_members(
    alloc: Global,
    best: Option<&Info>,
    infos: &[Info],
) -> Result<Vec<Member>, AllocError>
    ensures { IfOk result (λ members. members.items ≡ good_members (option_copied best.entry) infos.now) }
{
    let mut members = Vec::new(alloc);
    let Some(good) = best else {
        return Ok(members);
    };
    for info in infos {
        if is_as_good(good, info) {
            insert_in_order(&mut members, info.member)?;
        }
    }
    Ok(members)
}

/// Whether the copy is complete and served as late as the best one.
fn is_as_good(best: &Info, info: &Info) -> bool
    ensures { result ≡ is_as_good best.now info.now }
{
    info.complete && best.les <= info.les
}

/// The slots of those of these members that have one that a pool may have.
fn slots_of(members: &[Member]) -> SlotSet
    ensures { result ≡ numbered_slots members.now }
{
    let mut slots = SlotSet::empty();
    for member in members {
        if member.slot < 16 {
            slots = slots.with(member.slot);
        }
    }
    slots
}
