ghost use Rattle.std.specs.Prelude.{◌≡◌, ◌&&◌, ◌||◌};
ghost use Rattle.pgp_interval.specs.ReadWrite.{acting_slots, can_write, is_recorded};

use pgp_code::Recoverable;
use pgp_ids::{Epoch, Membership, Osds, PrimaryFacts, SlotSet};

/// The slots of an acting list: its places that hold a device, or slot 0 alone for whole copies.
#[tactic(auto, using(crate::proofs::Places::place_laws))]
pub fn acting_slots(by_place: bool, acting: &Osds) -> SlotSet
    ensures { result ≡ acting_slots by_place acting.now }
{
    let mut slots = SlotSet::empty();
    if by_place {
        for (slot, place) in acting.as_slice().iter().enumerate() {
            if place.osd().is_some() {
                slots = slots.with(slot as u8);
            }
        }
    } else if acting.osd_count() > 0 {
        slots = slots.with(0);
    }
    slots
}

/// Whether a group of this code could serve writes with these members.
///
/// It takes `min_size` acting members and an acting primary, and members whose slots are enough for the code.
pub fn can_write<R: Recoverable>(code: &R, members: &Membership) -> bool
    ensures { result ≡ can_write (R.enough code.now) (R.by_place code.now) members.now }
{
    members.acting.osd_count() >= usize::from(members.min_size)
        && members.acting_primary.is_some()
        && code.enough(acting_slots(code.by_place(), &members.acting))
}

/// Whether a group of this code may have gone read-write in an interval that opened at the epoch `first`, with these
/// members and, in its last epoch, these facts. `clean` says whether the group was clean in one of the interval's epochs.
///
/// It takes members that could serve writes. And the primary must have been recorded as up within the interval
/// (`up_thru`) since a boot no later than its opening (`up_from`): a primary that was not is one that acknowledged no
/// write. What the maps record can lag behind, so a group that was clean within the interval (Ceph's
/// `pg_history_t::last_epoch_clean`: the last epoch in which all of its copies were complete and in place) may have gone
/// read-write too. Ceph judges by both (`PastIntervals::check_new_interval`).
pub fn may_have_gone_rw<R: Recoverable>(
    code: &R,
    members: &Membership,
    facts: PrimaryFacts,
    first: Epoch,
    clean: bool,
) -> bool
    ensures { result ≡ (can_write (R.enough code.now) (R.by_place code.now) members.now
        && (is_recorded facts first || clean)) }
{
    let recorded = facts.up_thru >= first && facts.up_from <= first;
    can_write(code, members) && (recorded || clean)
}
