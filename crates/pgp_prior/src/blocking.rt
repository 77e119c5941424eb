ghost use Rattle.std.specs.Prelude.{◌≡◌};
ghost use Rattle.pgp_prior.specs.Blocks.{is_down, is_settled, matters, settled_slots, has_down, blocks};

use super::members::members_of;
use pgp_code::Recoverable;
use pgp_ids::{Epoch, Past, SlotSet};
use pgp_sets::{Status, StatusOf};

/// Whether writes may have been taken in the interval of which the group knows nothing: it may have gone read-write, and
/// it didn't end before the epoch `les`, in which the group last began to serve.
pub fn matters(les: Epoch, past: &Past) -> bool
    ensures { result ≡ matters les past.now }
{
    past.rw && les <= past.last
}

/// Whether the group has to wait for devices of the interval: it matters, the slots of its members that are up or lost
/// aren't enough, and one of its members is down and may come back.
///
/// It asks for the status of each member at most twice.
pub fn blocks<R: Recoverable, S: StatusOf>(code: &R, statuses: &S, les: Epoch, past: &Past) -> bool
    ensures { result ≡ blocks (R.enough code.now) (R.by_place code.now) (S.status_of statuses.now) les past.now }
{
    let by_place = code.by_place();
    matters(les, past)
        && !code.enough(settled_slots(by_place, statuses, past))
        && has_down(by_place, statuses, past)
}

/// The slots of the acting members that are up or lost.
pub fn settled_slots<S: StatusOf>(by_place: bool, statuses: &S, past: &Past) -> SlotSet
    ensures { result ≡ settled_slots by_place (S.status_of statuses.now) past.now }
{
    let mut slots = SlotSet::empty();
    for member in members_of(by_place, &past.members.acting) {
        if is_settled(statuses.status(member.osd, past.first)) {
            slots = slots.with(member.slot);
        }
    }
    slots
}

/// Whether a member of acting is down.
fn has_down<S: StatusOf>(by_place: bool, statuses: &S, past: &Past) -> bool
    ensures { result ≡ has_down by_place (S.status_of statuses.now) past.now }
{
    members_of(by_place, &past.members.acting).any(|member| is_down(statuses.status(
        member.osd, past.first,
    )))
}

/// Whether what a device of this status held is at hand, or was given up.
fn is_settled(status: Status) -> bool
    ensures { result ≡ is_settled status }
{
    matches!(status, Status::Up | Status::Lost)
}

/// Whether a device of this status is down, and may come back.
pub fn is_down(status: Status) -> bool
    ensures { result ≡ is_down status }
{
    status == Status::Down
}
