//! What it costs to end the wait of a group.

ghost use Rattle.std.specs.Prelude.{◌≡◌, List, IfOk};
ghost use Rattle.pgp_ids.specs.declared.entry.Entry.{Entry};
ghost use Rattle.pgp_group.specs.GroupLog.{GroupLog};
ghost use Rattle.pgp_reasons.specs.Price.{concerns, price, slots_left};
ghost use Rattle.pgp_reasons.specs.Reasons.{IsViewed};

use super::blocking::matters;
use super::fates::{IntervalNow, add_held, are_held};
use super::relief::ChangedStatuses;
use pgp_code::{AnyCode, Recoverable};
use pgp_ids::{Epoch, OsdId, Past, PgId, Seq, SlotSet, View};
use pgp_map::OsdMap;
use pgp_prior::blocks;
use pgp_sets::StatusOf;
use std::alloc::{AllocError, Global};

/// What it costs to boot some devices and to declare others lost.
#[derive(Drop)]
pub struct Price {
    /// The past intervals that the way concerns, as they are after it, in ascending order: those that blocked the group, and
    /// those whose writes could be read with the devices that were down, and no longer can. The group goes on without the writes
    /// of those that aren't readable.
    pub intervals: Seq<IntervalNow>,
    /// Whether too few devices are left, up or down, of all that ever served, for any object to be read.
    pub unreadable: bool,
}

/// What it costs to boot these devices and to declare those lost, for the group of this view, which is by a log whose last map
/// is this one. Nothing if the map doesn't have the pool.
pub fn price_of(
    alloc: Global,
    map: &OsdMap,
    pg: PgId,
    view: &View,
    starts: &[OsdId],
    losses: &[OsdId],
) -> Result<Price, AllocError>
    ensures { IfOk result (λ cost. (log : List Entry) (g : GroupLog) → IsViewed log map.now pg view.now g
        → cost ≡ price starts.now losses.now g) }
{
    let Some(pool) = map.pool(pg.pool) else {
        return Ok(Price {
            intervals: Seq::new(alloc),
            unreadable: false,
        });
    };
    let code = AnyCode::of_pool(pool.kind);
    let past = view.intervals.as_slice();
    let after = ChangedStatuses {
        statuses: map,
        these: &[],
        those: starts,
        losses,
    };
    let mut intervals = Vec::new(alloc);
    for interval in past {
        if concerns(&code, map, &after, view.les, interval) {
            intervals.push(IntervalNow::of(alloc, &code, &after, map, interval)?)?;
        }
    }
    Ok(Price {
        intervals: Seq::from_vec(intervals),
        unreadable: !code.enough(slots_left(&code, &after, past)),
    })
}

/// Whether the way concerns the interval.
fn concerns<B: StatusOf, A: StatusOf>(
    code: &AnyCode,
    before: &B,
    after: &A,
    les: Epoch,
    interval: &Past,
) -> bool
    ensures { result ≡ concerns code.now (B.status_of before.now) (A.status_of after.now) les interval.now }
{
    matters(les, interval)
        && (blocks(code, before, les, interval)
            || (are_held(true, code, before, interval) && !are_held(true, code, after, interval)))
}

/// The slots that the devices still have, up or down, which served in some interval that may have gone read-write.
fn slots_left<S: StatusOf>(code: &AnyCode, statuses: &S, past: &[Past]) -> SlotSet
    ensures { result ≡ slots_left code.now (S.status_of statuses.now) past.now }
{
    let by_place = code.by_place();
    let mut slots = SlotSet::empty();
    for interval in past {
        if interval.rw {
            slots = add_held(slots, true, by_place, statuses, interval);
        }
    }
    slots
}
