//! What has become of the members of a past interval, and of what was written in it.

ghost use Rattle.std.specs.Prelude.{◌≡◌, nat_lt, IfOk, OnOk};
ghost use Rattle.pgp_lists.specs.Ordered.{IsAscending, ascending, with_items};
ghost use Rattle.pgp_map.specs.Held.{held_lost_at};
ghost use Rattle.pgp_reasons.specs.Fates.{are_held, held_slots, interval_now, holds_still, is_status, once_lost, osds_with, writes_by};

use pgp_code::{AnyCode, Recoverable};
use pgp_ids::{Epoch, OsdId, Osds, Past, Seq, SlotSet};
use pgp_lists::insert_in_order;
use pgp_map::OsdMap;
use pgp_prior::members_of;
use pgp_sets::{Status, StatusOf};
use std::alloc::{AllocError, Global};

/// A past interval, and what has become of its members. The devices are in ascending order, each once.
#[derive(Drop)]
pub struct IntervalNow {
    /// Its first epoch.
    pub first: Epoch,
    /// Its last epoch.
    pub last: Epoch,
    /// Who served the group then.
    pub acting: Osds,
    /// Its acting devices that are up.
    pub up: Seq<OsdId>,
    /// Those that are down, and may come back with what they held.
    pub down: Seq<OsdId>,
    /// Those that were declared lost after it began.
    pub lost: Seq<OsdId>,
    /// Those that were destroyed.
    pub gone: Seq<OsdId>,
    /// Those of `down` that were declared lost before it began: that doesn't count for it.
    pub lost_before: Seq<OsdId>,
    /// What has become of its writes.
    pub writes: Writes,
}

/// What has become of the writes of a past interval, at best: if the copies of its members are complete.
#[derive(Clone, Copy)]
pub enum Writes {
    /// Those members that are up are enough to read them.
    Readable,
    /// Those that are up aren't enough, but would be with those that are down.
    Away,
    /// They can't be read any more: too many members were destroyed or declared lost.
    Gone,
}

impl IntervalNow {
    /// The interval as it is by these statuses of its devices; the map says which were ever declared lost.
    pub(crate) fn of<S: StatusOf>(
        alloc: Global,
        code: &AnyCode,
        statuses: &S,
        map: &OsdMap,
        interval: &Past,
    ) -> Result<IntervalNow, AllocError>
        ensures { IfOk result (λ told. told ≡ interval_now code.now (S.status_of statuses.now) (held_lost_at map.now) interval.now) }
    {
        let by_place = code.by_place();
        let up = osds_with(alloc, Status::Up, by_place, statuses, interval)?;
        let down = osds_with(alloc, Status::Down, by_place, statuses, interval)?;
        let lost = osds_with(alloc, Status::Lost, by_place, statuses, interval)?;
        let gone = osds_with(alloc, Status::Gone, by_place, statuses, interval)?;
        let lost_before = once_lost(alloc, map, down.as_slice())?;
        Ok(IntervalNow {
            first: interval.first,
            last: interval.last,
            acting: interval.members.acting.copy(),
            up,
            down,
            lost,
            gone,
            lost_before,
            writes: writes_by(code, statuses, interval),
        })
    }
}

/// The acting devices of the interval that have this status, in ascending order, each once.
fn osds_with<S: StatusOf>(
    alloc: Global,
    wanted: Status,
    by_place: bool,
    statuses: &S,
    interval: &Past,
) -> Result<Seq<OsdId>, AllocError>
    ensures { IfOk result (λ list. list ≡ ascending nat_lt (osds_with wanted by_place (S.status_of statuses.now) interval.now)) }
{
    let mut list = Vec::new(alloc);
    add_with(&mut list, wanted, by_place, statuses, interval)?;
    Ok(Seq::from_vec(list))
}

/// Adds the acting devices of the interval that have this status.
pub(crate) fn add_with<S: StatusOf>(
    list: &mut Vec<OsdId>,
    wanted: Status,
    by_place: bool,
    statuses: &S,
    interval: &Past,
) -> Result<(), AllocError>
    requires { IsAscending nat_lt list.old.items }
    ensures { OnOk result (list.new.items ≡ with_items nat_lt (osds_with wanted by_place (S.status_of statuses.now) interval.now) list.old.items) }
{
    for member in members_of(by_place, &interval.members.acting) {
        if is_status(wanted, statuses.status(member.osd, interval.first)) {
            insert_in_order(list, member.osd)?;
        }
    }
    Ok(())
}

/// Whether it is this status.
fn is_status(wanted: Status, status: Status) -> bool
    ensures { result ≡ is_status wanted status }
{
    status == wanted
}

/// Those of the devices that were ever declared lost.
fn once_lost(alloc: Global, map: &OsdMap, osds: &[OsdId]) -> Result<Seq<OsdId>, AllocError>
    ensures { IfOk result (λ list. list ≡ once_lost (held_lost_at map.now) osds.now) }
{
    let list: Vec<OsdId> = osds
        .iter()
        .copied()
        .filter(|osd| Epoch::new(0) < map.lost_at(*osd))
        .collect(alloc)?;
    Ok(Seq::from_vec(list))
}

/// What has become of what was written in the interval.
fn writes_by<S: StatusOf>(code: &AnyCode, statuses: &S, interval: &Past) -> Writes
    ensures { result ≡ writes_by code.now (S.status_of statuses.now) interval.now }
{
    if are_held(false, code, statuses, interval) {
        Writes::Readable
    } else if are_held(true, code, statuses, interval) {
        Writes::Away
    } else {
        Writes::Gone
    }
}

/// Whether those acting members of the interval are enough that are up, or, where those that are away count too, down.
pub(crate) fn are_held<S: StatusOf>(
    away: bool,
    code: &AnyCode,
    statuses: &S,
    interval: &Past,
) -> bool
    ensures { result ≡ are_held away code.now (S.status_of statuses.now) interval.now }
{
    let slots = add_held(SlotSet::empty(), away, code.by_place(), statuses, interval);
    code.enough(slots)
}

/// These slots, with those of the acting members of the interval that are up, or, where those that are away count too, down.
pub(crate) fn add_held<S: StatusOf>(
    held: SlotSet,
    away: bool,
    by_place: bool,
    statuses: &S,
    interval: &Past,
) -> SlotSet
    ensures { result ≡ with_items nat_lt (held_slots away by_place (S.status_of statuses.now) interval.now) held }
{
    let mut slots = held;
    for member in members_of(by_place, &interval.members.acting) {
        if is_held(away, statuses.status(member.osd, interval.first)) {
            slots = slots.with(member.slot);
        }
    }
    slots
}

/// Whether a device of this status still has what it held: it is up, or, where those that are away count too, down.
fn is_held(away: bool, status: Status) -> bool
    ensures { result ≡ holds_still away status }
{
    match status {
        Status::Up => true,
        Status::Down => away,
        Status::Gone | Status::Lost => false,
    }
}
