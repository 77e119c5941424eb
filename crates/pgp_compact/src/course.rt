//! The intervals of a group.

ghost use Rattle.std.specs.Prelude.{◌≡◌, ◌≤◌, ◌&&◌, ◌||◌, [], List, not, Some, true, false, find, option_map, OnOk};
ghost use Rattle.pgp_code.specs.AnyCode.{enough_of, is_by_place};
ghost use Rattle.pgp_ids.specs.declared.entry.Entry.{Entry as AnyEntry};
ghost use Rattle.pgp_ids.specs.declared.incremental.Incremental.{Incremental as AnyIncremental};
ghost use Rattle.pgp_interval.specs.ReadWrite.{can_write, is_recorded};
ghost use Rattle.pgp_interval.specs.Runs.{current_first};
ghost use Rattle.pgp_interval.specs.SameMembers.{is_same};
ghost use Rattle.pgp_map.specs.Map.{epoch};
ghost use Rattle.pgp_map.specs.MapFault.{then_with};
ghost use Rattle.pgp_group.specs.Entries.{incs_of};
ghost use Rattle.pgp_group.specs.GroupLog.{GroupLog, group_in};
ghost use Rattle.pgp_group.specs.Heard.{les};
ghost use Rattle.pgp_log.specs.Log.{is_legal};
ghost use Rattle.pgp_log.specs.MapBefore.{IsMapBefore};
ghost use Rattle.pgp_compact.specs.Compacted.{is_in_span, past_spans, wants_clean};
ghost use Rattle.pgp_compact.specs.kept.Course.{IsCourse, IsNext, IsOnCourse, CanGoOn, LiesAt, ended};
ghost use Rattle.pgp_compact.specs.kept.Courses.{started_by};
ghost use Rattle.pgp_compact.specs.kept.Standing.{HasReached, opening_in, standing_at};
ghost use Rattle.pgp_compact.specs.declared.group_place.GroupPlace.{GroupPlace as AnyPlace};

use super::group_place::GroupPlace;
use pgp_code::{AnyCode, Recoverable};
use pgp_ids::{Epoch, Incremental, Membership, PgId, PrimaryFacts};
use pgp_interval::acting_slots;
use pgp_log::MapBefore;
use pgp_map::OsdMap;
use std::alloc::{AllocError, Global};

/// The epochs of an interval of a group, the first and the last of them.
#[derive(Clone, Copy)]
pub(crate) struct Span {
    pub(crate) first: Epoch,
    pub(crate) last: Epoch,
}

impl Span {
    /// The epoch is one of these.
    pub(crate) fn holds(&self, epoch: Epoch) -> bool
        ensures { result ≡ is_in_span epoch self.now }
    {
        self.first <= epoch && epoch <= self.last
    }
}

/// What decides, beside the reports that come later, which reports of a group are needed.
#[derive(Clone, Copy)]
pub(crate) struct Standing {
    /// The first epoch of the current interval.
    pub(crate) first: Epoch,
    /// The last epoch in which the group is known to have begun to serve.
    pub(crate) les: Epoch,
    /// The first epoch of the interval in which the group was clean, by a report; `None` if the report names no epoch of the
    /// group's life.
    pub(crate) opening: Option<Epoch>,
}

/// A group as one map follows another: where it lies, when its current interval began, and in which of its past intervals clean
/// epochs can matter.
#[derive(Drop)]
pub(crate) struct Course {
    pub(crate) pg: PgId,
    /// The last epoch in which the group is known to have begun to serve, by the whole log.
    pub(crate) les: Epoch,
    /// Where the group lies by the last map, if that has the group.
    place: Option<GroupPlace>,
    /// The first epoch of its current interval, if the last map has the group.
    first: Epoch,
    /// The past intervals in which clean epochs can matter, in ascending order.
    spans: Vec<Span>,
}

impl Course {
    /// The group before any map. It takes no memory.
    pub(crate) fn new(alloc: Global, pg: PgId, les: Epoch) -> Self
        ensures is { IsCourse [] result }
        ensures pg { result.pg ≡ pg }
        ensures les { result.les ≡ les }
    {
        Course {
            pg,
            les,
            place: None,
            first: Epoch::new(0),
            spans: Vec::new(alloc),
        }
    }

    /// Takes the next map, which this incremental makes. If the group lies as before, it asks for no placement and takes no
    /// memory. After an `Err` the value must not be used again.
    pub(crate) fn absorb(
        &mut self,
        before: &MapBefore,
        after: &OsdMap,
        inc: &Incremental,
    ) -> Result<(), AllocError>
        requires { CanGoOn self.old inc.now after.now }
        ensures ok { OnOk result ((incs : List AnyIncremental) → IsNext incs inc.now after.now → IsMapBefore incs inc.now before.now
            → IsCourse incs self.old → IsCourse (then_with incs inc.now) self.new) }
        ensures pg { self.new.pg ≡ self.old.pg }
        ensures les { self.new.les ≡ self.old.les }
    {
        let Some(place) = &self.place else {
            if after.has_group(&self.pg) {
                self.first = after.epoch();
                self.place = Some(GroupPlace::at(after, &self.pg));
            }
            return Ok(());
        };
        if !place.may_leave(&self.pg, inc) {
            return Ok(());
        }
        let next = place.next(after, &self.pg, inc);
        if is_same(&place.members, &next.members) {
            self.place = Some(next);
            return Ok(());
        }
        self.leave(before, after, next)
    }

    /// The current interval ends just before the map, and another begins, in which the group lies there. After an `Err` the value must
    /// not be used again.
    fn leave(
        &mut self,
        before: &MapBefore,
        after: &OsdMap,
        next: GroupPlace,
    ) -> Result<(), AllocError>
        ensures ok { OnOk result ((incs : List AnyIncremental) (inc : AnyIncremental) (place : AnyPlace) → IsNext incs inc after.now
            → IsMapBefore incs inc before.now → self.old.place ≡ Some place → is_same place.members next.members ≡ false
            → LiesAt (then_with incs inc) self.old.pg next → IsCourse incs self.old → IsCourse (then_with incs inc) self.new) }
        ensures pg { self.new.pg ≡ self.old.pg }
        ensures les { self.new.les ≡ self.old.les }
    {
        if self.wants_clean(before, after) {
            self.spans.push(Span {
                first: self.first,
                last: after.epoch().before(),
            })?;
        }
        self.first = after.epoch();
        self.place = Some(next);
        Ok(())
    }

    /// Whether clean epochs of the current interval can matter where it ends just before the map.
    fn wants_clean(&self, before: &MapBefore, after: &OsdMap) -> bool
        ensures { (incs : List AnyIncremental) (inc : AnyIncremental) (place : AnyPlace) → IsNext incs inc after.now
            → IsMapBefore incs inc before.now → self.now.place ≡ Some place
            → (way : IsOnCourse incs self.now.pg self.now.les self.now.first self.now.spans.items place)
            → result ≡ wants_clean way.history.code self.now.les (ended incs inc way.history) }
    {
        let Some(place) = &self.place else {
            return true;
        };
        let Some(pool) = after.pool(self.pg.pool) else {
            return true;
        };
        let can = can_write(&AnyCode::of_pool(pool.kind), &place.members);
        let facts = before.facts(after, place.members.acting_primary);
        can_matter(
            can,
            is_recorded(facts, self.first),
            self.les < after.epoch(),
        )
    }

    /// What decides which reports of the group are needed, where an info says that it was clean in the epoch `clean`; `None` if the
    /// last map doesn't have the group.
    pub(crate) fn standing(&self, clean: Epoch) -> Option<Standing>
        ensures { (log : List AnyEntry) → is_legal log ≡ true → IsCourse (incs_of log) self.now
            → self.now.les ≡ started_by log self.now.pg → clean ≤ epoch (incs_of log)
            → result ≡ option_map (standing_at clean) (group_in log self.now.pg) }
    {
        if self.place.is_none() {
            return None;
        }
        Some(Standing {
            first: self.first,
            les: self.les,
            opening: self.opening(clean),
        })
    }

    /// The first epoch of the interval that holds the epoch `clean`, where clean epochs of it can matter.
    fn opening(&self, clean: Epoch) -> Option<Epoch>
        ensures { (g : GroupLog) → self.now.first ≡ current_first g.history → self.now.spans.items ≡ past_spans g.history (les g)
            → HasReached g clean → result ≡ opening_in g clean }
    {
        if self.first <= clean {
            Some(self.first)
        } else {
            opening(self.spans.as_slice(), clean)
        }
    }
}

/// The first epoch of the one of these intervals that holds the epoch, if one does.
fn opening(spans: &[Span], epoch: Epoch) -> Option<Epoch>
    ensures { result ≡ option_map (λ span. span.first) (find (is_in_span epoch) spans.now) }
{
    spans
        .iter()
        .find(|span| span.holds(epoch))
        .map(|span| span.first)
}

/// Whether clean epochs of an interval can matter: its members could serve writes, and either no map records that they may have
/// done so, or it ended no earlier than the group last began to serve.
fn can_matter(can: bool, is_recorded: bool, is_late: bool) -> bool
    ensures { result ≡ (can && (not is_recorded || is_late)) }
{
    can && (!is_recorded || is_late)
}

/// Whether a group of this code can serve writes with these members.
fn can_write(code: &AnyCode, members: &Membership) -> bool
    ensures { result ≡ can_write (enough_of code.now) (is_by_place code.now) members.now }
{
    members.acting.osd_count() >= usize::from(members.min_size)
        && members.acting_primary.is_some()
        && code.enough(acting_slots(code.by_place(), &members.acting))
}

/// Whether the primary, of which a map says this, was recorded as up in an interval that began at the epoch `first`.
fn is_recorded(facts: PrimaryFacts, first: Epoch) -> bool
    ensures { result ≡ is_recorded facts first }
{
    first <= facts.up_thru && facts.up_from <= first
}

/// Whether the group lies in the same place by both, so that its interval goes on.
fn is_same(a: &Membership, b: &Membership) -> bool
    ensures { result ≡ is_same a.now b.now }
{
    a == b
}
