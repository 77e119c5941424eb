//! What a shard keeps of one of its groups.

ghost use Rattle.std.specs.List.{list_any};
ghost use Rattle.std.specs.Prelude.{◌≡◌, ◌||◌, ◌++◌, [], ◌∷◌, List, Some, None, true, false, length, is_some, OnOk, OnErr};
ghost use Rattle.pgp_ids.specs.declared.entry.Entry.{Entry as AnyEntry};
ghost use Rattle.pgp_ids.specs.declared.entry.Entry.TheVariants as entry;
ghost use Rattle.pgp_ids.specs.declared.incremental.Incremental.{Incremental as AnyIncremental};
ghost use Rattle.pgp_map.specs.Held.{HasGroup};
ghost use Rattle.pgp_map.specs.MapFault.{then_with};
ghost use Rattle.pgp_map.specs.MapOf.{IsMapOf};
ghost use Rattle.pgp_map.specs.Pools.{has_group, temp};
ghost use Rattle.pgp_group.specs.Entries.{inc_of, incs_of};
ghost use Rattle.pgp_group.specs.GroupOf.{TellsNothingAhead};
ghost use Rattle.pgp_group.specs.Touched.{is_touched, has_to_do_with, may_move};
ghost use Rattle.pgp_shard.specs.kept.KeptGroup.{IsKeptOf, OfKeptLog, IsStep, CanStep, StepsOn, IsTouchedBy, IsWorkedOut, KeepsView, is_newer, lacks_view};
ghost use Rattle.pgp_shard.specs.kept.Rows.{IsRowOf};
ghost use Rattle.pgp_log.specs.Log.{epoch_of};
ghost use Rattle.pgp_log.specs.RawSets.{IsRawSet};
ghost use Rattle.pgp_log.specs.declared.before.MapBefore.{MapBefore as AnyBefore};

use super::osd_filter::OsdFilter;
use super::row::Row;
use pgp_group::Group;
use pgp_ids::{DeviceEpoch, Entry, Epoch, Incremental, OsdId, Osds, PgId, View};
use pgp_log::{MapBefore, changes_placement, changes_pool, changes_temp, stands_in, turns_place};
use pgp_map::OsdMap;
use pgp_sets::{filter, raw};
use std::alloc::{AllocError, Global};

/// A group, as the entries so far tell of it.
///
/// It sleeps through the maps by which it lies as before: `group` is told of their epochs only where something more happens to
/// it, or where it is worked out. The view stands first, so that what entries look at of the rest lies side by side in memory.
#[derive(Drop)]
pub(crate) struct KeptGroup {
    /// What the entries said of the group when it was last worked out, except for count and epoch. Not there before that, and
    /// where something touched the group since.
    pub(crate) view: Option<View>,
    pub(crate) pg: PgId,
    /// Where the tree of the last map puts the group.
    raw: Osds,
    /// The group's pg_temp list by the last map.
    temp: Osds,
    group: Group,
}

impl KeptGroup {
    /// The group, which the incremental that leads to this map brings. It takes no memory.
    pub(crate) fn begin(alloc: Global, after: &OsdMap, pg: PgId) -> Self
        requires { HasGroup after.now pg }
        ensures is { (log : List AnyEntry) (inc : AnyIncremental) (before : AnyBefore) → IsStep log inc before after.now
            → has_group (incs_of log) pg ≡ false → has_group (then_with (incs_of log) inc) pg ≡ true
            → IsKeptOf (log ++ entry.Inc inc ∷ []) result }
        ensures marked { lacks_view result ≡ true }
        ensures pg { result.pg ≡ pg }
    {
        let raw = raw(after, &pg);
        let members = filter(after, &pg, &raw);
        KeptGroup {
            view: None,
            pg,
            raw,
            temp: after.copied_temp(pg),
            group: Group::begin_members(alloc, after, pg, members),
        }
    }

    /// The group has to be worked out: it never was, or something touched it since.
    pub(crate) fn is_marked(&self) -> bool
        ensures { result ≡ lacks_view self.now }
    {
        self.view.is_none()
    }

    /// The group has to be worked out, or was when more than this many entries were read.
    pub(crate) fn is_newer(&self, count: usize) -> bool
        ensures { result ≡ is_newer count self.now }
    {
        match &self.view {
            Some(view) => count < view.count,
            None => true,
        }
    }

    /// The row by which an incremental passes the group by.
    pub(crate) fn row(&self) -> Row
        ensures { IsRowOf result self.now }
    {
        let mut devices = OsdFilter::empty();
        devices.add_places(self.raw.as_slice());
        devices.add_places(self.temp.as_slice());
        let marked = self.is_marked();
        if !marked {
            devices.add_all(self.group.named());
        }
        Row {
            pg: self.pg,
            marked,
            devices,
        }
    }

    /// Takes an incremental, which leads from the map before to the one after. Where the group lies as before, that takes no
    /// placement and no memory: the group sleeps on, and one that isn't marked is compared with the incremental. After an `Err` it
    /// is of no further use.
    pub(crate) fn absorb_inc(
        &mut self,
        before: &MapBefore,
        after: &OsdMap,
        inc: &Incremental,
    ) -> Result<(), AllocError>
        requires { CanStep self.old inc.now before.now after.now }
        ensures ok { OnOk result (StepsOn inc.now before.now after.now self.old self.new) }
        ensures marks { OnOk result (KeepsView inc.now before.now after.now self.old self.new) }
        ensures marked { OnOk result (lacks_view self.old ≡ true → lacks_view self.new ≡ true) }
        ensures stays { OnOk result (lacks_view self.new ≡ false → self.new.view ≡ self.old.view) }
        ensures wants { OnErr result (IsTouchedBy inc.now before.now after.now self.old) }
        ensures pg { self.new.pg ≡ self.old.pg }
    {
        if self.may_move(before, after, inc) {
            self.move_on(before, after, inc)?;
        } else if self.is_marked() || !self.is_touched(inc) {
            return Ok(());
        }
        self.view = None;
        Ok(())
    }

    /// Takes an incremental that may move the group, all but the view, which is to be forgotten.
    fn move_on(
        &mut self,
        before: &MapBefore,
        after: &OsdMap,
        inc: &Incremental,
    ) -> Result<(), AllocError>
        requires { CanStep self.old inc.now before.now after.now }
        ensures ok { OnOk result (StepsOn inc.now before.now after.now self.old (record self.new { view = None })) }
        ensures pg { self.new.pg ≡ self.old.pg }
    {
        self.place_anew(before, after, inc);
        let members = filter(after, &self.pg, &self.raw);
        self.group.stay(before.epoch);
        let facts = before.facts(after, self.group.primary());
        self.group.absorb_members(after, members, facts)
    }

    /// Takes the pg_temp list of the new map, and places the group anew where the tree may put it elsewhere.
    fn place_anew(&mut self, before: &MapBefore, after: &OsdMap, inc: &Incremental)
        requires { HasGroup after.now self.old.pg }
        ensures raw { OfKeptLog self.old (λ log. IsStep log inc.now before.now after.now
            → IsRawSet (incs_of (log ++ entry.Inc inc.now ∷ [])) self.old.pg self.new.raw) }
        ensures temp { (log : List AnyEntry) → IsStep log inc.now before.now after.now
            → self.new.temp ≡ temp (incs_of (log ++ entry.Inc inc.now ∷ [])) self.old.pg }
        ensures group { self.new.group ≡ self.old.group }
        ensures pg { self.new.pg ≡ self.old.pg }
    {
        self.temp = after.copied_temp(self.pg);
        if before.places_anew(after, inc, &self.pg, self.raw.as_slice()) {
            self.raw = raw(after, &self.pg);
        }
    }

    /// Whether the group may lie elsewhere by the incremental, which leads from the map before to the one after.
    fn may_move(&self, before: &MapBefore, after: &OsdMap, inc: &Incremental) -> bool
        requires { HasGroup after.now self.now.pg }
        ensures stays { result ≡ false → OfKeptLog self.now (λ log. IsStep log inc.now before.now after.now
            → may_move (incs_of log) inc.now self.now.pg ≡ false) }
        ensures touches { result ≡ true → IsTouchedBy inc.now before.now after.now self.now }
    {
        before.places_anew(after, inc, &self.pg, self.raw.as_slice())
            || changes_pool(inc, self.pg.pool)
            || changes_temp(inc, &self.pg)
            || turns_place(inc, &self.raw, &self.temp)
    }

    /// Whether the incremental touches the group.
    fn is_touched(&self, inc: &Incremental) -> bool
        ensures { OfKeptLog self.now (λ log. result ≡ is_touched log (entry.Inc inc.now) self.now.pg) }
    {
        changes_placement(inc, &self.pg) || self.knows_changed(inc)
    }

    /// Whether the group has to do with a device whose state the incremental changes.
    fn knows_changed(&self, inc: &Incremental) -> bool
        ensures { OfKeptLog self.now (λ log. let knows = has_to_do_with log self.now.pg in
            result ≡ (list_any knows inc.now.up || list_any knows inc.now.down || list_any knows inc.now.gone
            || list_any (λ told. knows told.osd) inc.now.up_thru || list_any (λ told. knows told.osd) inc.now.lost)) }
    {
        self.knows_any(inc.up.as_slice())
            || self.knows_any(inc.down.as_slice())
            || self.knows_any(inc.gone.as_slice())
            || self.knows_dated(inc.up_thru.as_slice())
            || self.knows_dated(inc.lost.as_slice())
    }

    /// Whether the group has to do with one of these devices.
    fn knows_any(&self, osds: &[OsdId]) -> bool
        ensures { OfKeptLog self.now (λ log. result ≡ list_any (has_to_do_with log self.now.pg) osds.now) }
    {
        for osd in osds {
            if self.knows(*osd) {
                return true;
            }
        }
        false
    }

    /// Whether the group has to do with a device of which this is told.
    fn knows_dated(&self, all: &[DeviceEpoch]) -> bool
        ensures { OfKeptLog self.now (λ log. result ≡ list_any (λ told. has_to_do_with log self.now.pg told.osd) all.now) }
    {
        for told in all {
            if self.knows(told.osd) {
                return true;
            }
        }
        false
    }

    /// Whether the group has to do with the device: it stands in the raw set, in pg_temp or in a past interval, or sent a
    /// report.
    #[tactic(auto, using(crate::proofs::RowLemmas::lies_there))]
    fn knows(&self, osd: OsdId) -> bool
        ensures { OfKeptLog self.now (λ log. result ≡ has_to_do_with log self.now.pg osd) }
    {
        stands_in(&self.raw, &self.temp, osd) || self.group.names(osd)
    }

    /// Takes a report of the group, or another entry that brings no map. `epoch` is the current one. After an `Err` it is of no
    /// further use.
    pub(crate) fn absorb_report(&mut self, entry: &Entry, epoch: Epoch) -> Result<(), AllocError>
        ensures ok { OnOk result ((log : List AnyEntry) → inc_of entry.now ≡ None → epoch ≡ epoch_of log
            → TellsNothingAhead log self.old.pg entry.now → IsKeptOf log self.old → IsKeptOf (log ++ entry.now ∷ []) self.new) }
        ensures marked { lacks_view self.new ≡ true }
        ensures pg { self.new.pg ≡ self.old.pg }
    {
        self.view = None;
        self.group.stay(epoch);
        self.group.absorb_report(entry)
    }

    /// Works out what the entries say of the group, where something touched it since that was last done. `map` is the last
    /// map, and `count` the number of entries. A group that isn't marked takes no memory. After an `Err` it stands for the same
    /// log.
    pub(crate) fn renew(&mut self, map: &OsdMap, count: usize) -> Result<(), AllocError>
        ensures kept { OfKeptLog self.old (λ log. IsMapOf (incs_of log) map.now → length log ≡ count → IsKeptOf log self.new) }
        ensures marks { OnOk result (is_some self.new.view ≡ true) }
        ensures worked { OfKeptLog self.old (λ log. IsMapOf (incs_of log) map.now → length log ≡ count → IsWorkedOut count self.old self.new) }
        ensures wants { OnErr result (lacks_view self.old ≡ true) }
        ensures pg { self.new.pg ≡ self.old.pg }
    {
        if self.is_marked() {
            self.group.stay(map.epoch());
            self.view = Some(self.group.view(map, count)?);
        }
        Ok(())
    }
}
