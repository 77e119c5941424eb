//! What a shard reads first of each of its groups where an incremental comes.

ghost use Rattle.std.specs.List.{list_any};
ghost use Rattle.std.specs.Prelude.{◌≡◌, List, not, true};
ghost use Rattle.pgp_ids.specs.declared.incremental.Incremental.{Incremental as AnyIncremental};
ghost use Rattle.pgp_ids.specs.declared.pg_id.PgId.{PgId as Id};
ghost use Rattle.pgp_map.specs.MapFault.{then_with};
ghost use Rattle.pgp_map.specs.MapOf.{IsMapOf};
ghost use Rattle.pgp_map.specs.NumberSet.{has};
ghost use Rattle.pgp_map.specs.Pools.{is_same_group};
ghost use Rattle.pgp_log.specs.MapBefore.{IsMapBefore, moves_some};
ghost use Rattle.pgp_shard.specs.kept.Rows.{IsChangesOf, may_concern, may_place_group, temp_key};

use super::osd_filter::OsdFilter;
use pgp_ids::{Incremental, PgId, TempList};
use pgp_log::{
    MapBefore, changes_no_pool, changes_placements, changes_pool, changes_temp, moves_all,
};
use pgp_map::{NumberSet, OsdMap};

/// What of a group an incremental is compared with first. Rows lie side by side in memory, so that a shard passes by the groups
/// that an incremental doesn't touch without a look at what it keeps of them.
#[derive(Clone, Copy)]
pub(crate) struct Row {
    pub(crate) pg: PgId,
    /// The group has to be worked out: nothing but a move concerns it.
    pub(crate) marked: bool,
    /// The devices on which the group may lie and, where it isn't marked, those with which it has to do.
    pub(crate) devices: OsdFilter,
}

impl Row {
    /// Whether the group stays as it is: the incremental doesn't move it and, where it isn't marked, doesn't touch it.
    pub(crate) fn is_passed_by(&self, changes: &Changes, inc: &Incremental) -> bool
        ensures { result ≡ not (may_concern changes.now inc.now self.now) }
    {
        let (places, devices) = if self.marked {
            (changes.moves, changes.movers)
        } else {
            (changes.places, changes.devices)
        };
        let placed = places && changes.may_place_group(inc, &self.pg);
        !placed && !self.devices.shares(devices)
    }
}

/// What an incremental changes, as far as rows are compared with it.
#[derive(Drop)]
pub(crate) struct Changes {
    /// It may change where some group lies, whatever becomes of devices.
    places: bool,
    /// It may, otherwise than by weights by which no device gets heavier: these move a group only if it lies on a device that is
    /// weighed.
    moves: bool,
    /// The keys of the groups that it gives pg_temp lists, or takes them from.
    temps: NumberSet,
    /// The devices that it boots, takes down, destroys or weighs.
    movers: OsdFilter,
    /// Those, and the devices of which it tells.
    devices: OsdFilter,
}

impl Changes {
    /// What the incremental changes, which leads from the map before to the one after.
    pub(crate) fn of(before: &MapBefore, after: &OsdMap, inc: &Incremental) -> Self
        ensures { IsChangesOf inc.now before.now after.now result }
    {
        let mut movers = OsdFilter::empty();
        movers.add_all(inc.up.as_slice());
        movers.add_all(inc.down.as_slice());
        movers.add_all(inc.gone.as_slice());
        movers.add_weighed(inc.weight.as_slice());
        let mut devices = movers;
        devices.add_dated(inc.up_thru.as_slice());
        devices.add_dated(inc.lost.as_slice());
        Changes {
            places: changes_placements(inc),
            moves: moves_some(before, after, inc),
            temps: keys_of(inc.temp.as_slice()),
            movers,
            devices,
        }
    }

    /// The incremental, of which these are the changes, may change where the group lies, whatever becomes of devices. Its pg_temp
    /// lists are looked through for few groups that have none there.
    fn may_place_group(&self, inc: &Incremental, pg: &PgId) -> bool
        ensures { result ≡ may_place_group self.now inc.now pg.now }
    {
        moves_all(inc)
            || changes_pool(inc, pg.pool)
            || self.temps.contains(temp_key(*pg)) && changes_temp(inc, pg)
    }
}

/// The incremental, which leads from the map before to the one after, may change where some group lies, whatever becomes of devices,
/// otherwise than by weights by which no device gets heavier.
fn moves_some(before: &MapBefore, after: &OsdMap, inc: &Incremental) -> bool
    ensures { (incs : List AnyIncremental) → IsMapBefore incs inc.now before.now → IsMapOf (then_with incs inc.now) after.now
        → result ≡ moves_some incs inc.now }
{
    // Weights by which no device gets heavier can only take devices out.
    let only_lightens = inc.crush.is_none() && changes_no_pool(inc) && !before.makes_heavier(after);
    changes_placements(inc) && !only_lightens
}

/// The keys of the groups of which these are the pg_temp lists.
fn keys_of(temps: &[TempList]) -> NumberSet
    ensures { (pg : Id) → list_any (λ given. is_same_group given.pg pg) temps.now ≡ true → has result (temp_key pg) ≡ true }
{
    let mut keys = NumberSet::empty();
    for given in temps {
        keys.insert(temp_key(given.pg));
    }
    keys
}

/// By which number a group is looked for among those of pg_temp lists. Few groups of a map have the same one.
fn temp_key(pg: PgId) -> u16
    ensures { result ≡ temp_key pg }
{
    ((u32::from(pg.pool.number()) * 257 + u32::from(pg.pg)) % 4096) as u16
}
