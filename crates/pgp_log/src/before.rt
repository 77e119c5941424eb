//! What the map before an incremental said.

ghost use Rattle.std.specs.Prelude.{◌≡◌, ◌++◌, List, true, false, map as each, IfOk, OnOk};
ghost use Rattle.pgp_ids.specs.declared.incremental.Incremental.{Incremental as AnyIncremental};
ghost use Rattle.pgp_map.specs.Held.{HasGroup};
ghost use Rattle.pgp_map.specs.MapFault.{then_with};
ghost use Rattle.pgp_map.specs.MapOf.{IsMapOf, Says};
ghost use Rattle.pgp_sets.specs.Sets.{may_place_elsewhere, moves, switches_any, weighed};
ghost use Rattle.pgp_group.specs.GroupHistory.{primary_facts};
ghost use Rattle.pgp_log.specs.MapBefore.{IsMapBefore, makes_heavier, with_facts};
ghost use Rattle.pgp_log.specs.RawSets.{IsRawSet};

use super::touch::has_sizes;
use pgp_group::primary_facts;
use pgp_ids::{DeviceEpoch, DeviceWeight, Epoch, Incremental, OsdId, PgId, Place, PrimaryFacts};
use pgp_map::OsdMap;
use pgp_sets::switches_any;
use std::alloc::{AllocError, Global};

/// What the map before an incremental said, as far as a group still asks for it when the map has taken the incremental: its
/// epoch, what it said as primaries of the devices that the incremental boots, or of whose up_thru it tells, and the weights of
/// those that the incremental weighs. Of every other device both maps say the same.
#[derive(Drop)]
pub struct MapBefore {
    pub epoch: Epoch,
    devices: Vec<DeviceFacts>,
    weights: Vec<DeviceWeight>,
}

/// What a map says of a device as a primary.
#[derive(Drop)]
pub(crate) struct DeviceFacts {
    osd: OsdId,
    facts: PrimaryFacts,
}

/// How many weights of an incremental a group asks about, before it is placed anew for them: a placement is cheaper.
const MOST_TESTED: usize = 16;

impl MapBefore {
    /// What the map says, which is to take the incremental next.
    pub fn of(alloc: Global, map: &OsdMap, inc: &Incremental) -> Result<Self, AllocError>
        ensures { IfOk result (λ before. Says map.now (λ incs. IsMapBefore incs inc.now before)) }
    {
        let mut devices = Vec::new(alloc);
        note_booted(&mut devices, map, inc.up.as_slice())?;
        note_dated(&mut devices, map, inc.up_thru.as_slice())?;
        Ok(MapBefore {
            epoch: map.epoch(),
            devices,
            weights: weights_before(alloc, map, inc.weight.as_slice())?,
        })
    }

    /// Whether the group is to be placed anew by the incremental, since the tree may put it elsewhere than on these places, its raw
    /// set so far. `after` is the map with the incremental.
    pub fn places_anew(&self, after: &OsdMap, inc: &Incremental, pg: &PgId, raw: &[Place]) -> bool
        requires { HasGroup after.now pg.now }
        ensures stays { result ≡ false → (incs : List AnyIncremental) → IsMapBefore incs inc.now self.now → IsRawSet incs pg.now raw.now
            → IsMapOf (then_with incs inc.now) after.now → may_place_elsewhere incs inc.now pg.now ≡ false }
        ensures moves { result ≡ true → (incs : List AnyIncremental) → IsMapBefore incs inc.now self.now
            → moves inc.now pg.now.pool ≡ true }
    {
        inc.crush.is_some()
            || has_sizes(inc.sizes.as_slice(), pg.pool)
            || !inc.weight.is_empty()
                && (self.weights.len() > MOST_TESTED
                    || switches_any(after, pg, raw, self.weights.as_slice()))
    }

    /// Whether one of the devices that the incremental weighs gets heavier. `after` is the map with the incremental.
    pub fn makes_heavier(&self, after: &OsdMap) -> bool
        ensures { Says after.now (λ incs. result ≡ makes_heavier incs self.now.weights.items) }
    {
        for old in self.weights.as_slice() {
            if after.weight(old.osd) > old.weight {
                return true;
            }
        }
        false
    }

    /// What that map said of an acting primary. `after` is the map with the incremental.
    pub fn facts(&self, after: &OsdMap, primary: Option<OsdId>) -> PrimaryFacts
        ensures { (incs : List AnyIncremental) (inc : AnyIncremental) → IsMapBefore incs inc self.now
            → IsMapOf (then_with incs inc) after.now → result ≡ primary_facts incs primary }
    {
        let Some(osd) = primary else {
            return primary_facts(after, primary);
        };
        for device in self.devices.as_slice() {
            if device.osd == osd {
                return device.facts;
            }
        }
        primary_facts(after, primary)
    }
}

/// Each device that is weighed, with its weight by the map.
fn weights_before(
    alloc: Global,
    map: &OsdMap,
    all: &[DeviceWeight],
) -> Result<Vec<DeviceWeight>, AllocError>
    ensures { IfOk result (λ weights. Says map.now (λ incs. weights.items ≡ each (weighed incs) all.now)) }
{
    let mut weights = Vec::new(alloc);
    for given in all {
        weights.push(DeviceWeight {
            osd: given.osd,
            weight: map.weight(given.osd),
        })?;
    }
    Ok(weights)
}

/// Notes what the map says of each of these devices.
fn note_booted(
    devices: &mut Vec<DeviceFacts>,
    map: &OsdMap,
    osds: &[OsdId],
) -> Result<(), AllocError>
    ensures { OnOk result (Says map.now (λ incs. devices.new.items ≡ devices.old.items ++ each (with_facts incs) osds.now)) }
{
    for osd in osds {
        devices.push(device_facts(map, *osd))?;
    }
    Ok(())
}

/// Notes what the map says of each device of which this is told.
fn note_dated(
    devices: &mut Vec<DeviceFacts>,
    map: &OsdMap,
    all: &[DeviceEpoch],
) -> Result<(), AllocError>
    ensures { OnOk result (Says map.now (λ incs. devices.new.items ≡ devices.old.items ++ each (with_facts incs) (each (λ told. told.osd) all.now))) }
{
    for told in all {
        devices.push(device_facts(map, told.osd))?;
    }
    Ok(())
}

fn device_facts(map: &OsdMap, osd: OsdId) -> DeviceFacts
    ensures { Says map.now (λ incs. result ≡ with_facts incs osd) }
{
    DeviceFacts {
        osd,
        facts: primary_facts(map, Some(osd)),
    }
}
