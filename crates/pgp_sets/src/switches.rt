//! Weights by which a device comes in for a group or goes out of its raw set.

ghost use Rattle.std.specs.List.{list_any};
ghost use Rattle.std.specs.Prelude.{◌≡◌};
ghost use Rattle.pgp_map.specs.Devices.{weight};
ghost use Rattle.pgp_map.specs.Held.{HasGroup};
ghost use Rattle.pgp_map.specs.MapOf.{Says};
ghost use Rattle.pgp_sets.specs.Sets.{has_osd, switches, switches_any};

use super::membership::{placement_input, pool_of};
use pgp_crush::is_in_by;
use pgp_ids::{DeviceWeight, OsdId, PgId, Place};
use pgp_map::OsdMap;

/// Whether one of these devices, which had these weights before this map, comes in for the group by the weight that it has now, or
/// goes out of these places, which the tree gave the group before. If it is so of no device that was
/// weighed, and neither a tree nor sizes of the pool came, the group stays there ([`laws`](crate::laws)). No memory is taken.
pub fn switches_any(after: &OsdMap, pg: &PgId, places: &[Place], before: &[DeviceWeight]) -> bool
    requires { HasGroup after.now pg.now }
    ensures { Says after.now (λ incs. result ≡ switches_any incs pg.now places.now before.now) }
{
    if before.is_empty() {
        return false;
    }
    let x = placement_input(&pool_of(after, pg), pg);
    switches_any_for(x, after, places, before)
}

/// Whether one of the devices is switched for this input, which gave these places.
fn switches_any_for(x: u32, after: &OsdMap, places: &[Place], before: &[DeviceWeight]) -> bool
    ensures { Says after.now (λ incs. result ≡ list_any (λ old. switches x places.now old.osd old.weight (weight incs old.osd)) before.now) }
{
    for old in before {
        if switches(x, places, old.osd, old.weight, after.weight(old.osd)) {
            return true;
        }
    }
    false
}

/// Whether the device comes in by its new weight, or goes out of the places. A device that gets lighter never comes in: it is looked
/// for among the places first, since a hash takes longer.
#[tactic(auto, using(crate::proofs::RawSetLemmas::switch_by_weight))]
fn switches(x: u32, places: &[Place], osd: OsdId, before: u32, after: u32) -> bool
    ensures { result ≡ switches x places.now osd before after }
{
    if after > before {
        !is_in_by(before, x, osd) && is_in_by(after, x, osd)
    } else {
        after < before
            && has_osd(places, osd)
            && is_in_by(before, x, osd)
            && !is_in_by(after, x, osd)
    }
}

/// The device stands in the list.
pub fn has_osd(places: &[Place], osd: OsdId) -> bool
    ensures { result ≡ has_osd osd places.now }
{
    places.iter().any(|place| Some(osd) == place.osd())
}
