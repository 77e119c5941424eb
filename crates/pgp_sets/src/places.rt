//! Lists of devices, without those that aren't up.

ghost use Rattle.std.specs.Prelude.{◌≡◌, ◌≤◌, false, length};
ghost use Rattle.std.specs.Option.{option_map_or};
ghost use Rattle.pgp_map.specs.Held.{held_up};
ghost use Rattle.pgp_map.specs.MapOf.{Says};
ghost use Rattle.pgp_sets.specs.Sets.{without_down};

use pgp_ids::{MAX_OSDS, Osds, Place, PoolSpec};
use pgp_map::OsdMap;

/// The list without devices that aren't up. In an erasure or grouped pool their places are empty, in a replicated one they
/// are left out.
pub(crate) fn without_down(map: &OsdMap, pool: &PoolSpec, places: &[Place]) -> Osds
    requires { length places.now ≤ MAX_OSDS }
    ensures { Says map.now (λ incs. result ≡ without_down incs pool.now places.now) }
{
    let keeps_places = pool.kind.is_by_place();
    let mut osds = Osds::new();
    for place in places {
        if holds_up(map, *place) {
            osds.push(*place);
        } else if keeps_places {
            osds.push(Place::new(None));
        }
    }
    osds
}

/// Whether the place holds a device that is up.
fn holds_up(map: &OsdMap, place: Place) -> bool
    ensures { result ≡ option_map_or (held_up map.now) place false }
{
    match place.osd() {
        Some(osd) => map.is_up(osd),
        None => false,
    }
}
