//! The tests of an incremental's pg_temp lists, by the pools of the new map.

ghost use Rattle.std.specs.Prelude.{◌≡◌, nat_eq, filter_map};
ghost use Rattle.std.specs.List.{list_any};
ghost use Rattle.pgp_lists.specs.Repeats.{has_repeat};
ghost use Rattle.pgp_map.specs.MapFault.{is_bad_list, has_bad_places};
ghost use Rattle.pgp_tables.specs.PoolTable.{new_pool};

use super::new_pool::new_pool;
use pgp_ids::{Incremental, MAX_OSDS, OsdId, Place, PoolId, PoolSpec, TempList};
use std::collections::HashMap;

/// A device is twice among the places.
fn has_device_twice(places: &[Place]) -> bool
    ensures { result ≡ has_repeat nat_eq (filter_map (λ place. place) places.now) }
{
    let mut rest = places;
    while let Some((first, others)) = rest.split_first() {
        if let Some(osd) = first.osd()
            && is_placed(osd, others)
        {
            return true;
        }
        rest = others;
    }
    false
}

/// The device stands in one of the places.
fn is_placed(osd: OsdId, places: &[Place]) -> bool
    ensures { result ≡ list_any (nat_eq osd) (filter_map (λ place. place) places.now) }
{
    let sought = Place::new(Some(osd));
    places.contains(&sought)
}

/// The pool can't have such a list.
fn has_bad_places(made: &PoolSpec, places: &[Place]) -> bool
    ensures { result ≡ has_bad_places made.now places.now }
{
    if made.kind.is_by_place() {
        !places.is_empty() && places.len() != usize::from(made.size)
    } else {
        places.iter().any(|place| place.osd().is_none())
    }
}

/// The list is none that the group can have in this pool, if that is there.
fn is_bad_list(pool: Option<PoolSpec>, given: &TempList) -> bool
    ensures { result ≡ is_bad_list pool given.now }
{
    let Some(made) = pool else {
        return true;
    };
    let places = given.osds.as_slice();
    given.pg.pg >= made.pg_num
        || places.len() > MAX_OSDS
        || has_device_twice(places)
        || has_bad_places(&made, places)
}

/// A group is given a list that it can't have in the new map.
pub(crate) fn has_bad_temp(old: &HashMap<PoolId, PoolSpec>, inc: &Incremental) -> bool
    ensures { result ≡ list_any (λ given. is_bad_list (new_pool old.now inc.now.pools inc.now.sizes given.pg.pool) given) inc.now.temp }
{
    let (made, sizes) = (inc.pools.as_slice(), inc.sizes.as_slice());
    inc.temp.as_slice().iter().any(|given| is_bad_list(
        new_pool(old, made, sizes, given.pg.pool),
        given,
    ))
}
