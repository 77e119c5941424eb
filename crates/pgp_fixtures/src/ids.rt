//! Devices and groups by their numbers.

use pgp_ids::{MAX_OSDS, OsdId, Osds, PgId, Place, PoolId};

/// A number that no device has: an empty place of a list.
pub const NO_OSD: u16 = 9999;

/// The list of these devices; a number out of range is an empty place.
pub fn places(numbers: &[u16]) -> Osds {
    let mut places = Osds::new();
    for number in numbers {
        if places.len() < MAX_OSDS {
            places.push(Place::new(OsdId::new(*number)));
        }
    }
    places
}

/// Group 0 of pool 1.
pub fn group() -> PgId {
    PgId {
        pool: PoolId::new(1).unwrap(),
        pg: 0,
    }
}
