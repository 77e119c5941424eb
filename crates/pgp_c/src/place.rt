//! Where an object lies, as C reads it.

ghost use Rattle.std.specs.Prelude.{◌≡◌};
ghost use Rattle.pgp_c.specs.Place.{device_number, device_number_at, sixteen, pgp_place};

use pgp_ids::{Epoch, Membership, OsdId, Osds, PgId};
use std::array::from_fn;

/// Stands for no device.
pub const NO_DEVICE: u16 = 65535;

/// Where an object lies. A place without a device, one behind the end of its list, and a list without a primary have 65535.
#[repr(C)]
#[derive(Clone, Copy)]
pub struct PgpPlace {
    /// The epoch of the map.
    pub epoch: u32,
    /// The number of the group in its pool.
    pub pg: u16,
    pub up_primary: u16,
    pub acting_primary: u16,
    /// How many copies or shards the pool keeps, 1 to 16.
    pub size: u8,
    /// With how many members the group may serve.
    pub min_size: u8,
    /// How many places `up` has.
    pub up_length: u8,
    /// How many places `acting` has.
    pub acting_length: u8,
    pub up: [u16; 16],
    pub acting: [u16; 16],
}

/// The place of a group that has these members.
pub fn place_of(pg: PgId, members: &Membership, epoch: Epoch) -> PgpPlace
    ensures { result ≡ pgp_place pg members.now epoch }
{
    PgpPlace {
        epoch: epoch.number(),
        pg: pg.pg,
        up_primary: device_number(members.up_primary),
        acting_primary: device_number(members.acting_primary),
        size: members.size,
        min_size: members.min_size,
        up_length: members.up.len() as u8,
        acting_length: members.acting.len() as u8,
        up: sixteen(&members.up),
        acting: sixteen(&members.acting),
    }
}

/// The number of a device, where there is one.
pub fn device_number(device: Option<OsdId>) -> u16
    ensures { result ≡ device_number device }
{
    match device {
        Some(device) => device.number(),
        None => NO_DEVICE,
    }
}

/// The number of the device at a place of the list.
fn device_at(devices: &Osds, place: usize) -> u16
    ensures { result ≡ device_number_at devices.now place }
{
    match devices.as_slice().get(place) {
        Some(place) => device_number(place.osd()),
        None => NO_DEVICE,
    }
}

/// The numbers of the devices at the first sixteen places.
pub fn sixteen(devices: &Osds) -> [u16; 16]
    ensures { result ≡ sixteen devices.now }
{
    from_fn(|place| device_at(devices, place))
}
