//! The tests of an incremental's devices, by the table of devices.

ghost use Rattle.std.specs.Prelude.{◌≡◌, not, ◌&&◌, nat_lt};
ghost use Rattle.std.specs.List.{list_any};
ghost use Rattle.pgp_map.specs.kept.Findings.{is_unknown};
ghost use Rattle.pgp_map.specs.MapFault.{devices_that_must_exist};
ghost use Rattle.pgp_tables.specs.DeviceTable.{device_at};

use super::searched_devices::SearchedDevices;
use pgp_ids::{DeviceEpoch, DeviceWeight, Epoch, Incremental, OsdId};
use pgp_tables::Device;
use pgp_tables::devices::device_at;
use std::collections::HashMap;

/// The device neither exists nor is one of those that boot.
fn is_unknown(table: &HashMap<OsdId, Device>, boots: &SearchedDevices, osd: OsdId) -> bool
    ensures { result ≡ is_unknown table.now boots.now.osds.now osd }
{
    !(device_at(table, osd).exists || boots.contains(osd))
}

/// One of the devices is unknown.
fn any_unknown(table: &HashMap<OsdId, Device>, boots: &SearchedDevices, osds: &[OsdId]) -> bool
    ensures { result ≡ list_any (is_unknown table.now boots.now.osds.now) osds.now }
{
    osds.iter().any(|osd| is_unknown(table, boots, *osd))
}

/// A device that is given a weight is unknown.
fn weighs_unknown(
    table: &HashMap<OsdId, Device>,
    boots: &SearchedDevices,
    weights: &[DeviceWeight],
) -> bool
    ensures { result ≡ list_any (λ entry. is_unknown table.now boots.now.osds.now entry.osd) weights.now }
{
    weights
        .iter()
        .any(|entry| is_unknown(table, boots, entry.osd))
}

/// A device of which an epoch is told is unknown.
fn tells_unknown(
    table: &HashMap<OsdId, Device>,
    boots: &SearchedDevices,
    told: &[DeviceEpoch],
) -> bool
    ensures { result ≡ list_any (λ entry. is_unknown table.now boots.now.osds.now entry.osd) told.now }
{
    told.iter().any(|entry| is_unknown(table, boots, entry.osd))
}

/// A device is named, of which something else is told than that it boots, that neither exists nor is one of those that boot.
#[tactic(auto, using(crate::proofs::CheckLemmas::must_exist_steps))]
pub(crate) fn has_unknown(
    table: &HashMap<OsdId, Device>,
    boots: &SearchedDevices,
    inc: &Incremental,
) -> bool
    ensures { result ≡ list_any (is_unknown table.now boots.now.osds.now) (devices_that_must_exist inc.now) }
{
    let falls = any_unknown(table, boots, inc.down.as_slice());
    let goes = any_unknown(table, boots, inc.gone.as_slice());
    let weighs = weighs_unknown(table, boots, inc.weight.as_slice());
    let lasts = tells_unknown(table, boots, inc.up_thru.as_slice());
    let is_lost = tells_unknown(table, boots, inc.lost.as_slice());
    falls || goes || weighs || lasts || is_lost
}

/// A device is up.
pub(crate) fn has_up(table: &HashMap<OsdId, Device>, osds: &[OsdId]) -> bool
    ensures { result ≡ list_any (λ osd. (device_at table.now osd).is_up) osds.now }
{
    osds.iter().any(|osd| device_at(table, *osd).is_up)
}

/// A device exists and is down.
pub(crate) fn has_down(table: &HashMap<OsdId, Device>, osds: &[OsdId]) -> bool
    ensures { result ≡ list_any (λ osd. (device_at table.now osd).exists && not (device_at table.now osd).is_up) osds.now }
{
    osds.iter().any(|osd| {
        let device = device_at(table, *osd);
        device.exists && !device.is_up
    })
}

/// An up_thru is below that of its device.
pub(crate) fn has_up_thru_back(table: &HashMap<OsdId, Device>, told: &[DeviceEpoch]) -> bool
    ensures { result ≡ list_any (λ entry. nat_lt entry.epoch (device_at table.now entry.osd).up_thru) told.now }
{
    told.iter()
        .any(|entry| entry.epoch < device_at(table, entry.osd).up_thru)
}

/// An epoch is above this one.
pub(crate) fn has_ahead(epoch: Epoch, told: &[DeviceEpoch]) -> bool
    ensures { result ≡ list_any (λ entry. nat_lt epoch entry.epoch) told.now }
{
    told.iter().any(|entry| entry.epoch > epoch)
}
