//! The table of devices.

ghost use Rattle.std.specs.Prelude.{◌≡◌, ℕ, true, false, not, max, nat_eq, OnOk, OnErr, if◌then◌else◌};
ghost use Rattle.std.specs.List.{list_any};
ghost use Rattle.pgp_lists.specs.Last.{last_where};
ghost use Rattle.pgp_tables.specs.DeviceTable.{absent, device_at, has_place, after_event, with_epoch, changed, names_absent, HasPlaces};

use super::device::Device;
use pgp_ids::{DeviceEpoch, Epoch, Incremental, OsdId};
use std::alloc::AllocError;
use std::collections::HashMap;

/// A device of which nothing was told.
fn absent() -> Device
    ensures { result ≡ absent }
{
    Device {
        exists: false,
        is_up: false,
        up_from: Epoch::new(0),
        down_at: Epoch::new(0),
        up_thru: Epoch::new(0),
        lost_at: Epoch::new(0),
    }
}

/// The device, which is absent where the table has no place for it.
pub fn device_at(table: &HashMap<OsdId, Device>, osd: OsdId) -> Device
    ensures { result ≡ device_at table.now osd }
{
    table.get(&osd).copied().unwrap_or(absent())
}

/// Gives the device a place in the table, if it has none, where it is as absent as before.
fn place(table: &mut HashMap<OsdId, Device>, osd: OsdId) -> Result<(), AllocError>
    ensures same { (q : ℕ) → device_at table.new q ≡ device_at table.old q }
    ensures placed { OnOk result (has_place table.new osd ≡ true) }
    ensures kept { (q : ℕ) → has_place table.old q ≡ true → has_place table.new q ≡ true }
    ensures wants { OnErr result ((device_at table.old osd).exists ≡ false) }
{
    if !table.contains_key(&osd) {
        table.insert(osd, absent())?;
    }
    Ok(())
}

/// Gives each of these devices a place.
pub fn place_all(table: &mut HashMap<OsdId, Device>, osds: &[OsdId]) -> Result<(), AllocError>
    ensures same { (q : ℕ) → device_at table.new q ≡ device_at table.old q }
    ensures placed { OnOk result ((q : ℕ) → list_any (nat_eq q) osds.now ≡ true → has_place table.new q ≡ true) }
    ensures kept { (q : ℕ) → has_place table.old q ≡ true → has_place table.new q ≡ true }
    ensures wants { OnErr result (list_any (λ osd. not (device_at table.old osd).exists) osds.now ≡ true) }
{
    for osd in osds {
        place(table, *osd)?;
    }
    Ok(())
}

/// Gives each device of these entries a place in the table.
pub fn place_entries(
    table: &mut HashMap<OsdId, Device>,
    entries: &[DeviceEpoch],
) -> Result<(), AllocError>
    ensures same { (q : ℕ) → device_at table.new q ≡ device_at table.old q }
    ensures placed { OnOk result ((q : ℕ) → list_any (λ entry. nat_eq entry.osd q) entries.now ≡ true → has_place table.new q ≡ true) }
    ensures kept { (q : ℕ) → has_place table.old q ≡ true → has_place table.new q ≡ true }
    ensures wants { OnErr result (list_any (λ entry. not (device_at table.old entry.osd).exists) entries.now ≡ true) }
{
    for entry in entries {
        place(table, entry.osd)?;
    }
    Ok(())
}

/// Puts the device in its place.
fn set_device(table: &mut HashMap<OsdId, Device>, osd: OsdId, device: Device)
    requires { has_place table.old osd ≡ true }
    ensures after { (q : ℕ) → device_at table.new q ≡ (if nat_eq osd q then device else device_at table.old q) }
    ensures kept { (q : ℕ) → has_place table.new q ≡ has_place table.old q }
{
    if let Some(place) = table.get_mut(&osd) {
        *place = device;
    }
}

/// The later of two epochs.
fn later(a: Epoch, b: Epoch) -> Epoch
    ensures { result ≡ max a b }
{
    Epoch::new(a.number().max(b.number()))
}

/// What an incremental makes of a device that it names.
#[derive(Clone, Copy)]
enum Event {
    /// It boots in this epoch.
    Boots(Epoch),
    /// It is taken down in this epoch.
    GoesDown(Epoch),
    IsDestroyed,
}

/// The device after the event.
fn after(event: &Event, before: Device) -> Device
    ensures { result ≡ after_event event.now before }
{
    let mut device = before;
    match event {
        Event::Boots(epoch) => {
            device.exists = true;
            device.is_up = true;
            device.up_from = later(device.up_from, *epoch);
        }
        Event::GoesDown(epoch) => {
            device.is_up = false;
            device.down_at = later(device.down_at, *epoch);
        }
        Event::IsDestroyed => {
            device.exists = false;
            device.is_up = false;
        }
    }
    device
}

/// Changes these devices, each of which has a place, by the event.
fn change_all(table: &mut HashMap<OsdId, Device>, osds: &[OsdId], event: &Event)
    requires { (q : ℕ) → list_any (nat_eq q) osds.now ≡ true → has_place table.old q ≡ true }
    ensures after { (q : ℕ) → device_at table.new q ≡ (if list_any (nat_eq q) osds.now then after_event event.now (device_at table.old q) else device_at table.old q) }
    ensures kept { (q : ℕ) → has_place table.new q ≡ has_place table.old q }
{
    for osd in osds {
        let device = after(event, device_at(table, *osd));
        set_device(table, *osd, device);
    }
}

/// Which epoch of a device an incremental sets.
#[derive(Clone, Copy)]
enum EpochKind {
    /// The one through which it was up.
    UpThru,
    /// The one at which it was given up for lost.
    LostAt,
}

/// Sets these epochs of devices, each of which has a place.
#[tactic(auto, using(crate::proofs::Common::write_steps))]
fn set_epochs(table: &mut HashMap<OsdId, Device>, entries: &[DeviceEpoch], kind: EpochKind)
    requires { (q : ℕ) → list_any (λ entry. nat_eq entry.osd q) entries.now ≡ true → has_place table.old q ≡ true }
    ensures after { (q : ℕ) → device_at table.new q ≡ with_epoch kind (last_where (λ entry. nat_eq entry.osd q) entries.now) (device_at table.old q) }
    ensures kept { (q : ℕ) → has_place table.new q ≡ has_place table.old q }
{
    for entry in entries {
        let mut device = device_at(table, entry.osd);
        match kind {
            EpochKind::UpThru => device.up_thru = entry.epoch,
            EpochKind::LostAt => device.lost_at = entry.epoch,
        }
        set_device(table, entry.osd, device);
    }
}

/// Gives each device a place that the incremental names, its weight aside. Only for one that doesn't exist it takes memory.
pub fn place_named(table: &mut HashMap<OsdId, Device>, inc: &Incremental) -> Result<(), AllocError>
    ensures same { (q : ℕ) → device_at table.new q ≡ device_at table.old q }
    ensures placed { OnOk result (HasPlaces inc.now table.new) }
    ensures wants { OnErr result (names_absent (λ q. (device_at table.old q).exists) inc.now ≡ true) }
{
    place_all(table, inc.up.as_slice())?;
    place_all(table, inc.down.as_slice())?;
    place_all(table, inc.gone.as_slice())?;
    place_entries(table, inc.up_thru.as_slice())?;
    place_entries(table, inc.lost.as_slice())
}

/// Changes the devices as the incremental says. Each has a place.
pub fn change(table: &mut HashMap<OsdId, Device>, inc: &Incremental)
    requires { HasPlaces inc.now table.old }
    ensures { (q : ℕ) → device_at table.new q ≡ changed inc.now q (device_at table.old q) }
{
    change_all(table, inc.down.as_slice(), &Event::GoesDown(inc.epoch));
    change_all(table, inc.gone.as_slice(), &Event::IsDestroyed);
    change_all(table, inc.up.as_slice(), &Event::Boots(inc.epoch));
    set_epochs(table, inc.up_thru.as_slice(), EpochKind::UpThru);
    set_epochs(table, inc.lost.as_slice(), EpochKind::LostAt);
}
