//! What a map said of the devices of past intervals, and the prior set where it says something else.

ghost use Rattle.std.specs.Prelude.{◌≡◌, ◌≢◌, ℕ, true, false, Contains, OnOk};
ghost use Rattle.pgp_code.specs.AnyCode.{enough_of, is_by_place};
ghost use Rattle.pgp_code.specs.declared.any.AnyCode.{AnyCode as Code};
ghost use Rattle.pgp_ids.specs.declared.member.Member.{Member};
ghost use Rattle.pgp_prior.specs.Changes.{IsChange};
ghost use Rattle.pgp_prior.specs.IndexOf.{Basis, IsIndexOf};
ghost use Rattle.pgp_prior.specs.Members.{members_of};
ghost use Rattle.pgp_sets.specs.Status.{held_status};
ghost use Rattle.pgp_sets.specs.declared.status.Status.{Status};
ghost use Rattle.pgp_group.specs.kept.DeviceFacts.{noted_of, renoted_all, has_noted, allows_turn, HasEachMember, GivesEach, AreOfMap};

use pgp_code::AnyCode;
use pgp_ids::{Epoch, OsdId, Past};
use pgp_map::OsdMap;
use pgp_prior::{PriorIndex, members_of};
use pgp_sets::{Status, StatusOf};
use std::alloc::AllocError;

/// What a map says of a device: all that its status for any interval depends on.
#[derive(Clone, Copy, PartialEq, Eq)]
pub(crate) struct DeviceFacts {
    osd: OsdId,
    up: bool,
    there: bool,
    lost_at: Epoch,
}

impl DeviceFacts {
    /// What the map says of the device.
    fn of(map: &OsdMap, osd: OsdId) -> Self
        ensures { result ≡ noted_of map.now osd }
    {
        DeviceFacts {
            osd,
            up: map.is_up(osd),
            there: map.exists(osd),
            lost_at: map.lost_at(osd),
        }
    }
}

/// Whether both say the same.
fn is_same(a: &DeviceFacts, b: &DeviceFacts) -> bool
    ensures same { result ≡ true → a.now ≡ b.now }
    ensures differ { result ≡ false → a.now ≢ b.now }
{
    a == b
}

/// Whether the device is noted.
fn has_noted(noted: &[DeviceFacts], osd: OsdId) -> bool
    ensures { result ≡ has_noted osd noted.now }
{
    noted.iter().any(|entry| entry.osd == osd)
}

/// Notes what the map says of each acting member of the interval that isn't noted yet. What is noted stays.
pub(crate) fn note_members(
    noted: &mut Vec<DeviceFacts>,
    by_place: bool,
    past: &Past,
    map: &OsdMap,
) -> Result<(), AllocError>
    ensures ok { OnOk result ((member : Member) → Contains (members_of by_place past.now.members.acting) member
        → has_noted member.osd noted.new.items ≡ true) }
    ensures kept { (osd : ℕ) → has_noted osd noted.old.items ≡ true → has_noted osd noted.new.items ≡ true }
    ensures of_map { AreOfMap map.now noted.old.items → AreOfMap map.now noted.new.items }
{
    for member in members_of(by_place, &past.members.acting) {
        note(noted, member.osd, map)?;
    }
    Ok(())
}

/// Notes what the map says of the device, unless it is noted.
fn note(noted: &mut Vec<DeviceFacts>, osd: OsdId, map: &OsdMap) -> Result<(), AllocError>
    ensures ok { OnOk result (has_noted osd noted.new.items ≡ true) }
    ensures kept { (q : ℕ) → has_noted q noted.old.items ≡ true → has_noted q noted.new.items ≡ true }
    ensures of_map { AreOfMap map.now noted.old.items → AreOfMap map.now noted.new.items }
{
    if has_noted(noted.as_slice(), osd) {
        return Ok(());
    }
    noted.push(DeviceFacts::of(map, osd))?;
    Ok(())
}

/// Notes what the map says now of each device that is noted, and tells the index of each device of which it says something
/// else.
pub(crate) fn renew_all(noted: &mut [DeviceFacts], index: &mut PriorIndex<AnyCode>, map: &OsdMap)
    ensures noted { noted.new ≡ renoted_all map.now noted.old }
    ensures index { (b : Basis Code) → IsIndexOf enough_of is_by_place b index.old
        → HasEachMember (is_by_place b.code) b.past noted.old → GivesEach (is_by_place b.code) b.status b.past noted.old
        → IsIndexOf enough_of is_by_place (record b { status = held_status map.now }) index.new }
{
    for entry in noted.iter_mut() {
        let now = DeviceFacts::of(map, entry.osd);
        if !is_same(&now, entry) {
            renew(index, entry, &now, map);
            *entry = now;
        }
    }
}

/// Lets the index take the statuses of a device of which the map said the first and says the second, by the call for how they
/// changed. Those of a device that was made again rose to up, and fell from there.
fn renew(index: &mut PriorIndex<AnyCode>, before: &DeviceFacts, after: &DeviceFacts, map: &OsdMap)
    ensures { (b : Basis Code) (status : ℕ → ℕ → Status) → IsIndexOf enough_of is_by_place b index.old
        → IsChange (allows_turn before.now after.now) (is_by_place b.code) after.now.osd (held_status map.now) b.status status b.past
        → IsIndexOf enough_of is_by_place (record b { status = status }) index.new }
{
    let osd = after.osd;
    if after.up {
        index.device_better(osd, map);
    } else if before.up {
        index.device_worse(osd, map);
    } else if !after.there {
        index.device_gone(osd, map);
    } else if !before.there {
        index.device_better(osd, &EachUp);
        index.device_worse(osd, map);
    } else if after.lost_at < before.lost_at {
        index.device_worse(osd, map);
    } else {
        index.device_better(osd, map);
    }
}

/// Says of each device that it is up.
struct EachUp;

impl StatusOf for EachUp {
    ghost use Rattle.pgp_group.specs.kept.DeviceFacts.{status_up};

    ghost status_of = { status_up };

    fn status(&self, _osd: OsdId, _first: Epoch) -> Status {
        Status::Up
    }
}
