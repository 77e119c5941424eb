//! Groups, their members, the versions of their writes, and what a map incremental says of devices.
ghost use Rattle.std.specs.Prelude.{◌≡◌};
ghost use Rattle.serde_json.specs.Find.{as_bool};
ghost use Rattle.pgp_lines.specs.Value.{view};
ghost use Rattle.pgp_lines.specs.Devices.{device_weight_in, device_epoch_in};
ghost use Rattle.pgp_lines.specs.ReportParts.{pg_in, member_in, version_of, version_in};

use super::lists::{Plain, read_pair};
use super::numbers::{read_group, read_slot};
use super::value::Value;
use pgp_ids::{DeviceEpoch, DeviceWeight, Epoch, Member, OsdId, PgId, Version};

impl Plain for bool {
    ghost plain = { as_bool };

    fn from_value(value: &Value<'_, '_>) -> Option<bool> {
        value.as_bool()
    }
}

/// `[pool, pg]`.
impl Plain for PgId {
    ghost plain = { pg_in };

    fn from_value(value: &Value<'_, '_>) -> Option<PgId> {
        let (pool, pg) = read_pair(value)?;
        read_group(&pool, &pg)
    }
}

/// `[device, slot]`, the slot from 0 to 15.
impl Plain for Member {
    ghost plain = { member_in };

    fn from_value(value: &Value<'_, '_>) -> Option<Member> {
        let (osd, slot) = read_pair(value)?;
        Some(Member {
            osd: OsdId::from_value(&osd)?,
            slot: read_slot(&slot)?,
        })
    }
}

/// `[epoch, v]`.
impl Plain for Version {
    ghost plain = { version_in };

    fn from_value(value: &Value<'_, '_>) -> Option<Version> {
        let (epoch, v) = read_pair(value)?;
        version_of(&epoch, &v)
    }
}

/// The version of these parts.
pub(super) fn version_of(epoch: &Value<'_, '_>, v: &Value<'_, '_>) -> Option<Version>
    ensures { result ≡ version_of (view epoch.now) (view v.now) }
{
    Some(Version {
        epoch: Epoch::from_value(epoch)?,
        v: u32::from_value(v)?,
    })
}

/// `[device, weight]`.
impl Plain for DeviceWeight {
    ghost plain = { device_weight_in };

    fn from_value(value: &Value<'_, '_>) -> Option<DeviceWeight> {
        let (osd, weight) = read_pair(value)?;
        Some(DeviceWeight {
            osd: OsdId::from_value(&osd)?,
            weight: u32::from_value(&weight)?,
        })
    }
}

/// `[device, epoch]`.
impl Plain for DeviceEpoch {
    ghost plain = { device_epoch_in };

    fn from_value(value: &Value<'_, '_>) -> Option<DeviceEpoch> {
        let (osd, epoch) = read_pair(value)?;
        Some(DeviceEpoch {
            osd: OsdId::from_value(&osd)?,
            epoch: Epoch::from_value(&epoch)?,
        })
    }
}
