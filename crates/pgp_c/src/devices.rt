//! What a map incremental says of devices, as C gives it.

ghost use Rattle.pgp_c.specs.Devices.{osd_of, device_weight_of, device_epoch_of};

use super::each::OfC;
use super::status::Status;
use pgp_ids::{DeviceEpoch, DeviceWeight, Epoch, OsdId};
use std::alloc::Global;

/// A device's weight.
#[repr(C)]
pub struct PgpDeviceWeight {
    /// 0 to 4,095.
    pub osd: u32,
    /// In units of 1/0x10000.
    pub weight: u32,
}

/// An epoch that is told of a device.
#[repr(C)]
pub struct PgpDeviceEpoch {
    /// 0 to 4,095.
    pub osd: u32,
    pub epoch: u32,
}

/// The device of this number.
impl OfC<u32> for OsdId {
    ghost of_c = { osd_of };

    fn of_c(_alloc: Global, given: &u32) -> Result<OsdId, Status> {
        if *given > u32::from(OsdId::MAX) {
            return Err(Status::BadArgument);
        }
        OsdId::new(*given as u16).ok_or(Status::BadArgument)
    }
}

impl OfC<PgpDeviceWeight> for DeviceWeight {
    ghost of_c = { device_weight_of };

    fn of_c(alloc: Global, given: &PgpDeviceWeight) -> Result<DeviceWeight, Status> {
        Ok(DeviceWeight {
            osd: OsdId::of_c(alloc, &given.osd)?,
            weight: given.weight,
        })
    }
}

impl OfC<PgpDeviceEpoch> for DeviceEpoch {
    ghost of_c = { device_epoch_of };

    fn of_c(alloc: Global, given: &PgpDeviceEpoch) -> Result<DeviceEpoch, Status> {
        Ok(DeviceEpoch {
            osd: OsdId::of_c(alloc, &given.osd)?,
            epoch: Epoch::new(given.epoch),
        })
    }
}
