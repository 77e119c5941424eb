//! What the map keeps of a device.

use pgp_ids::Epoch;

/// What the map says of a device, its weight aside.
#[derive(Clone, Copy)]
pub struct Device {
    pub exists: bool,
    pub is_up: bool,
    /// The last epoch that booted it.
    pub up_from: Epoch,
    /// The last epoch that took it down.
    pub down_at: Epoch,
    pub up_thru: Epoch,
    pub lost_at: Epoch,
}
