//! The devices for which groups wait, those that free most first.

ghost use Rattle.std.specs.Prelude.{◌≡◌, IfOk};
ghost use Rattle.pgp_whole.specs.Summary.{devices_of, is_waited_for};
ghost use Rattle.pgp_whole.specs.kept.Sums.{waits_in};

use super::group_sums::GroupSums;
use pgp_ids::{OsdId, Seq};
use pgp_lists::insert_in_order;
use std::alloc::{AllocError, Global};
use std::cmp::Reverse;

/// A device, and how many groups wait for it, by why they do. The one that frees most groups alone stands first, then the one that
/// blocks most, then the one from which most have yet to hear, and then the one of the lower number.
#[derive(Clone, Copy, PartialEq, Eq, PartialOrd, Ord)]
pub(crate) struct DeviceWaits {
    /// How many are Down no more once it alone boots.
    pub frees: Reverse<usize>,
    /// How many are down and wait for it to come back.
    pub blocks: Reverse<usize>,
    /// How many wait to hear from it.
    pub awaited: Reverse<usize>,
    pub osd: OsdId,
}

impl DeviceWaits {
    /// How many of the groups with these sums wait for the device.
    fn of(osd: OsdId, sums: &GroupSums) -> Self
        ensures { result ≡ waits_in sums.now osd }
    {
        DeviceWaits {
            frees: Reverse(sums.frees.of(osd)),
            blocks: Reverse(sums.blocks.of(osd)),
            awaited: Reverse(sums.awaited.of(osd)),
            osd,
        }
    }

    /// Whether some group waits for it.
    fn is_waited_for(&self) -> bool
        ensures { result ≡ is_waited_for self.now }
    {
        self.blocks.0 > 0 || self.awaited.0 > 0
    }
}

/// The devices for which some of the groups with these sums wait, in their order.
pub(crate) fn devices_of(alloc: Global, sums: &GroupSums) -> Result<Seq<DeviceWaits>, AllocError>
    ensures { IfOk result (λ devices. devices ≡ devices_of (waits_in sums.now)) }
{
    let mut devices = Vec::new(alloc);
    for number in (0..OsdId::MAX + 1).rev() {
        if let Some(osd) = OsdId::new(number) {
            let device = DeviceWaits::of(osd, sums);
            if device.is_waited_for() {
                insert_in_order(&mut devices, device)?;
            }
        }
    }
    Ok(Seq::from_vec(devices))
}
