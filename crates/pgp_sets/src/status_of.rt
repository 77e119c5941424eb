ghost use Rattle.std.specs.Prelude.{◌≡◌, ℕ};
ghost use Rattle.pgp_sets.specs.declared.status.Status.{Status};

use super::status::Status;
use pgp_ids::{Epoch, OsdId};
use pgp_map::OsdMap;

/// Who tells what has become of a device.
pub trait StatusOf {
    /// The status of a device for an interval that began at this epoch. It is a function of the value itself: for a map, of
    /// what it holds, which by a law is what its incrementals say.
    ghost status_of: { Self → ℕ → ℕ → Status };

    /// What has become of the device, for an interval whose first epoch is `first`. It takes no memory.
    fn status(&self, osd: OsdId, first: Epoch) -> Status
        ensures { result ≡ status_of self.now osd first };
}

/// The status that the map's incrementals give: a device that was destroyed is gone, also if it was given up for lost, and
/// one that was given up for lost counts as that only for intervals that began before.
impl StatusOf for OsdMap {
    ghost use Rattle.pgp_map.specs.MapOf.{Says};
    ghost use Rattle.pgp_sets.specs.Status.{status, held_status};

    ghost status_of = { held_status };

    fn status(&self, osd: OsdId, first: Epoch) -> Status
        ensures held { result ≡ held_status self.now osd first }
        ensures value { Says self.now (λ incs. result ≡ status incs osd first) }
    {
        if self.is_up(osd) {
            Status::Up
        } else if !self.exists(osd) {
            Status::Gone
        } else if first < self.lost_at(osd) {
            Status::Lost
        } else {
            Status::Down
        }
    }
}
