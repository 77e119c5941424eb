//! The devices that a group names.

ghost use Rattle.std.specs.Prelude.{◌≡◌, ◌+◌, ◌<◌, ◌≤◌, ◌||◌, ℕ, [], length, nat_eq, false, OnOk, OnErr};
ghost use Rattle.std.specs.List.{list_any};
ghost use Rattle.std.specs.Ordering.{nat_cmp, is_lt};
ghost use Rattle.std.specs.Vec.{vec_len, vec_capacity};
ghost use Rattle.pgp_lists.specs.Ordered.{IsAscending, with_item};
ghost use Rattle.pgp_group.specs.Touched.{has_osd};

use pgp_ids::{OsdId, Osds};
use std::alloc::{AllocError, Global};

/// Devices in ascending order, none of them twice.
#[derive(Drop)]
pub(crate) struct NamedDevices {
    osds: Vec<OsdId>,
    ghost ascends: { IsAscending (λ a b. is_lt (nat_cmp a b)) osds.items },
}

impl NamedDevices {
    /// No devices. It takes no memory.
    pub(crate) fn new(alloc: Global) -> Self
        ensures { result.osds.items ≡ [] }
    {
        NamedDevices {
            osds: Vec::new(alloc),
        }
    }

    pub(crate) fn as_slice(&self) -> &[OsdId]
        ensures { result.now ≡ self.now.osds.items }
    {
        self.osds.as_slice()
    }

    /// Whether the device is one of these. It finds the place by binary search.
    pub(crate) fn has(&self, osd: OsdId) -> bool
        ensures { result ≡ list_any (nat_eq osd) self.now.osds.items }
    {
        self.osds.binary_search(&osd).is_ok()
    }

    /// Makes room for this many devices more. The devices stay.
    pub(crate) fn make_room(&mut self, more: usize) -> Result<(), AllocError>
        ensures same { self.new.osds.items ≡ self.old.osds.items }
        ensures ok { OnOk result (vec_len self.new.osds + more ≤ vec_capacity self.new.osds) }
    {
        self.osds.reserve(more)
    }

    /// Makes room for the device, unless it is there: then it takes no memory. The devices stay.
    pub(crate) fn make_room_for(&mut self, osd: OsdId) -> Result<(), AllocError>
        ensures same { self.new.osds.items ≡ self.old.osds.items }
        ensures ok { OnOk result (list_any (nat_eq osd) self.new.osds.items ≡ false
            → vec_len self.new.osds < vec_capacity self.new.osds) }
        ensures wants { OnErr result (list_any (nat_eq osd) self.old.osds.items ≡ false) }
    {
        if self.has(osd) {
            Ok(())
        } else {
            self.osds.reserve(1)
        }
    }

    /// Puts the device in, unless it is there. It takes no memory.
    pub(crate) fn add(&mut self, osd: OsdId)
        requires { list_any (nat_eq osd) self.old.osds.items ≡ false → vec_len self.old.osds < vec_capacity self.old.osds }
        ensures osds { self.new.osds.items ≡ with_item (λ a b. is_lt (nat_cmp a b)) osd self.old.osds.items }
        ensures len { vec_len self.new.osds ≤ vec_len self.old.osds + 1 }
        ensures capacity { vec_capacity self.new.osds ≡ vec_capacity self.old.osds }
    {
        if let Err(place) = self.osds.binary_search(&osd) {
            self.osds.insert(place, osd).unwrap();
        }
    }

    /// Puts each device of the list in, for all of which there is room. It takes no memory.
    pub(crate) fn add_places(&mut self, places: &Osds)
        requires { vec_len self.old.osds + length places.now ≤ vec_capacity self.old.osds }
        ensures osds { (q : ℕ) → list_any (nat_eq q) self.new.osds.items
            ≡ (has_osd q places.now || list_any (nat_eq q) self.old.osds.items) }
        ensures len { vec_len self.new.osds ≤ vec_len self.old.osds + length places.now }
        ensures capacity { vec_capacity self.new.osds ≡ vec_capacity self.old.osds }
    {
        for place in places.as_slice() {
            if let Some(osd) = place.osd() {
                self.add(osd);
            }
        }
    }
}
