//! For each device a number of groups.

ghost use Rattle.std.specs.Prelude.{◌≡◌, ℕ, ◌+◌, ◌<◌, List, length, slice_index, nat_eq, nat_lt, IfOk, if◌then◌else◌};
ghost use Rattle.pgp_lists.specs.Ordered.{IsAscending};
ghost use Rattle.pgp_reasons.specs.Smallest.{holds};
ghost use Rattle.pgp_whole.specs.Summary.{counted};

use pgp_ids::OsdId;
use std::alloc::{AllocError, Global};
use std::marker::Model;

/// How many devices there may be.
const DEVICES: usize = 4096;

/// For each device a number of groups.
#[derive(Drop)]
pub(crate) struct GroupCounts {
    /// By the number of the device.
    counts: Vec<usize>,
}

impl Model for GroupCounts {
    ghost Value = { List ℕ };

    ghost view = { λ c. c.counts.items };

    ghost invariant = { λ c. length c.counts.items ≡ 4096 };
}

impl GroupCounts {
    /// No group for any.
    pub fn new(alloc: Global) -> Result<Self, AllocError>
        ensures { IfOk result (λ counts. (osd : ℕ) → osd < 4096 → slice_index counts osd ≡ 0) }
    {
        Ok(GroupCounts {
            counts: vec![in alloc; 0; DEVICES]?,
        })
    }

    /// For how many groups the device is counted.
    pub fn of(&self, osd: OsdId) -> usize
        ensures { result ≡ slice_index self.now osd }
    {
        self.counts[usize::from(osd.number())]
    }

    /// One group more for each of these devices, each of which is there once.
    pub fn add(&mut self, osds: &[OsdId])
        ensures { (osd n : ℕ) → IsAscending nat_lt osds.now → osd < 4096 → slice_index self.old osd ≡ counted n
            → slice_index self.new osd ≡ counted (n + (if holds osds.now osd then 1 else 0)) }
    {
        for osd in osds {
            self.add_one(*osd);
        }
    }

    /// One group more for the device.
    fn add_one(&mut self, osd: OsdId)
        ensures { (other n : ℕ) → other < 4096 → slice_index self.old other ≡ counted n → slice_index self.new other ≡ counted (n + (if nat_eq other osd then 1 else 0)) }
    {
        let place = usize::from(osd.number());
        self.counts[place] = self.counts[place].saturating_add(1);
    }
}
