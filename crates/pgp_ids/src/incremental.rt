ghost use Rattle.std.specs.Prelude.{◌≡◌};
ghost use Rattle.pgp_ids.specs.Incremental.{no_change};

use super::bucket::BucketSpec;
use super::epoch::Epoch;
use super::osd::OsdId;
use super::pg_id::PgId;
use super::place::Place;
use super::pool::{PoolSizes, PoolSpec};
use super::seq::Seq;
use std::alloc::Global;

/// A device's weight, in units of 1/0x10000: 0 is out, 0x10000 is fully in.
#[derive(Clone, Copy, Debug)]
pub struct DeviceWeight {
    pub osd: OsdId,
    pub weight: u32,
}

/// An epoch that is told of a device.
#[derive(Clone, Copy, Debug)]
pub struct DeviceEpoch {
    pub osd: OsdId,
    pub epoch: Epoch,
}

/// The list of devices that stands in for a group's placement (pg_temp), place by place; the empty list takes it away.
#[derive(Debug, Drop)]
pub struct TempList {
    pub pg: PgId,
    pub osds: Seq<Place>,
}

/// The step from one cluster map to the next. All its parts take effect together.
///
/// The epochs between the two have the map that it changes: nothing was told of them.
#[derive(Debug, Drop)]
pub struct Incremental {
    /// The epoch of the map that it changes.
    pub after: Epoch,
    /// The epoch of the map to which it leads.
    pub epoch: Epoch,
    /// The devices that boot.
    pub up: Seq<OsdId>,
    /// The devices that are taken for down.
    pub down: Seq<OsdId>,
    /// The devices that are destroyed.
    pub gone: Seq<OsdId>,
    pub weight: Seq<DeviceWeight>,
    /// The last epochs through which devices are known to have been up.
    pub up_thru: Seq<DeviceEpoch>,
    /// The epochs at which devices are given up for lost.
    pub lost: Seq<DeviceEpoch>,
    /// The pools that are made.
    pub pools: Seq<PoolSpec>,
    pub sizes: Seq<PoolSizes>,
    pub temp: Seq<TempList>,
    /// The buckets of the placement tree that replaces the old one.
    pub crush: Option<Seq<BucketSpec>>,
}

impl Incremental {
    /// The step from the map of the one epoch to that of the other that changes nothing else. It takes no memory.
    pub fn empty(alloc: Global, after: Epoch, epoch: Epoch) -> Self
        ensures { result ≡ no_change after epoch }
    {
        Incremental {
            after,
            epoch,
            up: Seq::new(alloc),
            down: Seq::new(alloc),
            gone: Seq::new(alloc),
            weight: Seq::new(alloc),
            up_thru: Seq::new(alloc),
            lost: Seq::new(alloc),
            pools: Seq::new(alloc),
            sizes: Seq::new(alloc),
            temp: Seq::new(alloc),
            crush: None,
        }
    }
}
