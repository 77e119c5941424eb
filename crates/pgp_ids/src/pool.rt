ghost use Rattle.std.specs.Prelude.{◌≡◌};
ghost use Rattle.pgp_ids.specs.Pool.{is_kind_by_place};

use super::part::Parts;
use super::pool_id::PoolId;

/// How a pool keeps its objects.
#[derive(Clone, Copy, Debug, PartialEq, Eq)]
pub enum PoolKind {
    /// Each member of a group has a whole copy.
    Replicated,
    /// Each member has one shard, and any `k` shards give the object back.
    Erasure {
        /// 1 to the size of the pool.
        k: u8,
    },
    /// Each member has one shard, and the object is given back where each part has its least number of slots at hand.
    Grouped {
        /// 1 to 16 parts, no slot in two of them.
        groups: Parts,
    },
}

impl PoolKind {
    /// Whether each member of a group has a place of its own, which is its slot. Otherwise all have slot 0.
    pub fn is_by_place(&self) -> bool
        ensures { result ≡ is_kind_by_place self.now }
    {
        match self {
            PoolKind::Replicated => false,
            PoolKind::Erasure { .. } => true,
            PoolKind::Grouped { .. } => true,
        }
    }
}

/// A pool, as the map incremental that makes it tells of it. The ranges are those of a pool that a map takes.
#[derive(Clone, Copy, Debug, PartialEq, Eq)]
pub struct PoolSpec {
    pub id: PoolId,
    /// How many placement groups it has, 1 to 1,024.
    pub pg_num: u16,
    pub kind: PoolKind,
    /// How many copies or shards it keeps, 1 to 16.
    pub size: u8,
    /// With how many members a group may serve, 1 to `size`.
    pub min_size: u8,
    /// The level of the placement tree at which no two members share a bucket; 0 for the devices.
    pub leaf: u8,
}

/// New sizes of a pool.
#[derive(Clone, Copy, Debug)]
pub struct PoolSizes {
    pub pool: PoolId,
    /// How many copies or shards it keeps, 1 to 16. That of an erasure or grouped pool can't change.
    pub size: u8,
    /// With how many members a group may serve, 1 to `size`.
    pub min_size: u8,
}
