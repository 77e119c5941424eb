//! What a map incremental says of pools and of groups.
ghost use Rattle.std.specs.Prelude.{◌≡◌, map};
ghost use Rattle.pgp_lines.specs.Value.{view};
ghost use Rattle.pgp_lines.specs.Pools.{pool_keys, pool_kind_in, pool_in, pool_sizes_in, temp_in};

use super::fields::read_at;
use super::lists::{Plain, Shape, read_triple};
use super::numbers::{read_group, read_number};
use super::objects::has_only;
use super::value::Value;
use pgp_ids::{PoolId, PoolKind, PoolSizes, PoolSpec, Seq, TempList};
use std::alloc::{AllocError, Global};

/// `[pool, pg, list of devices or null]`, of any length.
impl Shape for TempList {
    ghost shape = { temp_in };

    fn read(alloc: Global, value: &Value<'_, '_>) -> Result<Option<TempList>, AllocError> {
        let Some((pool, pg, places)) = read_triple(value) else {
            return Ok(None);
        };
        let Some(pg) = read_group(&pool, &pg) else {
            return Ok(None);
        };
        match Seq::read(alloc, &places)? {
            Some(osds) => Ok(Some(TempList { pg, osds })),
            None => Ok(None),
        }
    }
}

/// A pool: an object with all keys of its kind and no other.
impl Plain for PoolSpec {
    ghost plain = { pool_in };

    fn from_value(value: &Value<'_, '_>) -> Option<PoolSpec> {
        let kind = read_kind(value)?;
        if !has_only(value, pool_keys(&kind)) {
            return None;
        }
        let id = read_at(value, "id")?;
        let pg_num = read_number(&value.get("pg_num")?, 0, u64::from(u16::MAX))?;
        Some(PoolSpec {
            id,
            pg_num: pg_num as u16,
            kind,
            size: read_at(value, "size")?,
            min_size: read_at(value, "min_size")?,
            leaf: read_at(value, "leaf")?,
        })
    }
}

/// The kind of a pool; an erasure pool has a number of data shards, a grouped one its parts.
pub(super) fn read_kind(value: &Value<'_, '_>) -> Option<PoolKind>
    ensures { result ≡ pool_kind_in (view value.now) }
{
    let kind = value.get("kind")?.as_str()?;
    match kind {
        "replicated" => Some(PoolKind::Replicated),
        "erasure" => {
            let k = read_at(value, "k")?;
            Some(PoolKind::Erasure { k })
        }
        "grouped" => {
            let groups = read_at(value, "groups")?;
            Some(PoolKind::Grouped { groups })
        }
        _ => None,
    }
}

/// The keys of a pool's object, in ascending byte order.
fn pool_keys(kind: &PoolKind) -> &'static [&'static str]
    ensures { map (λ k. k.now) result.now ≡ pool_keys kind.now }
{
    match kind {
        PoolKind::Replicated => &["id", "kind", "leaf", "min_size", "pg_num", "size"],
        PoolKind::Erasure { .. } => &["id", "k", "kind", "leaf", "min_size", "pg_num", "size"],
        PoolKind::Grouped { .. } => {
            &["groups", "id", "kind", "leaf", "min_size", "pg_num", "size"]
        }
    }
}

/// `[pool, size, min_size]`.
impl Plain for PoolSizes {
    ghost plain = { pool_sizes_in };

    fn from_value(value: &Value<'_, '_>) -> Option<PoolSizes> {
        let (pool, size, min_size) = read_triple(value)?;
        Some(PoolSizes {
            pool: PoolId::from_value(&pool)?,
            size: u8::from_value(&size)?,
            min_size: u8::from_value(&min_size)?,
        })
    }
}
