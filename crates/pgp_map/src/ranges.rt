//! The tests of an incremental's pools, by the table of pools.

ghost use Rattle.std.specs.Prelude.{◌≡◌, not, ◌||◌, ◌&&◌, true, nat_eq, is_some};
ghost use Rattle.std.specs.List.{list_any};
ghost use Rattle.std.specs.Option.{option_map_or};
ghost use Rattle.std.specs.HashMap as hash;
ghost use Rattle.pgp_ids.specs.Pool.{is_kind_by_place};
ghost use Rattle.pgp_map.specs.MapFault.{are_sizes, is_kind, is_pool};

use pgp_ids::{PoolId, PoolKind, PoolSizes, PoolSpec};
use std::collections::HashMap;

/// How many places a pool has for a group at most.
const MAX_SIZE: u8 = 16;

/// How many groups a pool has at most.
const MAX_POOL_GROUPS: u16 = 1024;

/// The size is 1 to 16, and min_size 1 to it.
fn are_sizes(size: u8, min_size: u8) -> bool
    ensures { result ≡ are_sizes size min_size }
{
    size >= 1 && size <= MAX_SIZE && (min_size >= 1 && min_size <= size)
}

/// In an erasure pool k is 1 to the size, and in a grouped pool the size allows the parts.
fn is_kind(kind: &PoolKind, size: u8) -> bool
    ensures { result ≡ is_kind kind.now size }
{
    match kind {
        PoolKind::Replicated => true,
        PoolKind::Erasure { k } => *k >= 1 && *k <= size,
        PoolKind::Grouped { groups } => groups.are_of_size(size),
    }
}

/// The pool's numbers are in range.
fn is_pool(made: &PoolSpec) -> bool
    ensures { result ≡ is_pool made.now }
{
    made.pg_num >= 1
        && made.pg_num <= MAX_POOL_GROUPS
        && are_sizes(made.size, made.min_size)
        && is_kind(&made.kind, made.size)
}

/// The sizes aren't ones to which the pool can change.
fn are_bad_sizes(table: &HashMap<PoolId, PoolSpec>, given: &PoolSizes) -> bool
    ensures { result ≡ (not (are_sizes given.now.size given.now.min_size) || option_map_or (λ made. is_kind_by_place made.kind && not (nat_eq made.size given.now.size)) (hash.get nat_eq table.now given.now.pool) true) }
{
    if !are_sizes(given.size, given.min_size) {
        return true;
    }
    match table.get(&given.pool) {
        Some(made) => made.kind.is_by_place() && made.size != given.size,
        None => true,
    }
}

/// A pool is made of numbers out of range.
pub(crate) fn has_bad_spec(made: &[PoolSpec]) -> bool
    ensures { result ≡ list_any (λ pool. not (is_pool pool)) made.now }
{
    made.iter().any(|pool| !is_pool(pool))
}

/// A pool is given sizes to which it can't change.
pub(crate) fn has_bad_sizes(table: &HashMap<PoolId, PoolSpec>, sizes: &[PoolSizes]) -> bool
    ensures { result ≡ list_any (λ given. not (are_sizes given.size given.min_size) || option_map_or (λ made. is_kind_by_place made.kind && not (nat_eq made.size given.size)) (hash.get nat_eq table.now given.pool) true) sizes.now }
{
    sizes.iter().any(|given| are_bad_sizes(table, given))
}

/// A pool is made that is there.
pub(crate) fn has_known(table: &HashMap<PoolId, PoolSpec>, made: &[PoolSpec]) -> bool
    ensures { result ≡ list_any (λ pool. is_some (hash.get nat_eq table.now pool.id)) made.now }
{
    made.iter().any(|pool| table.contains_key(&pool.id))
}
