//! The pools of the new map.

ghost use Rattle.std.specs.Prelude.{◌≡◌, nat_eq};
ghost use Rattle.pgp_lists.specs.Last.{last_where};
ghost use Rattle.pgp_tables.specs.PoolTable.{new_pool};

use pgp_ids::{PoolId, PoolSizes, PoolSpec};
use std::collections::HashMap;

/// The pool of this id in the new map, by the pools of the old one, those that are made and the sizes that are given.
pub(crate) fn new_pool(
    old: &HashMap<PoolId, PoolSpec>,
    made: &[PoolSpec],
    sizes: &[PoolSizes],
    id: PoolId,
) -> Option<PoolSpec>
    ensures { result ≡ new_pool old.now made.now sizes.now id }
{
    let mut pool = match last_made(made, id) {
        Some(pool) => pool,
        None => *old.get(&id)?,
    };
    if let Some(given) = last_sizes(sizes, id) {
        pool.size = given.size;
        pool.min_size = given.min_size;
    }
    Some(pool)
}

/// The last of these pools that has the id.
#[tactic(auto, using(pgp_tables::proofs::Common::write_steps))]
fn last_made(made: &[PoolSpec], id: PoolId) -> Option<PoolSpec>
    ensures { result ≡ last_where (λ pool. nat_eq pool.id id) made.now }
{
    let mut last = None;
    for pool in made {
        if pool.id == id {
            last = Some(*pool);
        }
    }
    last
}

/// The last of these sizes that the pool is given.
#[tactic(auto, using(pgp_tables::proofs::Common::write_steps))]
fn last_sizes(sizes: &[PoolSizes], id: PoolId) -> Option<PoolSizes>
    ensures { result ≡ last_where (λ given. nat_eq given.pool id) sizes.now }
{
    let mut last = None;
    for given in sizes {
        if given.pool == id {
            last = Some(*given);
        }
    }
    last
}
