//! The table of pools.

ghost use Rattle.std.specs.Prelude.{◌≡◌, ℕ, ◌-◌, ◌≤◌, ◌^◌, min, length, nat_eq, sum_by, option_map, Some, if◌then◌else◌};
ghost use Rattle.std.specs.HashMap as hash;
ghost use Rattle.std.specs.HashMap.{spare};
ghost use Rattle.pgp_lists.specs.Last.{last_where};
ghost use Rattle.pgp_tables.specs.PoolTable.{with_sizes};
ghost use Rattle.pgp_tables.specs.PoolTable.{or_made};

use pgp_ids::{PoolId, PoolSizes, PoolSpec};
use std::collections::HashMap;

/// Makes these pools. The table has room for them.
#[tactic(auto, using(crate::proofs::Common::write_steps))]
pub fn make_all(table: &mut HashMap<PoolId, PoolSpec>, made: &[PoolSpec])
    requires { length made.now ≤ spare table.old }
    ensures { (q : ℕ) → hash.get nat_eq table.new q ≡ or_made (last_where (λ pool. nat_eq pool.id q) made.now) (hash.get nat_eq table.old q) }
{
    for pool in made {
        let inserted: Result<_, _> = table.insert(pool.id, *pool);
        let _known = inserted.unwrap();
    }
}

/// Gives the pool new sizes, if it is there.
fn resize(table: &mut HashMap<PoolId, PoolSpec>, given: &PoolSizes)
    ensures { (q : ℕ) → hash.get nat_eq table.new q ≡ (if nat_eq given.now.pool q then option_map (with_sizes (Some given.now)) (hash.get nat_eq table.old given.now.pool) else hash.get nat_eq table.old q) }
{
    if let Some(pool) = table.get_mut(&given.pool) {
        pool.size = given.size;
        pool.min_size = given.min_size;
    }
}

/// Gives these pools new sizes.
#[tactic(auto, using(crate::proofs::Common::write_steps))]
pub fn resize_all(table: &mut HashMap<PoolId, PoolSpec>, sizes: &[PoolSizes])
    ensures { (q : ℕ) → hash.get nat_eq table.new q ≡ option_map (with_sizes (last_where (λ given. nat_eq given.pool q) sizes.now)) (hash.get nat_eq table.old q) }
{
    for given in sizes {
        resize(table, given);
    }
}

/// How many groups the pools have in all, as far as that fits.
pub fn group_sum(pools: &[PoolSpec]) -> u32
    ensures { result ≡ min (sum_by (λ pool. pool.pg_num) pools.now) (2 ^ 32 - 1) }
{
    let mut sum: u32 = 0;
    for pool in pools {
        sum = sum.saturating_add(u32::from(pool.pg_num));
    }
    sum
}
