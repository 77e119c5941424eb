//! Where a placement group lies.

ghost use Rattle.std.specs.Prelude.{◌≡◌, ◌≤◌, Some, option_map};
ghost use Rattle.pgp_map.specs.Held.{HasGroup};
ghost use Rattle.pgp_map.specs.MapOf.{Says};
ghost use Rattle.pgp_map.specs.Pools.{pool};
ghost use Rattle.pgp_sets.specs.Sets.{membership, raw_set, without_down, members_from_up, placement_input};

use super::places::without_down;
use pgp_crush::{Rule, place};
use pgp_hash::{hash2, mask_of, stable_mod};
use pgp_ids::{MAX_OSDS, Membership, Osds, PgId, PoolSpec};
use pgp_map::OsdMap;

/// Where the group lies by this map: its up set, its acting set and their primaries, with the sizes of its pool.
///
/// The up set is where placement by the map's tree puts the group, without devices that aren't up. The acting set is the
/// group's pg_temp list without such devices, or the up set where that leaves no place; a list of empty places isn't empty.
/// This follows Ceph's developer documentation on peering. The map has to have the group, in a pool of size 16 at most, as
/// each pool is whose map came by checked incrementals. No memory is taken.
pub fn up_acting(map: &OsdMap, pg: PgId) -> Membership
    requires { HasGroup map.now pg }
    ensures { Says map.now (λ incs. membership incs pg ≡ Some result) }
{
    filter(map, &pg, &raw(map, &pg))
}

/// Where the tree puts the group, whatever became of the devices. It stays so while the tree, the weights and the pool's
/// size do. No memory is taken.
pub fn raw(map: &OsdMap, pg: &PgId) -> Osds
    requires { HasGroup map.now pg.now }
    ensures { Says map.now (λ incs. option_map (λ made. raw_set incs made pg.now) (pool incs pg.now.pool) ≡ Some result) }
{
    let pool = pool_of(map, pg);
    let rule = Rule {
        indep: pool.kind.is_by_place(),
        leaf: pool.leaf,
    };
    let input = placement_input(&pool, pg);
    place(map.tree(), rule, map.weights(), input, pool.size)
}

/// The membership of the group, where the tree puts it on these places: [`up_acting`] is this of [`raw`]. No memory is taken.
pub fn filter(map: &OsdMap, pg: &PgId, raw: &Osds) -> Membership
    requires { HasGroup map.now pg.now }
    ensures { Says map.now (λ incs. option_map (λ made. members_from_up incs made pg.now (without_down incs made raw.now)) (pool incs pg.now.pool)
        ≡ Some result) }
{
    let pool = pool_of(map, pg);
    let up = without_down(map, &pool, raw.as_slice());
    let given = without_down(map, &pool, map.temp(*pg));
    let acting = if given.is_empty() { up.copy() } else { given };
    let up_primary = up.first();
    let acting_primary = acting.first();
    Membership {
        up,
        up_primary,
        acting,
        acting_primary,
        size: pool.size,
        min_size: pool.min_size,
    }
}

/// The group's pool.
pub(crate) fn pool_of(map: &OsdMap, pg: &PgId) -> PoolSpec
    requires { HasGroup map.now pg.now }
    ensures told { Says map.now (λ incs. pool incs pg.now.pool ≡ Some result) }
    ensures size { result.size ≤ MAX_OSDS }
{
    // Not `unwrap`, of which the toolchain has no proof at a type that holds the parts of a grouped pool.
    match map.pool(pg.pool) {
        Some(pool) => pool,
        None => unreachable!(),
    }
}

/// What the group's placement hashes: its number among those of the pool, and the pool.
pub(crate) fn placement_input(pool: &PoolSpec, pg: &PgId) -> u32
    ensures { result ≡ placement_input pool.now pg.now }
{
    let groups = u32::from(pool.pg_num);
    let group = stable_mod(u32::from(pg.pg), groups, mask_of(groups));
    hash2(group, u32::from(pg.pool.number()))
}
