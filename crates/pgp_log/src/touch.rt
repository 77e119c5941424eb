//! What an incremental changes of a group.

ghost use Rattle.std.specs.List.{list_any};
ghost use Rattle.std.specs.Prelude.{◌≡◌, nat_eq};
ghost use Rattle.pgp_log.specs.Touch.{changes_no_pool, changes_placement, changes_placements, moves_none, changes_nothing, stands_in};
ghost use Rattle.pgp_group.specs.Touched.{changes_pool, changes_temp, moves_all, turned_devices};
ghost use Rattle.pgp_sets.specs.Sets.{moves};

use pgp_ids::{Incremental, OsdId, Osds, PgId, PoolId, PoolSizes, PoolSpec};
use pgp_sets::has_osd;

/// The incremental may change where the group lies, whatever becomes of devices.
pub fn changes_placement(inc: &Incremental, pg: &PgId) -> bool
    ensures { result ≡ changes_placement inc.now pg.now }
{
    moves_all(inc) || changes_pool(inc, pg.pool) || changes_temp(inc, pg)
}

/// The incremental changes placements at large: it has weights or a tree.
pub fn moves_all(inc: &Incremental) -> bool
    ensures { result ≡ moves_all inc.now }
{
    !inc.weight.is_empty() || inc.crush.is_some()
}

/// The incremental may move groups of the pool: it gives a tree, weights, or sizes of the pool.
pub fn moves(inc: &Incremental, id: PoolId) -> bool
    ensures { result ≡ moves inc.now id }
{
    moves_all(inc) || has_sizes(inc.sizes.as_slice(), id)
}

/// The incremental makes the pool, or changes its sizes.
pub fn changes_pool(inc: &Incremental, id: PoolId) -> bool
    ensures { result ≡ changes_pool inc.now id }
{
    makes_pool(inc.pools.as_slice(), id) || has_sizes(inc.sizes.as_slice(), id)
}

/// One of the pools is this one.
fn makes_pool(pools: &[PoolSpec], id: PoolId) -> bool
    ensures { result ≡ list_any (λ made. nat_eq made.id id) pools.now }
{
    pools.iter().any(|made| made.id == id)
}

/// One of the sizes is of the pool.
pub(crate) fn has_sizes(sizes: &[PoolSizes], id: PoolId) -> bool
    ensures { result ≡ list_any (λ given. nat_eq given.pool id) sizes.now }
{
    sizes.iter().any(|given| given.pool == id)
}

/// The incremental gives the group a pg_temp list, or takes it away.
pub fn changes_temp(inc: &Incremental, pg: &PgId) -> bool
    ensures { result ≡ changes_temp inc.now pg.now }
{
    inc.temp.as_slice().iter().any(|given| given.pg == *pg)
}

/// The incremental boots, takes down or destroys a device of the group's raw set or of its pg_temp list.
pub fn turns_place(inc: &Incremental, raw: &Osds, temp: &Osds) -> bool
    ensures { result ≡ list_any (stands_in raw.now temp.now) (turned_devices inc.now) }
{
    any_stands_in(inc.up.as_slice(), raw, temp)
        || any_stands_in(inc.down.as_slice(), raw, temp)
        || any_stands_in(inc.gone.as_slice(), raw, temp)
}

/// One of the devices stands in the raw set or in the pg_temp list.
fn any_stands_in(osds: &[OsdId], raw: &Osds, temp: &Osds) -> bool
    ensures { result ≡ list_any (stands_in raw.now temp.now) osds.now }
{
    osds.iter().any(|osd| stands_in(raw, temp, *osd))
}

/// The device stands in the group's raw set or in its pg_temp list: the group may lie on it.
pub fn stands_in(raw: &Osds, temp: &Osds, osd: OsdId) -> bool
    ensures { result ≡ stands_in raw.now temp.now osd }
{
    has_osd(raw.as_slice(), osd) || has_osd(temp.as_slice(), osd)
}

/// The incremental moves no group: it changes no placement, and turns no device.
pub fn moves_none(inc: &Incremental) -> bool
    ensures { result ≡ moves_none inc.now }
{
    !moves_all(inc)
        && changes_no_pool(inc)
        && inc.up.is_empty()
        && inc.down.is_empty()
        && inc.gone.is_empty()
}

/// The incremental may change where some group lies, whatever becomes of devices.
pub fn changes_placements(inc: &Incremental) -> bool
    ensures { result ≡ changes_placements inc.now }
{
    moves_all(inc) || !changes_no_pool(inc)
}

/// The incremental changes the epoch alone: it touches no group.
pub fn changes_nothing(inc: &Incremental) -> bool
    ensures { result ≡ changes_nothing inc.now }
{
    moves_none(inc) && inc.up_thru.is_empty() && inc.lost.is_empty()
}

/// The incremental makes no pool, and changes none, and no pg_temp list.
pub fn changes_no_pool(inc: &Incremental) -> bool
    ensures { result ≡ changes_no_pool inc.now }
{
    inc.pools.is_empty() && inc.sizes.is_empty() && inc.temp.is_empty()
}
