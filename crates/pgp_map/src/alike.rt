//! Whether the tables of two maps say the same of all that is read of them.

ghost use Rattle.std.specs.Prelude.{◌≡◌, ℕ, true, nat_eq, is_some};
ghost use Rattle.std.specs.Bool.{Decides};
ghost use Rattle.std.specs.HashMap as hash;
ghost use Rattle.std.specs.Option.{option_copied};
ghost use Rattle.pgp_ids.specs.declared.pg_id.PgId.{PgId as Group};
ghost use Rattle.pgp_map.specs.Alike.{read_of};
ghost use Rattle.pgp_map.specs.WeightTable.{weight_in};
ghost use Rattle.pgp_tables.specs.DeviceTable.{device_at, has_place};
ghost use Rattle.pgp_tables.specs.TempTable.{has_temp, temp_at};

use super::weights::Weights;
use pgp_crush::Tree;
use pgp_ids::{OsdId, Osds, PgId, Place, PoolId, PoolSpec};
use pgp_tables::{Device, devices, temps};
use std::collections::HashMap;

/// Whether the same is read of each device.
pub(crate) fn are_devices_alike(
    table: &HashMap<OsdId, Device>,
    other: &HashMap<OsdId, Device>,
) -> bool
    ensures { Decides result ((osd : ℕ) → read_of (device_at other.now osd) ≡ read_of (device_at table.now osd)) }
{
    has_devices_of(table, other) && has_devices_of(other, table)
}

/// Whether of each device that has a place in the table the other one says the same.
fn has_devices_of(table: &HashMap<OsdId, Device>, other: &HashMap<OsdId, Device>) -> bool
    ensures { Decides result ((osd : ℕ) → has_place table.now osd ≡ true
        → read_of (device_at table.now osd) ≡ read_of (device_at other.now osd)) }
{
    table.keys().all(|osd| {
        is_device_alike(
            &devices::device_at(table, *osd),
            &devices::device_at(other, *osd),
        )
    })
}

/// Whether the same is read of both.
fn is_device_alike(device: &Device, other: &Device) -> bool
    ensures { Decides result (read_of device.now ≡ read_of other.now) }
{
    device.exists == other.exists
        && device.is_up == other.is_up
        && (!device.is_up || device.up_from == other.up_from)
        && device.up_thru == other.up_thru
        && device.lost_at == other.lost_at
}

/// Whether all devices have the same weight.
pub(crate) fn are_weights_alike(weights: &Weights, other: &Weights) -> bool
    ensures { Decides result ((osd : ℕ) → weight_in other.now.table.items osd ≡ weight_in weights.now.table.items osd) }
{
    weights.as_slice() == other.as_slice()
}

/// Whether both have the same pools.
pub(crate) fn are_pools_alike(
    table: &HashMap<PoolId, PoolSpec>,
    other: &HashMap<PoolId, PoolSpec>,
) -> bool
    ensures { Decides result ((id : ℕ) → hash.get nat_eq other.now id ≡ hash.get nat_eq table.now id) }
{
    has_pools_of(table, other) && has_pools_of(other, table)
}

/// Whether the other one has each pool of the table.
fn has_pools_of(table: &HashMap<PoolId, PoolSpec>, other: &HashMap<PoolId, PoolSpec>) -> bool
    ensures { Decides result ((id : ℕ) → is_some (hash.get nat_eq table.now id) ≡ true
        → hash.get nat_eq table.now id ≡ hash.get nat_eq other.now id) }
{
    table
        .keys()
        .all(|id| is_pool_alike(table.get(id), other.get(id)))
}

/// Whether both are the same pool, or none.
fn is_pool_alike(pool: Option<&PoolSpec>, other: Option<&PoolSpec>) -> bool
    ensures { Decides result (option_copied pool.entry ≡ option_copied other.entry) }
{
    match (pool, other) {
        (Some(pool), Some(other)) => is_pool_same(pool, other),
        (None, None) => true,
        _ => false,
    }
}

/// Whether both are the same pool.
fn is_pool_same(pool: &PoolSpec, other: &PoolSpec) -> bool
    ensures { Decides result (pool.now ≡ other.now) }
{
    pool == other
}

/// Whether each group has the same list.
pub(crate) fn are_temps_alike(table: &HashMap<PgId, Osds>, other: &HashMap<PgId, Osds>) -> bool
    ensures { Decides result ((pg : Group) → temp_at other.now pg ≡ temp_at table.now pg) }
{
    has_temps_of(table, other) && has_temps_of(other, table)
}

/// Whether each group that has a place in the table has the same list in the other one.
fn has_temps_of(table: &HashMap<PgId, Osds>, other: &HashMap<PgId, Osds>) -> bool
    ensures { Decides result ((pg : Group) → has_temp table.now pg ≡ true → temp_at table.now pg ≡ temp_at other.now pg) }
{
    table.keys().all(|pg| is_list_same(temps::temp_at(table, *pg), temps::temp_at(other, *pg)))
}

/// Whether both lists have the same devices and empty places, place by place.
fn is_list_same(list: &[Place], other: &[Place]) -> bool
    ensures { Decides result (list.now ≡ other.now) }
{
    list == other
}

/// Whether both trees have the same buckets, if there is one.
pub(crate) fn are_trees_alike(tree: Option<&Tree>, other: Option<&Tree>) -> bool
    ensures { Decides result (option_copied other.entry ≡ option_copied tree.entry) }
{
    match (tree, other) {
        (Some(tree), Some(other)) => tree.buckets() == other.buckets(),
        (None, None) => true,
        _ => false,
    }
}
