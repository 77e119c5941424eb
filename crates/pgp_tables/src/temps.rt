//! The table of pg_temp lists.

ghost use Rattle.std.specs.Prelude.{◌≡◌, ◌≤◌, ◌<◌, true, OnOk, OnErr, length, take, if◌then◌else◌};
ghost use Rattle.std.specs.List.{list_any};
ghost use Rattle.pgp_ids.specs.declared.pg_id.PgId.{PgId as Group};
ghost use Rattle.pgp_lists.specs.Last.{last_where};
ghost use Rattle.pgp_tables.specs.TempTable.{is_same_group};
ghost use Rattle.pgp_tables.specs.TempTable.{temp_at, has_temp, with_temp};

use pgp_ids::{MAX_OSDS, Osds, PgId, Place, TempList};
use std::alloc::AllocError;
use std::collections::HashMap;

/// The pg_temp list of the group, empty where it has none.
pub fn temp_at(table: &HashMap<PgId, Osds>, pg: PgId) -> &[Place]
    ensures within { length result.now ≤ MAX_OSDS }
    ensures value { result.now ≡ temp_at table.now pg }
{
    match table.get(&pg) {
        Some(osds) => osds.as_slice(),
        None => &[],
    }
}

/// Gives the group a place in the table, if it has none, where its list is as empty as before.
fn place(table: &mut HashMap<PgId, Osds>, pg: PgId) -> Result<(), AllocError>
    ensures same { (q : Group) → temp_at table.new q ≡ temp_at table.old q }
    ensures placed { OnOk result (has_temp table.new pg ≡ true) }
    ensures kept { (q : Group) → has_temp table.old q ≡ true → has_temp table.new q ≡ true }
{
    if !table.contains_key(&pg) {
        table.insert(pg, Osds::new())?;
    }
    Ok(())
}

/// Gives each group a place that has a list.
pub fn place_all(table: &mut HashMap<PgId, Osds>, temps: &[TempList]) -> Result<(), AllocError>
    ensures same { (q : Group) → temp_at table.new q ≡ temp_at table.old q }
    ensures placed { OnOk result ((q : Group) → list_any (λ given. is_same_group given.pg q) temps.now ≡ true → has_temp table.new q ≡ true) }
    ensures kept { (q : Group) → has_temp table.old q ≡ true → has_temp table.new q ≡ true }
    ensures wants { OnErr result (0 < length temps.now) }
{
    for given in temps {
        place(table, given.pg)?;
    }
    Ok(())
}

/// The first sixteen places of the list.
fn osds_of(places: &[Place]) -> Osds
    ensures { result ≡ take MAX_OSDS places.now }
{
    let mut osds = Osds::new();
    for place in places {
        if osds.is_full() {
            return osds;
        }
        osds.push(*place);
    }
    osds
}

/// Gives the group, which has a place in the table, this list.
fn set_list(table: &mut HashMap<PgId, Osds>, given: &TempList)
    requires { has_temp table.old given.now.pg ≡ true }
    ensures after { (q : Group) → temp_at table.new q ≡ (if is_same_group given.now.pg q then take MAX_OSDS given.now.osds else temp_at table.old q) }
    ensures kept { (q : Group) → has_temp table.old q ≡ true → has_temp table.new q ≡ true }
{
    if let Some(place) = table.get_mut(&given.pg) {
        *place = osds_of(given.osds.as_slice());
    }
}

/// Puts these lists into the table, in which each group has a place.
pub fn put_all(table: &mut HashMap<PgId, Osds>, temps: &[TempList])
    requires { (q : Group) → list_any (λ given. is_same_group given.pg q) temps.now ≡ true → has_temp table.old q ≡ true }
    ensures { (q : Group) → temp_at table.new q ≡ with_temp (last_where (λ given. is_same_group given.pg q) temps.now) (temp_at table.old q) }
{
    for given in temps {
        set_list(table, given);
    }
}
