//! Lists in which something is named twice.

ghost use Rattle.std.specs.Prelude.{◌≡◌, ◌++◌, ◌||◌, ◌≤◌, ℕ, map, false, true, nat_eq, IfOk, OnErr};
ghost use Rattle.std.specs.List.{list_any};
ghost use Rattle.pgp_lists.specs.Repeats.{has_repeat};
ghost use Rattle.pgp_map.specs.MapFault.{names_twice};
ghost use Rattle.pgp_map.specs.Memory.{is_filled};
ghost use Rattle.pgp_map.specs.NumberSet.{has};
ghost use Rattle.pgp_map.specs.Pools.{is_same_group};

use super::number_set::NumberSet;
use pgp_ids::{DeviceEpoch, DeviceWeight, Incremental, OsdId, PoolSizes, PoolSpec, TempList};
use pgp_lists::has_repeat;
use std::alloc::{AllocError, Global};

/// A part of an incremental that names a device or a pool.
trait Naming {
    ghost name: { Self → ℕ };

    /// The number of the device or pool.
    fn number(&self) -> u16
        ensures value { result ≡ name self.now }
        ensures in_range { result ≤ 4095 };
}

impl Naming for OsdId {
    ghost name = { λ osd. osd };

    fn number(&self) -> u16 {
        OsdId::number(*self)
    }
}

impl Naming for DeviceWeight {
    ghost name = { λ given. given.osd };

    fn number(&self) -> u16 {
        self.osd.number()
    }
}

impl Naming for DeviceEpoch {
    ghost name = { λ told. told.osd };

    fn number(&self) -> u16 {
        self.osd.number()
    }
}

impl Naming for PoolSpec {
    ghost name = { λ pool. pool.id };

    fn number(&self) -> u16 {
        self.id.number().into()
    }
}

impl Naming for PoolSizes {
    ghost name = { λ given. given.pool };

    fn number(&self) -> u16 {
        self.pool.number().into()
    }
}

/// What the items name is put into the set, up to the first that is there already. Answers whether there is one.
fn meets<T: Naming>(seen: &mut NumberSet, items: &[T]) -> bool
    ensures value { result ≡ (has_repeat nat_eq (map T.name items.now) || list_any (has seen.old) (map T.name items.now)) }
    ensures put { result ≡ false → (n : ℕ) → has seen.new n ≡ (list_any (nat_eq n) (map T.name items.now) || has seen.old n) }
{
    for item in items {
        if !seen.insert(item.number()) {
            return true;
        }
    }
    false
}

/// Something is named twice in the list.
fn names_twice<T: Naming>(items: &[T]) -> bool
    ensures { result ≡ has_repeat nat_eq (map T.name items.now) }
{
    meets(&mut NumberSet::empty(), items)
}

/// A device is twice among those that boot, are taken down or are destroyed.
fn changes_twice(inc: &Incremental) -> bool
    ensures { result ≡ has_repeat nat_eq (inc.now.up ++ inc.now.down ++ inc.now.gone) }
{
    let mut seen = NumberSet::empty();
    if meets(&mut seen, inc.up.as_slice()) {
        return true;
    }
    if meets(&mut seen, inc.down.as_slice()) {
        return true;
    }
    meets(&mut seen, inc.gone.as_slice())
}

/// A pool is twice among those that are made or given sizes.
fn sizes_twice(inc: &Incremental) -> bool
    ensures { result ≡ has_repeat nat_eq (map (λ pool. pool.id) inc.now.pools ++ map (λ given. given.pool) inc.now.sizes) }
{
    let mut seen = NumberSet::empty();
    if meets(&mut seen, inc.pools.as_slice()) {
        return true;
    }
    meets(&mut seen, inc.sizes.as_slice())
}

/// A group is given two pg_temp lists.
fn lists_twice(alloc: Global, temps: &[TempList]) -> Result<bool, AllocError>
    ensures value { IfOk result (λ twice. twice ≡ has_repeat is_same_group (map (λ given. given.pg) temps.now)) }
    ensures wants { OnErr result (is_filled temps.now ≡ true) }
{
    if temps.is_empty() {
        return Ok(false);
    }
    let mut groups = Vec::new(alloc);
    for given in temps {
        groups.push(given.pg)?;
    }
    has_repeat(alloc, &groups)
}

/// Something is there twice where it may be once.
pub(crate) fn has_twice(alloc: Global, inc: &Incremental) -> Result<bool, AllocError>
    ensures value { IfOk result (λ twice. twice ≡ names_twice inc.now) }
    ensures wants { OnErr result (is_filled inc.now.temp ≡ true) }
{
    Ok(
        changes_twice(inc)
            || names_twice(inc.weight.as_slice())
            || names_twice(inc.up_thru.as_slice())
            || names_twice(inc.lost.as_slice())
            || sizes_twice(inc)
            || lists_twice(alloc, inc.temp.as_slice())?,
    )
}
