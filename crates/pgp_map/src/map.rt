//! The cluster map.

ghost use Rattle.std.specs.Prelude.{◌≡◌, ◌≤◌, [], true, Some, None, Err, OnOk, OnErr, IfOk, IfErr, ◌++◌, ◌⊎◌, option_copied, option_map, map, length, false};
ghost use Rattle.std.specs.Bool.{Decides};
ghost use Rattle.std.specs.List.{Contains};
ghost use Rattle.pgp_ids.specs.declared.pg_id.PgId.{PgId as Group};
ghost use Rattle.pgp_crush.specs.Bucket.{bucket_of};
ghost use Rattle.pgp_map.specs.Alike.{SayTheSame};
ghost use Rattle.pgp_map.specs.kept.Room.{HasRoom};
ghost use Rattle.pgp_map.specs.Memory.{MayLackMemory, may_grow};
ghost use Rattle.pgp_map.specs.MapOf.{IsMapOf, Says};
ghost use Rattle.pgp_map.specs.Held.{held_exists, held_groups, held_up, held_lost_at, held_pool};
ghost use Rattle.pgp_map.specs.Devices.{exists, is_up, up_from, down_at, up_thru, lost_at, weight, weights};
ghost use Rattle.pgp_map.specs.Pools.{has_group, pool, temp};
ghost use Rattle.pgp_map.specs.Map.{epoch, tree};
ghost use Rattle.pgp_map.specs.MapFault.{map_fault, given_fault, then_with, has_epoch_gap, has_unknown_device, has_lost_up, has_still_up, has_ahead, has_bad_pool, has_bad_temp};
ghost use Rattle.pgp_map.specs.kept.Findings.{AreFindings};

use super::alike::{
    are_devices_alike, are_pools_alike, are_temps_alike, are_trees_alike, are_weights_alike,
};
use super::fault::MapFault;
use super::findings::Findings;
use super::searched_devices::SearchedDevices;
use super::trees::{check_tree, given_tree};
use super::weights::Weights;
use super::{ranges, repeats, standing, temp_check};
use pgp_crush::{DEVICES, Tree};
use pgp_ids::{Epoch, Incremental, MAX_OSDS, OsdId, Osds, PgId, Place, PoolId, PoolSpec};
use pgp_tables::{Device, devices, pools, temps};
use std::alloc::{AllocError, Global};
use std::collections::HashMap;

/// How many groups the pools have at most, in all.
const MAX_GROUPS: u32 = 16384;

/// The cluster map: the devices, pools and placement groups of one epoch, and what holds of them.
pub struct OsdMap {
    alloc: Global,
    epoch: Epoch,
    devices: HashMap<OsdId, Device>,
    weights: Weights,
    pools: HashMap<PoolId, PoolSpec>,
    /// How many groups the pools have in all.
    group_count: u32,
    temps: HashMap<PgId, Osds>,
    tree: Option<Tree>,
}

// Written out, so that a crate which lets one go has nothing to prove of what lies within.
impl Drop for OsdMap {
    fn drop(self) {
        let OsdMap {
            alloc: _,
            epoch: _,
            devices: _,
            weights: _,
            pools: _,
            group_count: _,
            temps: _,
            tree: _,
        } = self;
    }
}

impl OsdMap {
    /// The map of epoch 0, which has nothing. It takes no memory.
    pub fn empty(alloc: Global) -> Self
        ensures { IsMapOf [] result }
    {
        OsdMap {
            alloc,
            epoch: Epoch::new(0),
            devices: HashMap::new(alloc),
            weights: Weights::new(alloc),
            pools: HashMap::new(alloc),
            group_count: 0,
            temps: HashMap::new(alloc),
            tree: None,
        }
    }

    /// Whether the incremental can be applied. It can't if it has a fault, of which the first in the order of [`MapFault`] is
    /// answered; or there was no memory to look at it. Memory is taken only for an incremental that changes this map: for its pg_temp
    /// lists, and for its tree where the rest has no fault. The map stays as it is.
    pub fn check(&self, inc: &Incremental) -> Result<(), MapFault>
        ensures ok { OnOk result (Says self.now (λ incs. map_fault incs inc.now ≡ None)) }
        ensures tree { OnOk result (given_fault inc.now.crush ≡ None) }
        ensures fault { IfErr result (λ fault. (fault ≡ MapFault.Memory) ⊎ Says self.now (λ incs. map_fault incs inc.now ≡ Some fault)) }
        ensures wants { result ≡ Err MapFault.Memory → Says self.now (λ incs. MayLackMemory incs inc.now) }
    {
        if self.has_epoch_gap(inc) {
            return Err(MapFault::EpochGap);
        }
        if repeats::has_twice(self.alloc, inc)? {
            return Err(MapFault::Twice);
        }
        match self.findings(inc).first() {
            Some(fault) => Err(fault),
            None => check_tree(self.alloc, &inc.crush),
        }
    }

    /// The tests that an incremental that changes this map fails, in which nothing is twice, its tree aside.
    fn findings(&self, inc: &Incremental) -> Findings
        ensures { Says self.now (λ incs. AreFindings incs inc.now result) }
    {
        Findings {
            unknown_device: self.has_unknown_device(inc),
            already_up: standing::has_up(&self.devices, inc.up.as_slice()),
            already_down: standing::has_down(&self.devices, inc.down.as_slice()),
            still_up: self.has_still_up(inc),
            up_thru_back: standing::has_up_thru_back(&self.devices, inc.up_thru.as_slice()),
            ahead: has_ahead(inc),
            bad_pool: self.has_bad_pool(inc),
            pool_known: ranges::has_known(&self.pools, inc.pools.as_slice()),
            bad_temp: temp_check::has_bad_temp(&self.pools, inc),
        }
    }

    /// The incremental changes a map of another epoch, or doesn't lead to a later one.
    fn has_epoch_gap(&self, inc: &Incremental) -> bool
        ensures { Says self.now (λ incs. result ≡ has_epoch_gap incs inc.now) }
    {
        inc.after != self.epoch || inc.epoch <= inc.after
    }

    /// Down, gone, weight, up_thru or lost names a device that is absent and doesn't boot.
    fn has_unknown_device(&self, inc: &Incremental) -> bool
        ensures { Says self.now (λ incs. result ≡ has_unknown_device incs inc.now) }
    {
        let boots = SearchedDevices::of(inc.up.as_slice());
        standing::has_unknown(&self.devices, &boots, inc)
    }

    /// A device is destroyed that is up, or given up for lost that is up in the new map.
    fn has_still_up(&self, inc: &Incremental) -> bool
        ensures { Says self.now (λ incs. result ≡ has_still_up incs inc.now) }
    {
        standing::has_up(&self.devices, inc.gone.as_slice()) || self.has_lost_up(inc)
    }

    /// A device is given up for lost that is up in the new map.
    fn has_lost_up(&self, inc: &Incremental) -> bool
        ensures { Says self.now (λ incs. result ≡ has_lost_up incs inc.now) }
    {
        let boots = SearchedDevices::of(inc.up.as_slice());
        let downs = SearchedDevices::of(inc.down.as_slice());
        let destroyed = SearchedDevices::of(inc.gone.as_slice());
        inc.lost.as_slice().iter().any(|entry| {
            let is_turned_off = downs.contains(entry.osd) || destroyed.contains(entry.osd);
            let was_up = devices::device_at(&self.devices, entry.osd).is_up;
            boots.contains(entry.osd) || !is_turned_off && was_up
        })
    }

    /// A pool is made of numbers out of range or given sizes to which it can't change, or there are too many groups.
    fn has_bad_pool(&self, inc: &Incremental) -> bool
        ensures { Says self.now (λ incs. result ≡ has_bad_pool incs inc.now) }
    {
        let made = pools::group_sum(inc.pools.as_slice());
        ranges::has_bad_spec(inc.pools.as_slice())
            || ranges::has_bad_sizes(&self.pools, inc.sizes.as_slice())
            || self.group_count.saturating_add(made) > MAX_GROUPS
    }

    /// Makes this the map after the incremental, which [`OsdMap::check`] doesn't refuse. It takes memory only for a device that
    /// isn't there, or for weights, pools, pg_temp lists or a tree. After an error the map says what it said before. What an
    /// incremental with a fault other than its tree's makes of the map is left open.
    pub fn apply(&mut self, inc: &Incremental) -> Result<(), AllocError>
        requires { given_fault inc.now.crush ≡ None }
        ensures ok { OnOk result (Says self.old (λ incs. map_fault incs inc.now ≡ None → IsMapOf (then_with incs inc.now) self.new)) }
        ensures err { OnErr result (Says self.old (λ incs. IsMapOf incs self.new)) }
        ensures wants { OnErr result (Says self.old (λ incs. may_grow incs inc.now ≡ true)) }
    {
        let tree = given_tree(self.alloc, &inc.crush)?;
        self.make_room(inc)?;
        self.change(inc, tree);
        Ok(())
    }

    /// Makes room for all that the incremental names. The map says what it said before.
    fn make_room(&mut self, inc: &Incremental) -> Result<(), AllocError>
        ensures same { Says self.old (λ incs. IsMapOf incs self.new) }
        ensures room { OnOk result (HasRoom inc.now self.new) }
        ensures wants { OnErr result (Says self.old (λ incs. may_grow incs inc.now ≡ true)) }
    {
        devices::place_named(&mut self.devices, inc)?;
        self.weights.place(inc.weight.as_slice())?;
        self.pools.reserve(inc.pools.len())?;
        temps::place_all(&mut self.temps, inc.temp.as_slice())
    }

    /// Changes the map as the incremental says, for which it has room. `tree` is the tree that it gives.
    fn change(&mut self, inc: &Incremental, tree: Option<Tree>)
        requires room { HasRoom inc.now self.old }
        requires tree { tree ≡ option_map (map bucket_of) inc.now.crush }
        ensures { Says self.old (λ incs. map_fault incs inc.now ≡ None → IsMapOf (then_with incs inc.now) self.new) }
    {
        self.epoch = inc.epoch;
        devices::change(&mut self.devices, inc);
        self.weights.set_all(inc.weight.as_slice());
        pools::make_all(&mut self.pools, inc.pools.as_slice());
        pools::resize_all(&mut self.pools, inc.sizes.as_slice());
        let made = pools::group_sum(inc.pools.as_slice());
        self.group_count = self.group_count.saturating_add(made);
        temps::put_all(&mut self.temps, inc.temp.as_slice());
        self.tree = tree.or(self.tree.take());
    }

    /// The epoch of the last incremental, or 0 if there is none yet.
    pub fn epoch(&self) -> Epoch
        ensures { Says self.now (λ incs. result ≡ epoch incs) }
    {
        self.epoch
    }

    /// The device was booted, and not destroyed since.
    #[tactic(auto, unfolding(crate::specs::Held::held_exists))]
    pub fn exists(&self, osd: OsdId) -> bool
        ensures held { result ≡ held_exists self.now osd }
        ensures value { Says self.now (λ incs. result ≡ exists incs osd) }
    {
        devices::device_at(&self.devices, osd).exists
    }

    /// The device was booted, and neither taken down nor destroyed since.
    #[tactic(auto, unfolding(crate::specs::Held::held_up))]
    pub fn is_up(&self, osd: OsdId) -> bool
        ensures held { result ≡ held_up self.now osd }
        ensures value { Says self.now (λ incs. result ≡ is_up incs osd) }
    {
        devices::device_at(&self.devices, osd).is_up
    }

    /// The last epoch that booted the device, 0 if none did.
    pub fn up_from(&self, osd: OsdId) -> Epoch
        ensures { Says self.now (λ incs. result ≡ up_from incs osd) }
    {
        devices::device_at(&self.devices, osd).up_from
    }

    /// The last epoch that took the device down, 0 if none did.
    pub fn down_at(&self, osd: OsdId) -> Epoch
        ensures { Says self.now (λ incs. result ≡ down_at incs osd) }
    {
        devices::device_at(&self.devices, osd).down_at
    }

    /// The epoch through which the device is known to have been up, 0 if none was told.
    pub fn up_thru(&self, osd: OsdId) -> Epoch
        ensures { Says self.now (λ incs. result ≡ up_thru incs osd) }
    {
        devices::device_at(&self.devices, osd).up_thru
    }

    /// The epoch at which the device was given up for lost, 0 if it wasn't.
    #[tactic(auto, unfolding(crate::specs::Held::held_lost_at))]
    pub fn lost_at(&self, osd: OsdId) -> Epoch
        ensures held { result ≡ held_lost_at self.now osd }
        ensures value { Says self.now (λ incs. result ≡ lost_at incs osd) }
    {
        devices::device_at(&self.devices, osd).lost_at
    }

    /// The device's weight, in units of 1/0x10000; 0x10000 if none was given.
    pub fn weight(&self, osd: OsdId) -> u32
        ensures { Says self.now (λ incs. result ≡ weight incs osd) }
    {
        self.weights.weight(osd)
    }

    /// The weights of the devices 0 to 4095, in units of 1/0x10000.
    pub fn weights(&self) -> &[u32]
        ensures long { length result.now ≡ DEVICES }
        ensures value { Says self.now (λ incs. result.now ≡ weights incs) }
    {
        self.weights.as_slice()
    }

    /// The pool, with its present sizes.
    #[tactic(auto, unfolding(crate::specs::Held::held_pool))]
    pub fn pool(&self, id: PoolId) -> Option<PoolSpec>
        ensures held { result ≡ held_pool self.now id }
        ensures value { Says self.now (λ incs. result ≡ pool incs id) }
    {
        self.pools.get(&id).copied()
    }

    /// The pool is there, and has this group.
    pub fn has_group(&self, pg: &PgId) -> bool
        ensures { Says self.now (λ incs. result ≡ has_group incs pg.now) }
    {
        match self.pool(pg.pool) {
            Some(pool) => pg.pg < pool.pg_num,
            None => false,
        }
    }

    /// All groups, those of a pool in a row.
    pub fn groups(&self) -> Result<Vec<PgId>, AllocError>
        ensures { IfOk result (λ groups. Says self.now (λ incs. (pg : Group) → has_group incs pg ≡ true → Contains groups.items pg)) }
    {
        let mut groups = Vec::new(self.alloc);
        for id in self.pools.keys() {
            self.put_groups(*id, &mut groups)?;
        }
        Ok(groups)
    }

    /// Puts the groups of a pool behind `groups`.
    fn put_groups(&self, id: PoolId, groups: &mut Vec<PgId>) -> Result<(), AllocError>
        ensures { OnOk result (groups.new.items ≡ groups.old.items ++ held_groups self.now id) }
    {
        let Some(pool) = self.pool(id) else {
            return Ok(());
        };
        for pg in 0..pool.pg_num {
            groups.push(PgId { pool: id, pg })?;
        }
        Ok(())
    }

    /// The group's pg_temp list; empty if it has none.
    pub fn temp(&self, pg: PgId) -> &[Place]
        ensures within { length result.now ≤ MAX_OSDS }
        ensures value { Says self.now (λ incs. result.now ≡ temp incs pg) }
    {
        temps::temp_at(&self.temps, pg)
    }

    /// The group's pg_temp list, as a copy, which takes no memory.
    pub fn copied_temp(&self, pg: PgId) -> Osds
        ensures { Says self.now (λ incs. result ≡ temp incs pg) }
    {
        let mut copy = Osds::new();
        for place in self.temp(pg) {
            copy.push(*place);
        }
        copy
    }

    /// The placement tree, if one was given.
    pub fn tree(&self) -> Option<&Tree>
        ensures { Says self.now (λ incs. option_copied result ≡ tree incs) }
    {
        self.tree.as_ref()
    }

    /// Whether both maps say the same of all that entries and views read of them, their epochs aside.
    pub fn says_the_same(&self, other: &OsdMap) -> bool
        ensures { Says self.now (λ incs. Says other.now (λ others. Decides result (SayTheSame incs others))) }
    {
        are_devices_alike(&self.devices, &other.devices)
            && are_weights_alike(&self.weights, &other.weights)
            && are_pools_alike(&self.pools, &other.pools)
            && are_temps_alike(&self.temps, &other.temps)
            && are_trees_alike(self.tree(), other.tree())
            && self.group_count == other.group_count
    }
}

/// An up_thru or the epoch of a loss is above the incremental's.
fn has_ahead(inc: &Incremental) -> bool
    ensures { result ≡ has_ahead inc.now }
{
    standing::has_ahead(inc.epoch, inc.up_thru.as_slice())
        || standing::has_ahead(inc.epoch, inc.lost.as_slice())
}
