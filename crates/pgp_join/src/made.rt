//! One incremental in place of a run of them.

use super::starts::Placed;
use pgp_ids::{
    DeviceEpoch, DeviceWeight, Epoch, Incremental, OsdId, PgId, PoolId, PoolKind, PoolSizes,
    PoolSpec, Seq, TempList,
};
use pgp_map::{OsdMap, copied_buckets};
use std::alloc::{AllocError, Global};
use std::collections::HashSet;

/// What a run leads from and to.
#[derive(Clone, Copy)]
pub(crate) struct Run<'a> {
    /// Its incrementals.
    pub incs: &'a [Placed<'a>],
    /// The devices that ever boot.
    pub devices: &'a [OsdId],
    /// The map before the incremental that is made.
    pub before: &'a OsdMap,
    /// The map of the log at the end of the run.
    pub after: &'a OsdMap,
    /// Whether it is the last run. Devices are destroyed in that one alone.
    pub is_last: bool,
}

impl Run<'_> {
    /// The incremental in this epoch that leads from the one map to the other, as far as it can be told yet.
    pub fn inc(&self, alloc: Global, epoch: Epoch) -> Result<Incremental, AllocError> {
        let mut inc = Incremental::empty(alloc, self.before.epoch(), epoch);
        for osd in self.devices {
            self.put_device(&mut inc, *osd)?;
        }
        for number in 1..=u8::MAX {
            if let Some(id) = PoolId::new(number) {
                self.put_pool(&mut inc, id)?;
            }
        }
        self.put_temps(alloc, &mut inc)?;
        self.put_tree(alloc, &mut inc)?;
        Ok(inc)
    }

    /// Puts in what becomes of the device.
    fn put_device(&self, inc: &mut Incremental, osd: OsdId) -> Result<(), AllocError> {
        let is_up = self.after.is_up(osd);
        let was_up = self.before.is_up(osd);
        if is_up && !was_up {
            inc.up.push(osd)?;
        }
        if was_up && !is_up {
            inc.down.push(osd)?;
        }
        if !self.before.exists(osd) && !is_up {
            return Ok(());
        }
        if self.is_last && !self.after.exists(osd) {
            inc.gone.push(osd)?;
        }
        let weight = self.after.weight(osd);
        if weight != self.before.weight(osd) {
            inc.weight.push(DeviceWeight { osd, weight })?;
        }
        self.put_epochs(inc, osd, is_up)
    }

    /// Puts in the device's up_thru, and when it was given up for lost, where the epoch of the incremental allows it.
    fn put_epochs(&self, inc: &mut Incremental, osd: OsdId, is_up: bool) -> Result<(), AllocError> {
        let epoch = self.after.up_thru(osd).min(inc.epoch);
        if self.before.up_thru(osd) < epoch {
            inc.up_thru.push(DeviceEpoch { osd, epoch })?;
        }
        let epoch = self.after.lost_at(osd);
        if epoch != self.before.lost_at(osd) && !is_up && epoch <= inc.epoch {
            inc.lost.push(DeviceEpoch { osd, epoch })?;
        }
        Ok(())
    }

    /// Puts in the pool, or its sizes where they are new.
    fn put_pool(&self, inc: &mut Incremental, id: PoolId) -> Result<(), AllocError> {
        let Some(pool) = self.after.pool(id) else {
            return Ok(());
        };
        match self.before.pool(id) {
            None => {
                let kind: PoolKind = pool.kind;
                inc.pools.push(PoolSpec { kind, ..pool })
            }
            Some(old) if old.size == pool.size && old.min_size == pool.min_size => Ok(()),
            Some(_) => inc.sizes.push(PoolSizes {
                pool: id,
                size: pool.size,
                min_size: pool.min_size,
            }),
        }
    }

    /// Puts in the pg_temp lists of the groups that the run names.
    fn put_temps(&self, alloc: Global, inc: &mut Incremental) -> Result<(), AllocError> {
        let mut known = HashSet::new(alloc);
        for it in self.incs {
            for temp in it.inc.temp.as_slice() {
                if known.insert(temp.pg)? {
                    self.put_temp(alloc, inc, &temp.pg)?;
                }
            }
        }
        Ok(())
    }

    fn put_temp(&self, alloc: Global, inc: &mut Incremental, pg: &PgId) -> Result<(), AllocError> {
        let list = self.after.temp(*pg);
        if list == self.before.temp(*pg) {
            return Ok(());
        }
        let osds = Seq::from_vec(list.to_vec(alloc)?);
        inc.temp.push(TempList { pg: *pg, osds })
    }

    /// Puts in the last tree that the run gives.
    fn put_tree(&self, alloc: Global, inc: &mut Incremental) -> Result<(), AllocError> {
        let trees = self.incs.iter().rev();
        if let Some(tree) = trees.filter_map(|it| it.inc.crush.as_ref()).next() {
            let buckets = copied_buckets(alloc, tree.as_slice())?;
            inc.crush = Some(Seq::from_vec(buckets));
        }
        Ok(())
    }
}
