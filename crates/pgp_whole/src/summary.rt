//! What groups say together: how many have which verdict, and for which devices they wait.

ghost use Rattle.std.specs.Prelude.{◌≡◌, ◌++◌, [], ◌∷◌, List, filter_map, IfOk, OnOk};
ghost use Rattle.pgp_ids.specs.declared.pg_id.PgId.{PgId as Group};
ghost use Rattle.pgp_map.specs.MapOf.{Says};
ghost use Rattle.pgp_group.specs.GroupLog.{group_in};
ghost use Rattle.pgp_whole.specs.kept.Hearing.{AreStamps};
ghost use Rattle.pgp_whole.specs.Summary.{all_groups, groups_of_pool, summary_of, verdict_count};
ghost use Rattle.pgp_whole.specs.kept.Sums.{AreSums};

use super::devices::{DeviceWaits, devices_of};
use super::group_sums::GroupSums;
use super::stamps::{Stamps, stamps_of};
use pgp_core::Log;
use pgp_ids::{Epoch, PgId, PoolId, Seq, Verdict};
use pgp_map::OsdMap;
use std::alloc::{AllocError, Global};

/// What the groups of a log say together.
#[derive(Drop)]
pub(crate) struct Summary {
    pub epoch: Epoch,
    /// Of each group.
    pub verdicts: Seq<Verdict>,
    /// The devices for which groups wait: the one that frees most groups alone first.
    pub devices: Seq<DeviceWaits>,
}

impl Summary {
    /// How many groups have this verdict.
    pub fn count(&self, verdict: Verdict) -> usize
        ensures { result ≡ verdict_count self.now.verdicts verdict }
    {
        let verdicts = self.verdicts.as_slice();
        verdicts.iter().filter(|other| **other == verdict).count()
    }
}

/// What the log says of all groups of its map together.
///
/// It asks for each group once, after one walk over the log for the stamps of infos.
pub(crate) fn summary_of(alloc: Global, log: &mut Log) -> Result<Summary, AllocError>
    ensures value { IfOk result (λ summary. summary ≡ summary_of log.old) }
    ensures same { log.new ≡ log.old }
{
    let groups = all_groups(alloc, log.map())?;
    let stamps = stamps_of(alloc, log.entries())?;
    let sums = sums_of(alloc, log, groups.as_slice(), &stamps)?;
    let devices = devices_of(alloc, &sums)?;
    Ok(Summary {
        epoch: log.map().epoch(),
        verdicts: sums.verdicts,
        devices,
    })
}

/// The groups of all pools of the map, in ascending order.
fn all_groups(alloc: Global, map: &OsdMap) -> Result<Vec<PgId>, AllocError>
    ensures { IfOk result (λ groups. Says map.now (λ incs. groups.items ≡ all_groups incs)) }
{
    let mut groups = Vec::new(alloc);
    for below in 0..u8::MAX {
        if let Some(pool) = PoolId::new(below + 1) {
            put_groups(map, pool, &mut groups)?;
        }
    }
    Ok(groups)
}

/// Puts the groups of a pool behind `groups`; none where the map doesn't have it.
fn put_groups(map: &OsdMap, id: PoolId, groups: &mut Vec<PgId>) -> Result<(), AllocError>
    ensures { OnOk result (Says map.now (λ incs. groups.new.items ≡ groups.old.items ++ groups_of_pool incs id)) }
{
    let Some(pool) = map.pool(id) else {
        return Ok(());
    };
    for pg in 0..pool.pg_num {
        groups.push(PgId { pool: id, pg })?;
    }
    Ok(())
}

/// What the views of these groups tell of them together, by the stamps of the log's infos.
fn sums_of(
    alloc: Global,
    log: &mut Log,
    groups: &[PgId],
    stamps: &Stamps,
) -> Result<GroupSums, AllocError>
    ensures value { IfOk result (λ sums. AreStamps log.old stamps.now → AreSums (filter_map (group_in log.old) groups.now) sums) }
    ensures same { log.new ≡ log.old }
{
    let mut sums = GroupSums::new(alloc)?;
    for pg in groups {
        add_group(alloc, log, pg, stamps, &mut sums)?;
    }
    Ok(sums)
}

/// Takes in the group, where the map has it.
fn add_group(
    alloc: Global,
    log: &mut Log,
    pg: &PgId,
    stamps: &Stamps,
    sums: &mut GroupSums,
) -> Result<(), AllocError>
    ensures more { OnOk result ((groups : List Group) → AreStamps log.old stamps.now → AreSums (filter_map (group_in log.old) groups) sums.old
        → AreSums (filter_map (group_in log.old) (groups ++ pg.now ∷ [])) sums.new) }
    ensures same { log.new ≡ log.old }
{
    match log.ask(*pg)? {
        Some(view) => sums.add(alloc, log.map(), pg, &view, stamps),
        None => Ok(()),
    }
}
