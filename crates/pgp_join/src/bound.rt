//! How many incrementals a log has at most where they are joined.

ghost use Rattle.std.specs.Prelude.{◌≡◌, ℕ, ◌+◌, ◌*◌, ◌/◌, ◌≤◌, map, nat_eq, IfOk, OnOk};
ghost use Rattle.std.specs.HashSet.{contains};
ghost use Rattle.std.specs.Set.{IsUnion, is_member};
ghost use Rattle.pgp_group.specs.Entries.{incs_of};
ghost use Rattle.pgp_join.specs.Bound.{begun_in, devices_booted, epochs_begun, first_epochs, lists_given, most_incs};

use super::starts::Placed;
use pgp_core::Log;
use pgp_ids::{OsdId, PgId, View};
use std::alloc::{AllocError, Global};
use std::collections::HashSet;

/// For so many pg_temp lists one incremental more may be left: a run begins where the one before would give more than twice as many.
const LISTS: usize = 4096;

/// What bounds the incrementals that joining leaves of a log.
#[derive(Drop)]
pub(crate) struct Bound {
    /// The epochs in which intervals begin that matter, of all groups: the current ones, and past ones that end with the last epoch in
    /// which the group is known to have begun to serve, or later.
    pub begun: HashSet<u32>,
    /// The devices that ever boot, in ascending order.
    pub devices: Vec<OsdId>,
    /// So many incrementals remain at most.
    pub most_incs: usize,
}

impl Bound {
    /// That of the log whose incrementals are these.
    pub fn of(alloc: Global, log: &mut Log, incs: &[Placed<'_>]) -> Result<Self, AllocError>
        ensures most { IfOk result (λ bound. map (λ placed. placed.inc.now) incs.now ≡ incs_of log.old → bound.most_incs ≤ most_incs log.old) }
        ensures same { log.new ≡ log.old }
    {
        let begun = epochs_begun(alloc, log)?;
        let booted = devices_booted(alloc, incs)?;
        let all = (0..=OsdId::MAX).filter_map(OsdId::new);
        let devices = all.filter(|osd| booted.contains(osd)).collect(alloc)?;
        let most_incs = most(begun.len(), booted.len(), lists_given(incs));
        Ok(Bound {
            begun,
            devices,
            most_incs,
        })
    }
}

/// The bound for so many epochs, devices and pg_temp lists.
fn most(epochs: usize, devices: usize, lists: usize) -> usize
    ensures { result ≤ epochs + 3 * devices + 3 + lists / 4096 }
{
    let starts = epochs.saturating_add(devices.saturating_mul(3));
    starts.saturating_add(3).saturating_add(lists / LISTS)
}

/// The epochs in which intervals begin that matter, of all groups.
fn epochs_begun(alloc: Global, log: &mut Log) -> Result<HashSet<u32>, AllocError>
    ensures epochs { IfOk result (λ epochs. (q : ℕ) → contains nat_eq epochs q ≡ is_member nat_eq (epochs_begun log.old) q) }
    ensures same { log.new ≡ log.old }
{
    let groups = log.map().groups()?;
    let mut epochs = HashSet::new(alloc);
    for pg in &groups {
        put_group(&mut epochs, log, *pg)?;
    }
    Ok(epochs)
}

/// Puts in those of a group.
fn put_group(epochs: &mut HashSet<u32>, log: &mut Log, pg: PgId) -> Result<(), AllocError>
    ensures put { OnOk result (IsUnion nat_eq epochs.old.keys (begun_in log.old pg) epochs.new.keys) }
    ensures same { log.new ≡ log.old }
{
    match log.ask(pg)? {
        Some(view) => put_first_epochs(epochs, &view),
        None => Ok(()),
    }
}

/// Puts in the first epochs of a group's intervals that matter.
fn put_first_epochs(epochs: &mut HashSet<u32>, view: &View) -> Result<(), AllocError>
    ensures { OnOk result (IsUnion nat_eq epochs.old.keys (first_epochs view.now) epochs.new.keys) }
{
    epochs.insert(view.first.number())?;
    for interval in view.intervals.as_slice() {
        if view.les <= interval.last {
            epochs.insert(interval.first.number())?;
        }
    }
    Ok(())
}

/// The devices that ever boot.
fn devices_booted(alloc: Global, incs: &[Placed<'_>]) -> Result<HashSet<OsdId>, AllocError>
    ensures { IfOk result (λ booted. (q : ℕ) → contains nat_eq booted q ≡ is_member nat_eq (devices_booted (map (λ placed. placed.inc.now) incs.now)) q) }
{
    let mut booted = HashSet::new(alloc);
    for it in incs {
        booted.extend(it.inc.up.as_slice())?;
    }
    Ok(booted)
}

/// How many pg_temp lists were given, as far as a number of the machine goes.
fn lists_given(incs: &[Placed<'_>]) -> usize
    ensures { result ≤ lists_given (map (λ placed. placed.inc.now) incs.now) }
{
    let mut lists: usize = 0;
    for it in incs {
        lists = lists.saturating_add(it.inc.temp.len());
    }
    lists
}
