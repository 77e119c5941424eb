//! A map incremental, as C gives it.

ghost use Rattle.pgp_c.specs.Each.{IsGiven, PutsGiven};
ghost use Rattle.pgp_c.specs.Inc.{SubmitsGiven, after_of, given_inc, allowed_tree, with_devices, with_given_pools};

use super::devices::{PgpDeviceEpoch, PgpDeviceWeight};
use super::each::each_of;
use super::pools::{PgpPool, PgpPoolSizes, PgpTemp};
use super::status::Status;
use super::submit::tell;
use super::tree::PgpBucket;
use pgp_core::Session;
use pgp_ids::{BucketSpec, Entry, Epoch, Incremental, Seq};
use pgp_lines::Format;
use std::alloc::Global;

/// A map incremental. Its parts are those of [`Incremental`].
#[repr(C)]
pub struct PgpInc<'a> {
    pub epoch: u32,
    pub after: u32,
    pub up: &'a [u32],
    pub down: &'a [u32],
    pub gone: &'a [u32],
    pub weight: &'a [PgpDeviceWeight],
    pub up_thru: &'a [PgpDeviceEpoch],
    pub lost: &'a [PgpDeviceEpoch],
    pub pools: &'a [PgpPool],
    pub sizes: &'a [PgpPoolSizes],
    pub temp: &'a [PgpTemp],
    /// The buckets of the tree that replaces the old one; without a bucket the old one stays.
    pub crush: &'a [PgpBucket<'a>],
}

/// Adds an incremental to the session's log.
pub fn submit_inc(alloc: Global, session: &mut Session, given: &PgpInc<'_>) -> u32
    ensures { SubmitsGiven (given_inc session.old.format given.now) session.old session.new result }
{
    match inc_of(alloc, session.format(), given) {
        Ok(inc) => tell(session, Entry::Inc(inc)),
        Err(status) => status.number(),
    }
}

/// The incremental, where a session that reads lines up to this version may be told of it.
fn inc_of(alloc: Global, format: Format, given: &PgpInc<'_>) -> Result<Incremental, Status>
    ensures { IsGiven result (given_inc format given.now) }
{
    let after = after_of(format, given)?;
    let tree = tree_in(alloc, format, given)?;
    let mut inc = Incremental::empty(alloc, Epoch::new(after), Epoch::new(given.epoch));
    put_devices(alloc, given, &mut inc)?;
    put_pools(alloc, given, &mut inc)?;
    inc.crush = tree;
    Ok(inc)
}

/// The epoch of the map that it changes.
fn after_of(format: Format, given: &PgpInc<'_>) -> Result<u32, Status>
    ensures { IsGiven result (after_of format given.now) }
{
    if format.has_after() || given.after == given.epoch.saturating_sub(1) {
        Ok(given.after)
    } else {
        Err(Status::BadArgument)
    }
}

/// Puts in what it says of devices.
fn put_devices(alloc: Global, given: &PgpInc<'_>, inc: &mut Incremental) -> Result<(), Status>
    ensures { PutsGiven result (with_devices given.now inc.old) inc.new }
{
    inc.up = each_of(alloc, given.up)?;
    inc.down = each_of(alloc, given.down)?;
    inc.gone = each_of(alloc, given.gone)?;
    inc.weight = each_of(alloc, given.weight)?;
    inc.up_thru = each_of(alloc, given.up_thru)?;
    inc.lost = each_of(alloc, given.lost)?;
    Ok(())
}

/// Puts in what it says of pools and groups.
fn put_pools(alloc: Global, given: &PgpInc<'_>, inc: &mut Incremental) -> Result<(), Status>
    ensures { PutsGiven result (with_given_pools given.now inc.old) inc.new }
{
    inc.pools = each_of(alloc, given.pools)?;
    inc.sizes = each_of(alloc, given.sizes)?;
    inc.temp = each_of(alloc, given.temp)?;
    Ok(())
}

/// The tree, where the version has each of its buckets.
fn tree_in(
    alloc: Global,
    format: Format,
    given: &PgpInc<'_>,
) -> Result<Option<Seq<BucketSpec>>, Status>
    ensures { IsGiven result (allowed_tree format given.now) }
{
    if given.crush.is_empty() {
        return Ok(None);
    }
    let tree = Some(each_of(alloc, given.crush)?);
    if !format.has_tree(&tree) {
        return Err(Status::BadArgument);
    }
    Ok(tree)
}
