//! The past intervals for which a group has to wait, and what is known of each.

ghost use Rattle.std.specs.Prelude.{◌≡◌, map as mapped, IfOk};
ghost use Rattle.pgp_map.specs.Held.{held_lost_at};
ghost use Rattle.pgp_prior.specs.Blocks.{matters};
ghost use Rattle.pgp_sets.specs.Status.{held_status};
ghost use Rattle.pgp_reasons.specs.Blocking.{blocking_of, clean_of, last_within, blocking_by, was_clean_in};

use super::fates::IntervalNow;
use super::lacking::lacking;
use pgp_code::{AnyCode, Recoverable};
use pgp_ids::{Epoch, Info, Past, Seq};
use pgp_map::OsdMap;
use pgp_prior::{blocks, settled_slots};
use std::alloc::{AllocError, Global};

/// A past interval for which a group has to wait.
#[derive(Drop)]
pub struct Blocking {
    /// Its members, and what has become of its writes.
    pub interval: IntervalNow,
    /// How many more slots would be enough.
    pub lacks: usize,
    /// The last epoch within it in which the group was clean, if a report names one.
    pub clean: Option<Epoch>,
}

impl Blocking {
    /// What is known of the interval, by the map and by these infos of the group.
    fn of(
        alloc: Global,
        code: &AnyCode,
        map: &OsdMap,
        infos: &[Info],
        interval: &Past,
    ) -> Result<Blocking, AllocError>
        ensures { IfOk result (λ told. told ≡ blocking_by code.now (held_status map.now) (held_lost_at map.now)
            (mapped (λ info. info.last_epoch_clean) infos.now) interval.now) }
    {
        Ok(Blocking {
            interval: IntervalNow::of(alloc, code, map, map, interval)?,
            lacks: lacking(code, settled_slots(code.by_place(), map, interval)),
            clean: last_clean(infos, interval),
        })
    }
}

/// Those of the past intervals that block the group, which last began to serve in the epoch `les` and has these infos.
pub(crate) fn intervals_that_block(
    alloc: Global,
    code: &AnyCode,
    map: &OsdMap,
    infos: &[Info],
    les: Epoch,
    past: &[Past],
) -> Result<Seq<Blocking>, AllocError>
    ensures { IfOk result (λ list. list ≡ blocking_of code.now (held_status map.now) (held_lost_at map.now)
        (mapped (λ info. info.last_epoch_clean) infos.now) les past.now) }
{
    let mut list = Vec::new(alloc);
    for interval in past {
        if blocks(code, map, les, interval) {
            list.push(Blocking::of(alloc, code, map, infos, interval)?)?;
        }
    }
    Ok(Seq::from_vec(list))
}

/// The last of the past intervals in which the group was clean, of those that it has to reckon with, where it last began to serve
/// in the epoch `les` and has these infos.
pub(crate) fn clean_of(
    alloc: Global,
    code: &AnyCode,
    map: &OsdMap,
    infos: &[Info],
    les: Epoch,
    past: &[Past],
) -> Result<Option<IntervalNow>, AllocError>
    ensures { IfOk result (λ clean. clean ≡ clean_of code.now (held_status map.now) (held_lost_at map.now)
        (mapped (λ info. info.last_epoch_clean) infos.now) les past.now) }
{
    let mut last = None;
    for interval in past {
        if was_clean_in(infos, les, interval) {
            last = Some(interval);
        }
    }
    match last {
        Some(interval) => Ok(Some(IntervalNow::of(alloc, code, map, map, interval)?)),
        None => Ok(None),
    }
}

/// Whether the group was clean in the interval, and has to reckon with its writes.
fn was_clean_in(infos: &[Info], les: Epoch, interval: &Past) -> bool
    ensures { result ≡ was_clean_in (mapped (λ info. info.last_epoch_clean) infos.now) les interval.now }
{
    matters(les, interval) && last_clean(infos, interval).is_some()
}

/// Whether the group has to reckon with writes of the interval: it may have gone read-write, and it didn't end before the epoch
/// `les`, in which the group last began to serve.
pub(crate) fn matters(les: Epoch, interval: &Past) -> bool
    ensures { result ≡ matters les interval.now }
{
    interval.rw && les <= interval.last
}

/// The last epoch within the interval in which the group was clean, by these infos.
fn last_clean(infos: &[Info], interval: &Past) -> Option<Epoch>
    ensures { result ≡ last_within interval.now (mapped (λ info. info.last_epoch_clean) infos.now) }
{
    infos
        .iter()
        .map(|info| info.last_epoch_clean)
        .filter(|epoch| interval.first <= *epoch && *epoch <= interval.last)
        .max()
}
