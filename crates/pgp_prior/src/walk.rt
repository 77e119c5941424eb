ghost use Rattle.std.specs.Prelude.{◌≡◌, IfOk};
ghost use Rattle.pgp_prior.specs.Prior.{prior_set};

use super::additions::{add_down, add_members, add_up};
use super::blocking::{blocks, matters};
use super::prior_set::Prior;
use pgp_code::Recoverable;
use pgp_ids::{Epoch, Membership, Past, Seq};
use pgp_sets::StatusOf;
use std::alloc::{AllocError, Global};

/// The prior set of a placement group (Ceph's developer documentation on peering): of its past intervals,
/// its current membership, the epoch `les` in which it last began to serve, and what has become of its devices.
///
/// It walks all past intervals at each call, and takes memory for the two lists of the answer alone. The error is that
/// there was none for them. Groups use [`PriorIndex`](crate::PriorIndex) in its place; tests compare the two.
pub fn prior<R: Recoverable, S: StatusOf>(
    alloc: Global,
    code: &R,
    past: &[Past],
    current: &Membership,
    les: Epoch,
    statuses: &S,
) -> Result<Prior, AllocError>
    ensures { IfOk result (λ found. found
        ≡ prior_set (R.enough code.now) (R.by_place code.now) (S.status_of statuses.now) les past.now current.now) }
{
    let by_place = code.by_place();
    let mut probe = Vec::new(alloc);
    let mut blocked_by = Vec::new(alloc);
    add_members(&mut probe, by_place, &current.up)?;
    add_members(&mut probe, by_place, &current.acting)?;
    for interval in past {
        if matters(les, interval) {
            add_up(&mut probe, by_place, statuses, interval)?;
        }
        if blocks(code, statuses, les, interval) {
            add_down(&mut blocked_by, by_place, statuses, interval)?;
        }
    }
    let blocked_by = Seq::from_vec(blocked_by);
    let down = !blocked_by.is_empty();
    Ok(Prior {
        probe: Seq::from_vec(probe),
        blocked_by,
        down,
    })
}
