//! Copies of views.

ghost use Rattle.std.specs.Prelude.{◌≡◌, IfOk};
ghost use Rattle.pgp_group.specs.Touched.{view_at};

use pgp_ids::{Epoch, MissingObject, Past, PeerMissing, PeerState, Seq, View};
use std::alloc::{AllocError, Global};

/// A copy of the view, at this epoch and after this many entries. It asks for room once for each of its lists, and once for each
/// name of a missing object.
pub(crate) fn copy_at(
    alloc: Global,
    view: &View,
    epoch: Epoch,
    count: usize,
) -> Result<View, AllocError>
    ensures { IfOk result (λ copy. copy ≡ view_at count epoch view.now) }
{
    let intervals = copy_of_intervals(alloc, view.intervals.as_slice())?;
    let probe = copy_of_list(alloc, view.probe.as_slice())?;
    let blocked_by = copy_of_list(alloc, view.blocked_by.as_slice())?;
    let missing = copy_of_states(alloc, view.missing.as_slice())?;
    Ok(View {
        count,
        epoch,
        up: view.up.copy(),
        up_primary: view.up_primary,
        acting: view.acting.copy(),
        acting_primary: view.acting_primary,
        first: view.first,
        intervals,
        les: view.les,
        probe,
        blocked_by,
        verdict: view.verdict,
        best: view.best,
        missing,
    })
}

fn copy_of_list<T: Copy>(alloc: Global, list: &[T]) -> Result<Seq<T>, AllocError>
    ensures { IfOk result (λ copy. copy ≡ list.now) }
{
    let mut copy = Vec::new(alloc);
    copy.extend_from_slice(list)?;
    Ok(Seq::from_vec(copy))
}

fn copy_of_intervals(alloc: Global, intervals: &[Past]) -> Result<Seq<Past>, AllocError>
    ensures { IfOk result (λ copy. copy ≡ intervals.now) }
{
    let mut copy = Vec::with_capacity(alloc, intervals.len())?;
    for interval in intervals {
        copy.push(interval.copy())?;
    }
    Ok(Seq::from_vec(copy))
}

fn copy_of_states(alloc: Global, states: &[PeerMissing]) -> Result<Seq<PeerMissing>, AllocError>
    ensures { IfOk result (λ copy. copy ≡ states.now) }
{
    let mut copy = Vec::with_capacity(alloc, states.len())?;
    for peer in states {
        copy.push(PeerMissing {
            member: peer.member,
            state: copy_of_state(alloc, &peer.state)?,
        })?;
    }
    Ok(Seq::from_vec(copy))
}

fn copy_of_state(alloc: Global, state: &PeerState) -> Result<PeerState, AllocError>
    ensures { IfOk result (λ copy. copy ≡ state.now) }
{
    Ok(match state {
        PeerState::Missing(objects) => {
            PeerState::Missing(copy_of_objects(alloc, objects.as_slice())?)
        }
        PeerState::Backfill => PeerState::Backfill,
        PeerState::Diverged => PeerState::Diverged,
    })
}

fn copy_of_objects(
    alloc: Global,
    objects: &[MissingObject],
) -> Result<Seq<MissingObject>, AllocError>
    ensures { IfOk result (λ copy. copy ≡ objects.now) }
{
    let mut copy = Vec::with_capacity(alloc, objects.len())?;
    for missing in objects {
        copy.push(MissingObject {
            object: missing.object.clone()?,
            version: missing.version,
        })?;
    }
    Ok(Seq::from_vec(copy))
}
