//! The turns of an engine's locks.
ghost use Rattle.std.specs.Prelude.{◌≡◌, ◌<◌, length};
ghost use Rattle.std.specs.Sync.Mutex.{mutex_guard_value};
ghost use Rattle.pgp_log.specs.Log.{IsFrontOf};
ghost use Rattle.pgp_feed.specs.Receipts.{entries_of, feed_of};
ghost use Rattle.pgp_engine.specs.Shards.{Serves};

use super::locked_shard::LockedShard;
use crate::intake::Intake;
use crate::naming::Naming;
use crate::shard::Shard;
use pgp_feed::Receipt;
use pgp_ids::PgId;
use pgp_shard::shard_of;
use std::sync::{Mutex, MutexGuard, Wait};

/// A turn of the lock of an intake whose log holds the front. The log holds every front that it gave a receipt of, so the
/// first turn is such a one.
pub(super) fn intake_turn<'a, J: Naming, R: Wait>(
    rt: &R,
    intake: &'a Mutex<Intake<J>>,
    front: &Receipt,
) -> MutexGuard<'a, Intake<J>>
    requires { feed_of front.now ≡ J.feed }
    ensures { IsFrontOf (entries_of front.now) (mutex_guard_value result).log }
{
    for _ in rt.forever() {
        let turn = intake.lock(rt);
        if turn.holds(front) {
            return turn;
        }
        MutexGuard::unlock(turn);
    }
    unreachable!()
}

/// A turn of the lock of the shard that answers for the group. The shards stand in the order of their numbers, so the first turn is
/// that shard's.
pub(super) fn shard_turn<'a, J: Naming, R: Wait>(
    rt: &R,
    shards: &'a [LockedShard<J>],
    pg: &PgId,
) -> MutexGuard<'a, Shard<J>>
    requires { 0 < length shards.now }
    ensures { Serves (mutex_guard_value result) pg.now }
{
    let shard = &shards[shard_of(shards.len(), pg)];
    for _ in rt.forever() {
        let turn = shard.turn_to_ask(rt);
        if turn.serves(pg) {
            return turn;
        }
    }
    unreachable!()
}
