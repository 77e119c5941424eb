//! What any thread asks of an engine.
ghost use Rattle.std.specs.Prelude.{◌≡◌, ◌<◌, None, IfOk, IfErr, MatchResult};
ghost use Rattle.std.specs.Sync.Mutex.{mutex_guard_value};
ghost use Rattle.pgp_log.specs.Log.{epoch_of};
ghost use Rattle.pgp_feed.specs.Receipts.{entries_of, feed_of};
ghost use Rattle.pgp_engine.specs.Asks.{IsAnswer, MayFailToAnswer};
ghost use Rattle.pgp_engine.specs.Faults.{fault_at};
ghost use Rattle.pgp_engine.specs.Intakes.{IsSubmitted, MayFailToSubmit};
ghost use Rattle.pgp_engine.specs.Shown.{IsShown};

use super::Engine;
use super::locks::{intake_turn, shard_turn};
use crate::answer::{Answer, SubmitAnswer};
use crate::fault::{AskFault, SubmitFault};
use crate::naming::Naming;
use crate::shard::Shard;
use pgp_feed::{ReadFault, Receipt};
use pgp_ids::{Entry, PgId};
use pgp_log::is_close;
use std::mem::forget;
use std::sync::{MutexGuard, Wait};

impl<J: Naming> Engine<J> {
    /// Publishes the entry, if the log takes it, and answers the receipt of the log with it. `Refused`: a front that holds
    /// the caller's doesn't take it, and the receipt names that one. [`Intake::submit`](crate::Intake::submit) says more.
    pub fn submit<R: Wait>(&self, rt: &R, entry: Entry, q: &Receipt) -> Result<Receipt, SubmitFault>
        requires { feed_of q.now ≡ J.feed }
        ensures { MatchResult result (IsSubmitted q.now entry) (MayFailToSubmit q.now entry) }
    {
        Ok(self.submit_with_epoch(rt, entry, q)?.at)
    }

    /// As [`Engine::submit`], and answers the epoch of the map that the log makes with the entry too.
    pub fn submit_with_epoch<R: Wait>(
        &self,
        rt: &R,
        entry: Entry,
        q: &Receipt,
    ) -> Result<SubmitAnswer, SubmitFault>
        requires { feed_of q.now ≡ J.feed }
        ensures submitted { MatchResult result (λ submitted. IsSubmitted q.now entry submitted.at) (MayFailToSubmit q.now entry) }
        ensures epoch { IfOk result (λ submitted. submitted.epoch ≡ epoch_of (entries_of submitted.at)) }
    {
        let closes = is_close(&entry);
        let mut turn = intake_turn(rt, &self.intake, q);
        let submitted = turn.submit_with_epoch(rt, entry);
        MutexGuard::unlock(turn);
        if submitted.is_ok() {
            self.tell_workers(closes);
        }
        submitted
    }

    /// The log is longer. Who naps needn't know, unless it was closed: then workers end.
    fn tell_workers(&self, closes: bool) {
        if closes {
            self.bell.ring_out();
        } else {
            self.bell.ring();
        }
    }

    /// The receipt of the whole log, as it was at some moment of the call.
    pub fn told<R: Wait>(&self, rt: &R) -> Receipt
        ensures { feed_of result ≡ J.feed }
    {
        let turn = self.intake.lock(rt);
        let told = turn.receipt();
        MutexGuard::unlock(turn);
        told
    }

    /// All that the log says of the group, by a front that holds the caller's: the view is what the definitions give from
    /// scratch on the front that the answer's receipt names. `UnknownGroup`: such a front makes no such group.
    pub fn ask<R: Wait>(&self, rt: &R, pg: PgId, q: &Receipt) -> Result<Answer, AskFault>
        requires { feed_of q.now ≡ J.feed }
        ensures { MatchResult result (IsAnswer q.now pg) (MayFailToAnswer q.now pg) }
    {
        shard_turn(rt, self.shards.as_slice(), &pg).ask(pg, q)
    }

    /// A turn of the lock of the group's shard, which has worked the group out by a front that holds the caller's. As long as the
    /// turn is kept, [`Shard::view_of`](crate::Shard::view_of) lends the view from where it lies, so that nothing is copied. Let it
    /// go before the next call of the engine.
    pub fn show<R: Wait>(
        &self,
        rt: &R,
        pg: PgId,
        q: &Receipt,
    ) -> Result<MutexGuard<'_, Shard<J>>, ReadFault>
        requires { feed_of q.now ≡ J.feed }
        ensures { IfOk result (λ turn. IsShown q.now pg (mutex_guard_value turn)) }
    {
        let mut turn = shard_turn(rt, self.shards.as_slice(), &pg);
        turn.work_out(&pg, q)?;
        Ok(turn)
    }

    /// Lets a shard read at most this many further entries of the log, and answers the receipt of what it has read then.
    /// Without memory it may have read some of them. Where there is nothing to read, the shard works out anew as many of its
    /// groups. Which those were doesn't show from outside; [`Shard::absorb_some`](crate::Shard::absorb_some) says it.
    pub fn absorb_some<R: Wait>(
        &self,
        rt: &R,
        shard: usize,
        max: usize,
    ) -> Result<Receipt, AskFault>
        requires { shard < self.now.shards }
        ensures named { IfOk result (λ r. feed_of r ≡ J.feed) }
        ensures err { IfErr result (λ fault. fault_at fault ≡ None) }
    {
        self.shards[shard].turn_to_ask(rt).absorb_some(max)
    }

    /// Ends the engine and its feed.
    pub fn give_up(self, rt: &impl Wait) {
        let Engine {
            intake,
            bell: _,
            shards: _,
            workers: _,
        } = self;
        intake.into_inner().into_feed().give_up(rt);
    }

    /// The same as the process ends: what the shards and the feed's last copy keep goes with the process, and not entry by entry.
    pub fn give_up_at_exit(self, rt: &impl Wait) {
        let Engine {
            intake,
            bell: _,
            shards,
            workers: _,
        } = self;
        forget(shards);
        intake.into_inner().into_feed().give_up_at_exit(rt);
    }
}
