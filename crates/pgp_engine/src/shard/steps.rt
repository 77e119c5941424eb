//! What a shard does.
ghost use Rattle.std.specs.Prelude.{◌≡◌, ◌≢◌, ◌+◌, ◌<◌, ◌≤◌, ◌⊎◌, ◌↔◌, [], length, is_some, true, false, None, Some, Err, IsTrue, IsSome, IfOk, IfErr, IfSome, OnOk, OnErr, MatchResult};
ghost use Rattle.pgp_map.specs.Pools.{has_group};
ghost use Rattle.pgp_group.specs.Entries.{incs_of};
ghost use Rattle.pgp_group.specs.View.{scratch};
ghost use Rattle.pgp_log.specs.Fits.{is_closed};
ghost use Rattle.pgp_log.specs.Log.{epoch_of, front, is_legal, HasInc, IsFrontOf};
ghost use Rattle.pgp_shard.specs.Shard.{AreUnmarked};
ghost use Rattle.pgp_feed.specs.Receipts.{entries_of, feed_of};
ghost use Rattle.pgp_feed.specs.Taps.{last_of};
ghost use Rattle.pgp_engine.specs.Asks.{IsAnswer, MayFailToAnswer};
ghost use Rattle.pgp_engine.specs.Faults.{fault_at};
ghost use Rattle.pgp_engine.specs.Fronts.{Names};
ghost use Rattle.pgp_engine.specs.Shards.{GoesOn, HadToRead, HasAbsorbed, LacksThere, RenewsIfIdle, Serves, StaysThere, state_of};
ghost use Rattle.pgp_engine.specs.Shown.{HasWorkedOut, IsShown, Shows};
ghost use Rattle.pgp_engine.specs.declared.fault.AskFault.TheVariants.{Memory, NoReader};

use super::Shard;
use crate::answer::Answer;
use crate::entry_buffer::EntryBuffer;
use crate::fault::AskFault;
use crate::naming::Naming;
use pgp_feed::{ReadFault, Receipt, Tap};
use pgp_ids::{AskRefusal, Epoch, PgId, View};
use pgp_shard::ShardState;
use std::alloc::Global;
use std::collections::VecDeque;
use std::marker::PhantomData;

/// Of how many groups a shard notes that they were asked about. A worker works out no more of them in one turn.
const NOTED_GROUPS: usize = 8;

/// The front with the next `max` entries after those that were read, or with all that there are.
fn after(newest: &Receipt, read: usize, max: usize) -> Receipt
    requires { read ≤ length (entries_of newest.now) }
    ensures entries { entries_of result ≡ front (read + max) (entries_of newest.now) }
    ensures feed { feed_of result ≡ feed_of newest.now }
{
    if max < newest.len() - read {
        newest.front(read + max)
    } else {
        newest.again()
    }
}

impl<J: Naming> Shard<J> {
    /// The shard of this number, of this many shards, over a tap. It has read nothing, and takes no memory.
    pub(crate) fn start(alloc: Global, shard: usize, shards: usize, tap: Tap) -> Shard<J>
        requires tap { feed_of (last_of tap) ≡ J.feed }
        requires within { shard < shards }
        ensures front { result.front ≡ [] }
        ensures shard { result.shard ≡ shard }
        ensures shards { result.shards ≡ shards }
    {
        let mut tap = tap;
        let front = tap.newest().front(0);
        Shard {
            state: ShardState::start(alloc, shard, shards),
            front,
            tap,
            buffer: EntryBuffer::new(alloc),
            asked: VecDeque::new(alloc),
            of: PhantomData,
        }
    }

    /// The group is one of the shard's own.
    pub(crate) fn serves(&self, pg: &PgId) -> bool
        ensures { IsTrue result ↔ Serves self.now pg.now }
    {
        self.state.owns(pg)
    }

    /// Reads the entries up to those that a receipt of the same feed names. Without memory it may have read some of them.
    fn absorb_to(&mut self, target: &Receipt) -> Result<(), ReadFault>
        requires feed { feed_of target.now ≡ J.feed }
        requires more { IsFrontOf self.old.front (entries_of target.now) }
        ensures on { GoesOn self.old self.new }
        ensures ok { OnOk result (self.new.front ≡ entries_of target.now) }
        ensures marks { OnOk result (self.new.front ≡ self.old.front → self.new.marks ≡ self.old.marks) }
        ensures seen { IsFrontOf self.new.front self.new.seen }
        ensures legal { is_legal self.new.front ≡ true }
        ensures reads { OnErr result (length self.old.front < length (entries_of target.now)) }
    {
        let read = self.buffer.bring(&mut self.state, &mut self.tap, target);
        self.front = target.front(self.state.count());
        read
    }

    /// Reads at most this many further entries of the log, and answers the receipt of what it has read then. Without memory
    /// it may have read some of them. Where there is nothing to read, it works out anew as many of its groups: `max` bounds
    /// both. `NoReader`: there was something to read. `Memory`: there was, or the map isn't empty.
    pub fn absorb_some(&mut self, max: usize) -> Result<Receipt, AskFault>
        ensures on { GoesOn self.old self.new }
        ensures absorbed { OnOk result (HasAbsorbed self.old self.new max) }
        ensures renewed { OnOk result (RenewsIfIdle self.old self.new max) }
        ensures named { IfOk result (Names J.feed self.new.front) }
        ensures err { IfErr result (λ fault. fault_at fault ≡ None) }
        ensures reads { result ≡ Err NoReader → length self.old.front < length self.new.seen }
        ensures wants { result ≡ Err Memory → (length self.old.front < length self.new.seen) ⊎ HasInc self.new.front }
    {
        let read = self.front.len();
        let front = self.read_some(max)?;
        if front.len() > read {
            return Ok(front);
        }
        self.renew(max)?;
        Ok(front)
    }

    /// Reads at most this many further entries of the log, and answers the receipt of what it has read then.
    pub(crate) fn read_some(&mut self, max: usize) -> Result<Receipt, AskFault>
        ensures on { GoesOn self.old self.new }
        ensures absorbed { OnOk result (HasAbsorbed self.old self.new max) }
        ensures marks { OnOk result (self.new.front ≡ self.old.front → self.new.marks ≡ self.old.marks) }
        ensures named { IfOk result (Names J.feed self.new.front) }
        ensures err { IfErr result (λ fault. fault_at fault ≡ None) }
        ensures reads { OnErr result (length self.old.front < length self.new.seen) }
    {
        let newest = self.tap.newest();
        let target = after(&newest, self.front.len(), max);
        self.absorb_to(&target)?;
        Ok(self.front.again())
    }

    /// Works out anew at most this many of its groups that an entry touched, so that the next to ask about them needn't. How
    /// many are left then.
    pub(crate) fn renew(&mut self, max: usize) -> Result<usize, AskFault>
        ensures same { StaysThere self.old self.new }
        ensures marks { OnOk result (AreUnmarked max (state_of self.old) (state_of self.new)) }
        ensures left { IfOk result (λ left. IfSome self.new.marks (λ marks. left ≡ length marks)) }
        ensures memory { IfErr result (λ fault. fault ≡ Memory) }
        ensures wants { OnErr result (HasInc self.new.front) }
    {
        Ok(self.state.renew(max)?)
    }

    /// Works out anew those of the groups that were asked about last which an entry touched since. Until the next question such a
    /// group counts as asked about no longer.
    pub(crate) fn renew_asked(&mut self) -> Result<(), AskFault>
        ensures same { StaysThere self.old self.new }
        ensures memory { IfErr result (λ fault. fault ≡ Memory) }
        ensures wants { OnErr result (HasInc self.new.front) }
    {
        for _ in 0..self.asked.len() {
            let Some(pg) = self.asked.pop_front() else {
                break;
            };
            if !self.serves(&pg) || self.state.view_of(&pg).is_some() {
                let _kept = self.asked.push_back(pg);
            } else if self.state.work_out(&pg) == Err(AskRefusal::Memory) {
                return Err(AskFault::Memory);
            }
        }
        Ok(())
    }

    /// Notes that the group was asked about. Without memory it doesn't.
    fn note(&mut self, pg: PgId)
        ensures { self.new ≡ self.old }
    {
        if self.asked.contains(&pg) {
            return;
        }
        if self.asked.len() >= NOTED_GROUPS {
            let _oldest = self.asked.pop_front();
        }
        let _noted = self.asked.push_back(pg);
    }

    /// The log that it has read was closed.
    pub fn is_closed(&self) -> bool
        ensures { result ≡ is_closed self.now.front }
    {
        self.state.is_closed()
    }

    /// The receipt of what it has read.
    pub fn receipt(&self) -> Receipt
        ensures { Names J.feed self.now.front result }
    {
        self.front.again()
    }

    /// The epoch of the map that what it has read makes. It has worked out a group.
    pub fn epoch(&self) -> Epoch
        requires { is_some self.now.marks ≡ true }
        ensures { result ≡ epoch_of self.now.front }
    {
        self.state.epoch()
    }

    /// What it has read says of a group that it has worked out, except for count and epoch. `None`: there is no such group.
    pub fn view_of(&self, pg: &PgId) -> Option<&View>
        requires { HasWorkedOut self.now pg.now }
        ensures { Shows self.now.front pg.now result }
    {
        self.state.view_of(pg)
    }

    /// Reads on, up to the newest front or to the caller's, and works out one of the shard's groups by what it has read then.
    /// `NoReader`: there was something to read. `Memory`: there was, or the map isn't empty, and has the group where the shard
    /// kept its groups before.
    pub fn work_out(&mut self, pg: &PgId, q: &Receipt) -> Result<(), ReadFault>
        requires feed { feed_of q.now ≡ J.feed }
        requires serves { Serves self.old pg.now }
        ensures on { GoesOn self.old self.new }
        ensures shown { OnOk result (IsShown q.now pg.now self.new) }
        ensures reads { result ≡ Err ReadFault.NoReader → HadToRead self.old self.new q.now }
        ensures wants { result ≡ Err ReadFault.Memory → HadToRead self.old self.new q.now ⊎ HasInc self.new.front }
        ensures wants_there { result ≡ Err ReadFault.Memory → LacksThere self.old self.new pg.now q.now }
    {
        self.note(*pg);
        let newest = self.tap.newest();
        let target = newest.longer(q);
        self.absorb_to(&target)?;
        match self.state.work_out(pg) {
            Ok(()) => Ok(()),
            Err(AskRefusal::UnknownGroup) => Ok(()),
            Err(AskRefusal::Memory) => Err(ReadFault::Memory),
        }
    }

    /// A copy of what the shard has read says of a group that it has worked out.
    fn copy(&self, pg: PgId) -> Result<Answer, AskFault>
        requires { HasWorkedOut self.now pg }
        ensures view { IfOk result (λ answer. scratch self.now.front pg ≡ Some answer.view) }
        ensures absent { IfErr result (λ fault. IsSome (fault_at fault) → has_group (incs_of self.now.front) pg ≡ false) }
        ensures named { IfOk result (λ answer. Names J.feed self.now.front answer.at) }
        ensures err_named { IfErr result (λ fault. IfSome (fault_at fault) (Names J.feed self.now.front)) }
        ensures reads { result ≢ Err NoReader }
        ensures wants { result ≡ Err Memory → has_group (incs_of self.now.front) pg ≡ true }
    {
        let at = self.receipt();
        match self.state.copy(&pg) {
            Ok(view) => Ok(Answer { view, at }),
            Err(AskRefusal::UnknownGroup) => Err(AskFault::UnknownGroup { at }),
            Err(AskRefusal::Memory) => Err(AskFault::Memory),
        }
    }

    /// All that the log says of one of the shard's groups, by a front that holds the caller's. The shard reads on first, up
    /// to the newest front or to the caller's, and answers by what it has read then, which the answer's receipt names.
    /// `UnknownGroup`: that front makes no such group. `NoReader`: there was something to read. `Memory`: there was, or the map
    /// isn't empty, and has the group where the shard kept its groups before.
    pub fn ask(&mut self, pg: PgId, q: &Receipt) -> Result<Answer, AskFault>
        requires feed { feed_of q.now ≡ J.feed }
        requires serves { Serves self.old pg }
        ensures on { GoesOn self.old self.new }
        ensures answer { MatchResult result (IsAnswer q.now pg) (MayFailToAnswer q.now pg) }
        ensures front { IfOk result (λ answer. Names J.feed self.new.front answer.at) }
        ensures unknown_front { IfErr result (λ fault. IfSome (fault_at fault) (Names J.feed self.new.front)) }
        ensures reads { result ≡ Err NoReader → HadToRead self.old self.new q.now }
        ensures wants { result ≡ Err Memory → HadToRead self.old self.new q.now ⊎ HasInc self.new.front }
        ensures wants_there { result ≡ Err Memory → LacksThere self.old self.new pg q.now }
    {
        self.work_out(&pg, q)?;
        self.copy(pg)
    }
}
