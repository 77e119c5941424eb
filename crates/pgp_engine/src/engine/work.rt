//! How an engine's workers have its shards read on.
ghost use Rattle.std.specs.Prelude.{◌≡◌, ◌<◌, ◌≤◌, ◌↔◌, None, Ok, IfOk, IfErr, IfSome};
ghost use Rattle.pgp_log.specs.Fits.{is_closed};
ghost use Rattle.pgp_feed.specs.Receipts.{entries_of, feed_of};
ghost use Rattle.pgp_engine.specs.Faults.{fault_at};
ghost use Rattle.logbook.specs.Pages.{Book};
ghost use Rattle.pgp_engine.specs.Works.{IsEnd, IsRound};

use super::Engine;
use crate::fault::AskFault;
use crate::gate::Gate;
use crate::naming::Naming;
use crate::shard::Shard;
use pgp_feed::Receipt;
use std::sync::{MutexGuard, Wait};

/// How many entries a shard reads at most in one turn of a worker. So whoever asks waits for no more of them than these. It bounds no
/// time, since an incremental goes over all groups of the shard.
const ENTRIES_A_TURN: usize = 64;

/// How many groups a shard works out at most in one turn of a worker. So few that whoever asks has the lock soon, but some, since a
/// turn goes over the rows of all its groups. Where it doesn't keep its groups yet, the first turn makes all of them first, from all
/// that it has read.
const GROUPS_A_TURN: usize = 8;

/// After how many rounds without an entry a lull begins.
const ROUNDS_TO_A_LULL: usize = 8;

/// How many microseconds a worker naps after a round that read entries, if fewer than it might.
const NAP: u64 = 1_000;

/// How many it naps after a round without an entry, before a lull.
const SHORT_NAP: u64 = 100;

/// After how many rounds in a row that passed over a shard a worker waits for each. So it learns of the Close though threads ask a
/// shard without a gap.
const ROUNDS_TO_WAIT: usize = 1_000;

/// What the shards of a worker do in a round.
#[derive(Clone, Copy)]
enum Task {
    /// They read on. Somebody who has one locked is waited for, if so asked.
    Read { waits: bool },
    /// They work out some of their groups.
    Renew,
}

/// What a worker found in a turn of a shard that reads on or works out its groups, or in a round of such turns.
#[derive(Drop)]
pub(super) struct Round {
    /// How many entries were read, or how many groups are left, of the shard with most.
    pub most: usize,
    /// No shard was passed over.
    pub is_whole: bool,
    /// The receipt of the closed log, if each shard has read the Close.
    pub end: Option<Receipt>,
}

impl Round {
    /// The shard is passed over.
    fn passed_over() -> Round
        ensures { result.end ≡ None }
    {
        Round {
            most: 0,
            is_whole: false,
            end: None,
        }
    }

    /// Both.
    fn and(self, other: Round) -> Round
        ensures { (feed : Book) → IsRound feed other → IsRound feed result }
    {
        let Round {
            most,
            is_whole,
            end,
        } = self;
        Round {
            most: most.max(other.most),
            is_whole: is_whole && other.is_whole,
            end: if end.is_some() { other.end } else { None },
        }
    }
}

/// The receipt, if the front that it names was closed.
fn end_in<J: Naming>(front: Receipt, closed: bool) -> Option<Receipt>
    requires feed { feed_of front ≡ J.feed }
    requires closed { closed ≡ is_closed (entries_of front) }
    ensures { IfSome result (IsEnd J.feed) }
{
    if closed { Some(front) } else { None }
}

/// Has a shard read on, and work out the groups that were asked about lately.
fn read_on<J: Naming>(shard: &mut Shard<J>) -> Result<Round, AskFault>
    ensures round { IfOk result (IsRound J.feed) }
    ensures err { IfErr result (λ fault. fault_at fault ≡ None) }
{
    let read = shard.receipt().len();
    let front = shard.read_some(ENTRIES_A_TURN)?;
    shard.renew_asked()?;
    Ok(Round {
        most: front.len().saturating_sub(read),
        is_whole: true,
        end: end_in::<J>(front, shard.is_closed()),
    })
}

/// Has a shard that has read something work out some of its groups. A shard that has read nothing makes none, so that it needn't
/// keep groups while it reads its first entries.
fn renew<J: Naming>(shard: &mut Shard<J>) -> Result<Round, AskFault>
    ensures round { IfOk result (λ round. round.end ≡ None) }
    ensures err { IfErr result (λ fault. fault_at fault ≡ None) }
{
    let mut left = 0;
    if shard.receipt().len() > 0 {
        left = shard.renew(GROUPS_A_TURN)?;
    }
    Ok(Round {
        most: left,
        is_whole: true,
        end: None,
    })
}

impl<J: Naming> Engine<J> {
    /// Serves the shards of this seat, whose numbers divided by the number of workers leave the seat, until all of them have
    /// read the Close, and answers the receipt of the closed log. There is none where no shard is of this seat. `Memory` and
    /// `NoReader` end the work, and leave the shards as far as they have read.
    ///
    /// While entries come, a shard works out those few groups that it was asked about last, each once for a question, and in a lull
    /// all of its groups.
    ///
    /// In each round every shard of the seat reads the next entries, as many as a turn may, in a turn of its own between the gate's
    /// two calls. One that somebody has locked is passed over, until that was so in a thousand rounds in a row. Where there were
    /// fewer entries, the worker naps: so entries that come one after the other are read many at a time. After a few rounds in a row
    /// without an entry it is a lull: until the next submit the shards work out their groups, and once none is left, the worker
    /// sleeps.
    pub fn work<R: Wait, G: Gate>(
        &self,
        rt: &R,
        seat: usize,
        gate: &G,
    ) -> Result<Option<Receipt>, AskFault>
        requires { seat < self.now.workers }
        ensures idle { result ≡ Ok None ↔ self.now.shards ≤ seat }
        ensures end { IfOk result (λ end. IfSome end (IsEnd J.feed)) }
        ensures err { IfErr result (λ fault. fault_at fault ≡ None) }
    {
        if self.shards.len() <= seat {
            return Ok(None);
        }
        let mut quiet = 0;
        let mut passing = 0;
        for _ in rt.forever() {
            let rings = self.bell.listen(quiet >= ROUNDS_TO_A_LULL);
            let Round {
                most: came,
                is_whole,
                end,
            } = self.round(
                rt,
                seat,
                gate,
                Task::Read {
                    waits: passing >= ROUNDS_TO_WAIT,
                },
            )?;
            if let Some(end) = end {
                return Ok(Some(end));
            }
            passing = if is_whole {
                0
            } else {
                passing.saturating_add(1)
            };
            quiet = if came == 0 {
                quiet.saturating_add(1)
            } else {
                0
            };
            if quiet > ROUNDS_TO_A_LULL {
                quiet = 0;
                if self.renew_all(rt, seat, gate, rings)? && is_whole {
                    self.bell.sleep(rt, rings);
                }
            } else if came < ENTRIES_A_TURN {
                self.bell.nap(rt, if came == 0 { SHORT_NAP } else { NAP });
            }
        }
        unreachable!()
    }

    /// Has the shards of the seat work out their groups, a few of each in turn, until none is left in any or the bell is rung.
    /// Whether none was passed over in the last round.
    fn renew_all<R: Wait, G: Gate>(
        &self,
        rt: &R,
        seat: usize,
        gate: &G,
        rings: u32,
    ) -> Result<bool, AskFault>
        requires workers { seat < self.now.workers }
        requires shards { seat < self.now.shards }
        ensures { IfErr result (λ fault. fault_at fault ≡ None) }
    {
        for _ in rt.forever() {
            let Round {
                most: left,
                is_whole,
                end: _,
            } = self.round(rt, seat, gate, Task::Renew)?;
            if left == 0 || self.bell.was_rung(rings) {
                return Ok(is_whole);
            }
        }
        unreachable!()
    }

    /// One turn of each shard of the seat, from the last to the first: whoever asks about all groups in their order goes the other
    /// way, and so mostly asks another shard than the one that works them out. To read in that order does no harm.
    fn round<R: Wait, G: Gate>(
        &self,
        rt: &R,
        seat: usize,
        gate: &G,
        task: Task,
    ) -> Result<Round, AskFault>
        requires workers { seat < self.now.workers }
        requires shards { seat < self.now.shards }
        ensures round { IfOk result (IsRound J.feed) }
        ensures err { IfErr result (λ fault. fault_at fault ≡ None) }
    {
        let behind = self.shards.len() - 1 - seat;
        let last = seat + (behind - behind % self.workers);
        let mut round = self.turn(rt, last, gate, task)?;
        for shard in (seat..last).rev() {
            if shard % self.workers == seat {
                round = round.and(self.turn(rt, shard, gate, task)?);
            }
        }
        Ok(round)
    }

    /// A turn of the shard's lock, in which it reads on, or works out some of its groups.
    fn turn<R: Wait, G: Gate>(
        &self,
        rt: &R,
        shard: usize,
        gate: &G,
        task: Task,
    ) -> Result<Round, AskFault>
        requires { shard < self.now.shards }
        ensures round { IfOk result (IsRound J.feed) }
        ensures err { IfErr result (λ fault. fault_at fault ≡ None) }
    {
        let locked = &self.shards[shard];
        let turn = match task {
            Task::Read { waits: true } => Some(locked.await_turn_to_work(rt)),
            Task::Read { waits: false } | Task::Renew => locked.turn_to_work(),
        };
        let Some(turn) = turn else {
            return Ok(Round::passed_over());
        };
        let mut turn = turn;
        gate.enter(rt, shard);
        let round = match task {
            Task::Read { .. } => read_on(&mut *turn),
            Task::Renew => renew(&mut *turn),
        };
        MutexGuard::unlock(turn);
        gate.left(rt, shard);
        round
    }
}
