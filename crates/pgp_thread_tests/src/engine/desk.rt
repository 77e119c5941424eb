//! The engine of a test. A front of its log is given by how many entries it has.
ghost use Rattle.std.specs.Prelude.{◌≡◌, ◌<◌};
ghost use Rattle.pgp_thread_tests.specs.declared.engine.opened.TheConstants.{SHARDS};

use crate::count::is_count;
use crate::engine::lines::{given, group};
use crate::engine::opened::{Host, SHARDS};
use pgp_engine::{AskFault, Engine, Gate, Naming, ReadFault, Shard, SubmitFault};
use std::sync::{MutexGuard, Wait};

/// An engine of two shards. Each call is made a second time where it is out of memory.
pub struct Desk<J: Naming> {
    pub engine: Engine<J>,
    pub workers: usize,
    ghost sizes: { engine ≡ record { shards = SHARDS; workers = workers } },
}

impl<J: Naming> Desk<J> {
    /// How many entries the log has.
    pub fn len(&self, rt: &impl Wait) -> usize {
        self.engine.told(rt).len()
    }

    /// Submits the entry that the line is, by the whole log, and says how many entries the log has with it. Out of memory, the
    /// log is as it was.
    pub fn put(&self, rt: &impl Host, line: &str) -> usize {
        let told = self.engine.told(rt);
        let submitted = match self.engine.submit(rt, given(rt, line), &told) {
            Err(SubmitFault::Memory) => {
                is_count(rt, self.len(rt), told.len());
                self.engine.submit(rt, given(rt, line), &told)
            }
            submitted => submitted,
        };
        submitted.ok().expect(rt, "taken").len()
    }

    /// By how many entries the group is answered, of which the caller knows none.
    pub fn ask(&self, rt: &impl Host) -> usize {
        let none = self.engine.told(rt).front(0);
        let answer = match self.engine.ask(rt, group(), &none) {
            Err(AskFault::Memory) => self.engine.ask(rt, group(), &none),
            answered => answered,
        };
        answer.ok().expect(rt, "an answer").at.len()
    }

    /// A turn of the group's shard, which has worked it out.
    pub fn show(&self, rt: &impl Host) -> MutexGuard<'_, Shard<J>> {
        let none = self.engine.told(rt).front(0);
        let shown = match self.engine.show(rt, group(), &none) {
            Err(ReadFault::Memory) => self.engine.show(rt, group(), &none),
            shown => shown,
        };
        shown.ok().expect(rt, "a turn")
    }

    /// Lets one of the two shards read on, and says how many entries it has read.
    pub fn read_on(&self, rt: &impl Host, shard: usize, max: usize) -> usize
        requires { shard < SHARDS }
    {
        let read = match self.engine.absorb_some(rt, shard, max) {
            Err(AskFault::Memory) => self.engine.absorb_some(rt, shard, max),
            read => read,
        };
        read.ok().expect(rt, "read").len()
    }

    /// Serves the shards of a seat until they have read a Close, and says how many entries they have read then. It has none:
    /// there is no such number.
    pub fn work<G: Gate>(&self, rt: &impl Host, seat: usize, gate: &G) -> Option<usize> {
        assert!(rt; seat < self.workers, "a seat");
        match self.engine.work(rt, seat, gate) {
            Ok(Some(receipt)) => Some(receipt.len()),
            Ok(None) => None,
            Err(_) => panic!(rt; "no fault"),
        }
    }

    pub fn end(self, rt: &impl Wait) {
        let Desk { engine, workers: _ } = self;
        engine.give_up(rt);
    }
}
