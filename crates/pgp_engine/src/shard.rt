//! A shard of the engine: it reads the feed, and answers for some of the groups.
ghost use Rattle.std.specs.Prelude.{◌≡◌, [], ◌∷◌};

use crate::entry_buffer::EntryBuffer;
use crate::follower::Follower;
use crate::naming::Naming;
use pgp_feed::{Receipt, Tap};
use pgp_ids::{Entry, PgId};
use pgp_shard::ShardState;
use std::alloc::AllocError;
use std::collections::VecDeque;
use std::marker::{Model, PhantomData};
use std::sync::Arc;

mod steps;

/// It reads one front of the log after another, and answers for its own groups by the front that it has read. Its receipt
/// names that front.
pub struct Shard<J: Naming> {
    state: ShardState,
    front: Receipt,
    tap: Tap,
    /// Where the next entries are read to.
    buffer: EntryBuffer,
    /// The groups that were asked about last: a few, each once, and each until a worker works it out anew.
    asked: VecDeque<PgId>,
    of: PhantomData<J>,
}

// Written out, so that a crate which lets one go has nothing to prove of what lies within.
impl<J: Naming> Drop for Shard<J> {
    fn drop(self) {
        let Shard {
            state: _,
            front: _,
            tap: _,
            buffer: _,
            asked: _,
            of: _,
        } = self;
    }
}

impl<J: Naming> Model for Shard<J> {
    ghost use Rattle.pgp_feed.specs.Receipts.{entries_of};
    ghost use Rattle.pgp_feed.specs.Taps.{last_of};
    ghost use Rattle.pgp_engine.specs.Shards.{Reader};
    ghost use Rattle.pgp_engine.specs.kept.Members.{IsReader};

    ghost Value = { Reader };

    ghost view = { λ s. record {
      front = s.state.front;
      shard = s.state.shard;
      shards = s.state.shards;
      marks = s.state.marks;
      worked = s.state.worked;
      seen = entries_of (last_of s.tap);
    } };

    ghost invariant = { λ s. IsReader J.feed s.state s.front (last_of s.tap) };
}

impl Follower for ShardState {
    ghost has_taken = { λ log state. state.front ≡ log };

    ghost numbers = { λ state. state.shard ∷ state.shards ∷ [] };

    fn taken(&self) -> usize {
        self.count()
    }

    fn take_next(&mut self, entry: &Arc<Entry>) -> Result<(), AllocError> {
        self.absorb(entry)
    }
}
