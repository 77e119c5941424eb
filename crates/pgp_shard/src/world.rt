//! A world of one log and several shards, in one thread.

ghost use Rattle.std.specs.Prelude.{◌≡◌, ◌<◌, length, map, true, IfOk};
ghost use Rattle.std.specs.Arc.{arc_value};
ghost use Rattle.std.specs.List.{range_with_len};
ghost use Rattle.pgp_log.specs.Log.{is_legal};
ghost use Rattle.pgp_shard.specs.Shard.{opening_shard};
ghost use Rattle.pgp_shard.specs.World.{opening_world, opening_over};
ghost use Rattle.pgp_shard.specs.World.Step.{Submit, Absorb, Ask};
ghost use Rattle.pgp_shard.specs.World.Reply.{Submitted, Absorbed, Asked};
ghost use Rattle.pgp_shard.specs.WorldRun.{MayReply};

use super::shard::{ShardState, shard_of};
use pgp_ids::{AskRefusal, Entry, PgId, Refusal, View};
use pgp_log::JudgedLog;
use std::alloc::{AllocError, Global};
use std::marker::Model;
use std::sync::Arc;

/// One log, and shards that read it one entry after another.
pub struct World {
    log: JudgedLog,
    shards: Vec<ShardState>,
}

// Written out, so that a crate which lets one go has nothing to prove of what lies within.
impl Drop for World {
    fn drop(self) {
        let World { log: _, shards: _ } = self;
    }
}

impl Model for World {
    ghost use Rattle.std.specs.Prelude.{map, length};
    ghost use Rattle.pgp_shard.specs.World.{World};
    ghost use Rattle.pgp_shard.specs.Running.{IsRunning};

    ghost Value = { World };

    ghost view = { λ w. record { log = w.log; read = map (λ s. length s.front) w.shards.items } };

    ghost invariant = { λ w. IsRunning w.log w.shards.items };
}

impl World {
    /// The world of this many shards at its start.
    pub fn start(alloc: Global, shards: usize) -> Result<Self, AllocError>
        requires { 0 < shards }
        ensures { IfOk result (λ world. world ≡ opening_world shards) }
    {
        World::over(alloc, shards, &[])
    }

    /// The world of this many shards whose log is these entries, of which no shard has read one yet. It shares them.
    pub fn over(alloc: Global, shards: usize, entries: &[Arc<Entry>]) -> Result<Self, AllocError>
        requires some { 0 < shards }
        requires legal { is_legal (map arc_value entries.now) ≡ true }
        ensures { IfOk result (λ world. world ≡ opening_over shards (map arc_value entries.now)) }
    {
        let all = opening_shards(alloc, shards)?;
        let log = JudgedLog::over(alloc, entries)?;
        let world = World { log, shards: all };
        Ok(world)
    }

    /// Adds the entry to the log, if it fits, and answers how long the log is then.
    pub fn submit(&mut self, entry: Entry) -> Result<usize, Refusal>
        ensures reply { MayReply self.old (Submit entry) (Submitted result) self.new }
        ensures shards { length self.new.read ≡ length self.old.read }
    {
        self.log.fits(&entry)?;
        self.log.take(entry)?;
        Ok(self.log.len())
    }

    /// Lets a shard read at most this many further entries. Without memory it may have read some of them.
    pub fn absorb(&mut self, shard: usize, count: usize) -> Result<(), AllocError>
        requires { shard < length self.old.read }
        ensures reply { MayReply self.old (Absorb shard count) (Absorbed result) self.new }
        ensures shards { length self.new.read ≡ length self.old.read }
    {
        let state = &mut self.shards[shard];
        state.absorb_next(self.log.entries(), count)
    }

    /// All that its shard has read of the group.
    pub fn ask(&mut self, pg: PgId) -> Result<View, AskRefusal>
        ensures reply { MayReply self.old (Ask pg) (Asked result) self.new }
        ensures shards { length self.new.read ≡ length self.old.read }
    {
        let shard = shard_of(self.shards.len(), &pg);
        let state = &mut self.shards[shard];
        state.ask(pg)
    }
}

/// This many shards that have read nothing.
fn opening_shards(alloc: Global, shards: usize) -> Result<Vec<ShardState>, AllocError>
    ensures { IfOk result (λ all. all.items ≡ map (λ n. opening_shard n shards) (range_with_len 0 shards)) }
{
    let mut all = Vec::new(alloc);
    for shard in 0..shards {
        all.push(ShardState::start(alloc, shard, shards))?;
    }
    Ok(all)
}
