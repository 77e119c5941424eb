//! The intake and the shards, each under a lock.
use crate::intake::Intake;
use crate::naming::Naming;
use bell::Bell;
use locked_shard::LockedShard;
use std::marker::Model;
use std::sync::Mutex;

mod bell;
mod locked_shard;
mod locks;
mod make;
mod steps;
mod work;

/// One log, with its intake and its shards, for any number of threads. It is not `Drop`: end it by `give_up`.
pub struct Engine<J: Naming> {
    intake: Mutex<Intake<J>>,
    // Rung by each submit that was taken.
    bell: Bell,
    shards: Vec<LockedShard<J>>,
    workers: usize,
}

impl<J: Naming> Model for Engine<J> {
    ghost use Rattle.std.specs.Prelude.{◌<◌, length};
    ghost use Rattle.pgp_engine.specs.Sizes.{Sizes};

    ghost Value = { Sizes };

    ghost view = { λ e. record { shards = length e.shards.items; workers = e.workers } };

    ghost invariant = { λ e. 0 < length e.shards.items };
}
