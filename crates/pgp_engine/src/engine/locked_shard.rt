//! A shard under its lock.
use crate::naming::Naming;
use crate::shard::Shard;
use std::sync::atomic::{AtomicBool, AtomicU64, Ordering};
use std::sync::{Mutex, MutexGuard, Wait};
use std::thread::yield_now;

/// How often whoever asks looks whether the lock is free, before it sleeps until then. A worker's turn is short, and a thread that
/// sleeps wakes late.
const LOOKS: u32 = 200;

/// A shard under a lock, which workers leave to those who ask.
#[derive(Drop)]
pub(super) struct LockedShard<J: Naming> {
    shard: Mutex<Shard<J>>,
    /// How many wait for the lock to ask.
    asking: AtomicU64,
    /// A worker waits for the lock.
    is_awaited: AtomicBool,
}

impl<J: Naming> LockedShard<J> {
    pub fn new(shard: Shard<J>) -> LockedShard<J> {
        LockedShard {
            shard: Mutex::new(shard),
            asking: AtomicU64::new(0),
            is_awaited: AtomicBool::new(false),
        }
    }

    /// A turn of the lock, for somebody who asks.
    pub fn turn_to_ask<R: Wait>(&self, rt: &R) -> MutexGuard<'_, Shard<J>> {
        let _before = self.asking.fetch_add(1, Ordering::SeqCst);
        let turn = match self.look() {
            Some(turn) => turn,
            None => self.shard.lock(rt),
        };
        let _before = self.asking.fetch_sub(1, Ordering::SeqCst);
        turn
    }

    /// A turn of the lock, if it is free soon and no worker waits for it.
    fn look(&self) -> Option<MutexGuard<'_, Shard<J>>> {
        for _ in 0..LOOKS {
            if !self.is_awaited.load(Ordering::SeqCst) {
                if let Some(turn) = self.shard.try_lock() {
                    return Some(turn);
                }
            }
            yield_now();
        }
        None
    }

    /// A turn of the lock, for a worker, if nobody has it or waits to ask. Who asks has the shard read on anyhow.
    pub fn turn_to_work(&self) -> Option<MutexGuard<'_, Shard<J>>> {
        if self.asking.load(Ordering::SeqCst) == 0 {
            self.shard.try_lock()
        } else {
            None
        }
    }

    /// A turn of the lock, for a worker that waits until those who ask leave it one: meanwhile they look for the lock in vain.
    pub fn await_turn_to_work<R: Wait>(&self, rt: &R) -> MutexGuard<'_, Shard<J>> {
        self.is_awaited.store(true, Ordering::SeqCst);
        let turn = self.shard.lock(rt);
        self.is_awaited.store(false, Ordering::SeqCst);
        turn
    }
}
