//! The gate at which a test holds workers, and how a thread waits for another, for a number of turns and no more.
use pgp_engine::Gate;
use std::process::Abort;
use std::sync::Wait;
use std::sync::atomic::{AtomicUsize, Ordering};
use std::thread;
use std::time::{Clock, Duration};

/// How many turns a thread waits at most. A turn is one look and a short sleep.
pub const TURNS: u32 = 100_000;

/// Waits until as many were counted.
pub fn wait_for<R: Abort + Clock>(rt: &R, counted: &AtomicUsize, least: usize) {
    for _ in 0..TURNS {
        if counted.load(Ordering::SeqCst) >= least {
            return;
        }
        thread::sleep(rt, Duration::from_micros(10));
    }
    panic!(rt; "what a thread waits for comes")
}

/// Holds the workers of the first shards until it is opened, or the worker after one of its turns. It counts the turns that are over.
#[derive(Drop)]
pub struct HoldingGate<R: Abort + Clock + Drop> {
    rt: R,
    holds: usize,
    held: AtomicUsize,
    pub over: AtomicUsize,
    held_after: usize,
    opened: AtomicUsize,
}

impl<R: Abort + Clock + Drop> HoldingGate<R> {
    /// A gate that holds the workers of so many shards, and the worker after so many turns; after none if that is 0.
    pub fn new(rt: R, holds: usize, held_after: usize) -> Self {
        HoldingGate {
            rt,
            holds,
            held: AtomicUsize::new(0),
            over: AtomicUsize::new(0),
            held_after,
            opened: AtomicUsize::new(0),
        }
    }

    /// Waits until the shards that it holds are held, all at once.
    pub fn fills(&self) {
        wait_for(&self.rt, &self.held, self.holds);
    }

    pub fn open(&self) {
        self.opened.store(1, Ordering::SeqCst);
    }
}

impl<R: Abort + Clock + Drop> Gate for HoldingGate<R> {
    fn enter<W: Wait>(&self, _rt: &W, shard: usize) {
        if shard < self.holds {
            let _before = self.held.fetch_add(1, Ordering::SeqCst);
            wait_for(&self.rt, &self.opened, 1);
        }
    }

    fn left<W: Wait>(&self, _rt: &W, _shard: usize) {
        let before = self.over.fetch_add(1, Ordering::SeqCst);
        if before.saturating_add(1) == self.held_after {
            wait_for(&self.rt, &self.opened, 1);
        }
    }
}
