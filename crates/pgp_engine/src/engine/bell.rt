//! How workers rest that have nothing to do.
use std::sync::Wait;
use std::sync::atomic::{AtomicBool, AtomicU64, Ordering};
use std::time::Duration;

/// By what workers rest. To ring it is to look at a flag, unless somebody listens.
#[derive(Drop)]
pub(super) struct Bell {
    /// How often it was rung.
    rings: AtomicU64,
    /// Somebody listens, who may sleep until it is rung.
    is_heard: AtomicBool,
}

impl Bell {
    pub fn new() -> Bell {
        Bell {
            rings: AtomicU64::new(0),
            is_heard: AtomicBool::new(false),
        }
    }

    /// How often it was rung, which [`Bell::sleep`] takes. Whoever may sleep listens from then on.
    pub fn listen(&self, may_sleep: bool) -> u32 {
        let rings = low_half(self.rings.load(Ordering::SeqCst));
        if may_sleep {
            self.is_heard.store(true, Ordering::SeqCst);
        }
        rings
    }

    /// It was rung since it was listened to.
    pub fn was_rung(&self, rings: u32) -> bool {
        low_half(self.rings.load(Ordering::SeqCst)) != rings
    }

    /// Sleeps until it is rung, if it wasn't rung since it was listened to.
    pub fn sleep<R: Wait>(&self, rt: &R, rings: u32) {
        self.rings.park(rt, rings);
    }

    /// Rests for so many microseconds, or until it is rung. Who naps doesn't listen.
    pub fn nap<R: Wait>(&self, rt: &R, micros: u64) {
        let rings = low_half(self.rings.load(Ordering::SeqCst));
        self.rings
            .park_timeout(rt, rings, Duration::from_micros(micros));
    }

    /// Wakes those who sleep, once for all that is rung until one of them listens again.
    pub fn ring(&self) {
        if self.is_heard.load(Ordering::SeqCst) && self.is_heard.swap(false, Ordering::SeqCst) {
            self.ring_out();
        }
    }

    /// Wakes all, also from a nap.
    pub fn ring_out(&self) {
        let _before = self.rings.fetch_add(1, Ordering::SeqCst);
        self.rings.wake_all();
    }
}

/// What the kernel compares of a word that threads sleep on.
fn low_half(word: u64) -> u32 {
    (word & 0xffff_ffff) as u32
}
