//! Where a worker may be held.
use std::sync::Wait;

/// What a worker passes in each of its turns. Whoever runs the engine may hold it there, and let it go on.
pub trait Gate {
    /// Called under the lock of the shard of this number, with no copy of the feed lent, before the shard reads on or works
    /// out groups. It may wait.
    fn enter<R: Wait>(&self, rt: &R, shard: usize);

    /// Called once the lock is free. It may wait.
    fn left<R: Wait>(&self, rt: &R, shard: usize);
}

/// The gate at which nobody waits.
pub struct Open;

impl Gate for Open {
    fn enter<R: Wait>(&self, _rt: &R, _shard: usize) {}

    fn left<R: Wait>(&self, _rt: &R, _shard: usize) {}
}
