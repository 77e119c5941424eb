//! One published log, which one writer makes longer and many readers read.
//!
//! A [`Feed`] publishes entries, each one that the log takes next. A [`Tap`] reads the log: no tap waits for another, or
//! for the writer. A [`Receipt`] names a front of the log, for good, and is copied without memory; of two receipts of one
//! feed, the shorter names a front of what the longer names.
//!
//! The log stands in two copies, of which readers read one while the writer changes the other; an entry itself is kept
//! once and shared. Of entries this layer decides nothing: what it is given fits the log, and what it publishes is the log
//! with it.
#![tactic(auto)]

mod fault;
mod feed;
mod law;
mod receipt;
mod rule;
mod store;
mod tap;

pub use fault::{MakeFault, ReadFault};
pub use feed::Feed;
pub use receipt::Receipt;
pub use tap::Tap;
