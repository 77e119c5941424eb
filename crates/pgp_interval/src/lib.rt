//! The intervals of a placement group: the maximal runs of epochs in which its membership stays as it is.
//!
//! From a group's history, as it grows, this crate decides which intervals are past, in which of them the
//! group may have gone read-write, and where the current one opens. The rules are those of Ceph's developer
//! documentation on peering (past intervals, up_thru), and one of this project's own: a group that was clean in an epoch
//! of an interval (Ceph's `last_epoch_clean`) may have gone read-write in it.
#![tactic(auto)]

mod acting;
mod intervals;
pub mod laws;
mod raise;

pub use acting::acting_slots;
pub use intervals::Intervals;
