//! The prior set of a placement group: whom it has to hear before it may serve, and for whom it has to wait.
//!
//! A write may have been taken in any past interval in which the group may have gone read-write, since it last began to
//! serve. So the devices of each such interval are asked, and where too few of them can be, the group stays down until
//! more come back or are given up for lost (Ceph's developer documentation on peering: the prior set).
//!
//! [`prior`] walks all past intervals. [`PriorIndex`] keeps for each device the intervals that it stands in and for each
//! interval whether it blocks: as the statuses of a device change, it judges those of its intervals anew that the change
//! may have turned, by the law that more slots are never less.
#![tactic(auto)]

mod additions;
mod blocking;
mod index;
mod judged_interval;
pub mod laws;
mod members;
mod places;
mod prior_set;
mod statuses;
mod walk;

pub use blocking::{blocks, settled_slots};
pub use index::PriorIndex;
pub use members::{Members, members_of};
pub use prior_set::Prior;
pub use walk::prior;
