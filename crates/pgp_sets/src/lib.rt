//! Where a placement group lies, and what has become of the devices that it lay on.
//!
//! From the facts of the maps this crate decides a group's up set and acting set at an epoch, with their primaries
//! ([`up_acting`]), and of each device of a past interval whether it is up, destroyed, given up for lost, or may come back
//! ([`StatusOf`]). This follows Ceph's developer documentation on peering and on the map of devices. Nothing here takes
//! memory, and no list is kept: the tree gives the raw set, and the filter looks at what is up, at pg_temp and at primaries.
//! [`laws`] has worked examples.
#![tactic(auto)]

pub mod laws;
mod membership;
mod places;
mod status;
mod status_of;
mod switches;

pub use membership::{filter, raw, up_acting};
pub use status::Status;
pub use status_of::StatusOf;
pub use switches::{has_osd, switches_any};
