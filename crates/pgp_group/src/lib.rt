//! A placement group as the log of all that monitor and devices told says of it: its history, whom it has heard, whose
//! copy is the one to follow, and whether it may serve.
//!
//! The layers below each say one thing of a group: where it lies, in which intervals, whom it has to hear, which info is
//! the best, what the others lack. This crate joins them into one view (Ceph's developer documentation on peering).
//!
//! A [`Group`] takes each report, and each map by which it may lie elsewhere; through other maps it sleeps (`stay`). A caller
//! that keeps where the tree puts the group gives the membership itself (`absorb_members`). `names` says of which devices the
//! group speaks. Which entries may change a view is defined in `Touched`, and a law says that others change count and epoch
//! alone.
#![tactic(auto)]

mod device_facts;
mod group;
mod heard;
mod inbox;
mod infos;
mod kept_prior;
pub mod laws;
mod logs;
mod named_devices;
mod reports;

pub use group::{Group, primary_facts};
pub use heard::{is_counted, last_infos};
