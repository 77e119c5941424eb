//! What the members of a placement group lack: by the log of the best copy, the state of each other copy.
//!
//! Where that log is whole it says of each other copy whether its last write is one of the log, and then which objects
//! it lacks (Ceph's developer documentation on peering and on the log-based recovery of placement groups).
#![tactic(auto)]

mod entries;
pub mod laws;
mod member_log;

pub use member_log::MemberLog;
