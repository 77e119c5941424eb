//! The shards of a log: what its readers keep, and what a world of one log and several readers answers (this project's own
//! choice).
//!
//! [`ShardState`] holds the front that one shard has read, and from the first question or `renew` on the groups that follow from
//! it. [`World`] is a log and its shards in one thread. An engine and a script's log stand on this crate.
//!
//! A group that no entry touches keeps its view. One that is touched is marked, and the next question for it, or `renew`,
//! works it out. An incremental passes by each group whose row shows that it can't concern the group.
#![tactic(auto)]

mod copies;
mod groups;
mod kept_group;
pub mod laws;
mod osd_filter;
mod owner;
mod row;
mod shard;
mod world;

pub use shard::{ShardState, shard_of};
pub use world::World;
