//! The best info of a placement group: whose copy is the one to follow, of those that were heard.
//!
//! Of the complete copies that served last, a replicated pool follows the one with the newest last write, and an
//! erasure pool the one with the oldest, since only a write that enough shards have can be given back (Ceph's
//! developer documentation on peering, and on erasure coding). [`Best`] keeps the last info of each member and finds
//! the best one by any [`Prefer`], of whose laws alone it makes use; [`NewestFirst`] and [`OldestFirst`] are those of
//! the two kinds of pool, and [`Preference`] is that of any pool. What is heard and what counts is decided above.
#![tactic(auto)]

mod best;
pub mod laws;
mod lead;
mod prefer;
mod preference;

pub use best::Best;
pub use prefer::Prefer;
pub use preference::{NewestFirst, OldestFirst, Preference};
