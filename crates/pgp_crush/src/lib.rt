//! Placement of a group's replicas or shards on the devices of a cluster, by CRUSH in this project's profile.
//!
//! This layer decides on which devices a group stands. A [`Tree`] is a list of buckets that was checked once, and stays
//! checked. [`place`] goes down from its root for each replica or position: each bucket chooses one of its items by a hash
//! of the input, as a [`Uniform`], a [`List`] or a [`Straw2`] bucket. A try that comes to an item or a device that is taken, or to a device
//! that is out, is followed by another, up to 51. A replicated pool lists what is found; in an erasure pool each position
//! keeps its place. No placement takes memory, and all end. One level of a way down is generic over the kind of bucket.
//! [`laws`] has worked examples.
#![tactic(auto)]

mod candidate;
mod chooser;
mod depth;
mod descent;
mod fault;
mod faults;
mod first_n;
mod indep;
mod index;
pub mod laws;
mod level;
mod list;
mod logarithms;
mod out;
mod placement;
mod rule;
mod straw2;
mod taken_items;
mod tree;
mod uniform;

pub use chooser::Chooser;
pub use fault::TreeFault;
pub use list::List;
pub use logarithms::logarithm;
pub use out::{DEVICES, is_in_by};
pub use placement::place;
pub use rule::Rule;
pub use straw2::Straw2;
pub use tree::Tree;
pub use uniform::Uniform;
