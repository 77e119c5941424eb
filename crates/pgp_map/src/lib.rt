//! The cluster map: which devices and pools there are and what holds of them, as map incrementals tell it.
//!
//! This layer decides which incrementals are taken, and what they make of the map. An incremental leads from the map's epoch
//! to a later one, and all its parts take effect together (Ceph's developer documentation on map epochs). [`OsdMap::check`]
//! answers the first fault of an incremental, in the order of [`MapFault`]; [`OsdMap::apply`] makes room, and then changes
//! the map in place without taking memory; each reader gives a fact of the list of all incrementals that were applied, by
//! the last that tells of the thing. The map takes memory for what was named and nothing else; no reader takes any.
//!
//! The layers above use which incrementals a map is of (`IsMapOf`), an incremental's fault (`map_fault`), the facts, and
//! names for what a map has (`Says`, `HasGroup`, `held_up` and their like). [`laws`] has worked examples.
#![tactic(auto)]

mod alike;
mod fault;
mod findings;
pub mod laws;
mod map;
mod new_pool;
mod number_set;
mod ranges;
mod repeats;
mod searched_devices;
mod standing;
mod temp_check;
mod trees;
mod weights;

pub use fault::MapFault;
pub use map::OsdMap;
pub use number_set::NumberSet;
pub use trees::copied_buckets;
