//! The tables of a cluster map, and how an incremental changes them in place.
//!
//! This layer decides nothing: it keeps what is told. A table of devices has what the map says of each, a table of pools
//! their present sizes, a table of pg_temp lists those of the groups. First each thing that an incremental names is given
//! a place, which takes memory; then the table is changed, which takes none. A thing without a place is as absent as one
//! of which nothing was told.
#![tactic(auto)]

mod device;
pub mod devices;
pub mod pools;
pub mod temps;

pub use device::Device;
