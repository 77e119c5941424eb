//! The log of all that monitor and devices told: which entry may follow it, and what one changes (the log and its order of
//! refusals are this project's own choice).
//!
//! [`Judge`] judges the next entry and keeps none; [`JudgedLog`] is a legal list of entries with its judge. [`RawSets`] keeps
//! where the tree puts groups, for objects that are looked up. [`MapBefore`] keeps what an incremental makes the map forget. A
//! feed and the readers of a log stand on this crate, and on no script.
#![tactic(auto)]

mod before;
mod entry;
mod judge;
mod judged_log;
pub mod laws;
mod place;
mod raw_sets;
mod report;
mod touch;

pub use before::MapBefore;
pub use entry::{inc_of, is_close};
pub use judge::{Judge, LONGEST_LOG};
pub use judged_log::JudgedLog;
pub use place::ObjectPlace;
pub use raw_sets::RawSets;
pub use touch::{
    changes_no_pool, changes_nothing, changes_placement, changes_placements, changes_pool,
    changes_temp, moves, moves_all, moves_none, stands_in, turns_place,
};
