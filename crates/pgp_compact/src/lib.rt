//! Logs without reports that no answer needs any more.
//!
//! A log takes 65,535 entries, and most of a full one no longer matters. This crate decides which of its entries stay: all
//! incrementals, a Close, and of the reports those that neither the maps nor other reports make needless. Its laws say that
//! without the others every answer is the same, now and after whatever entries follow. They don't say that fewer wouldn't do.
#![tactic(auto)]

mod course;
mod courses;
mod greatest;
mod group_place;
mod later;
pub mod laws;
mod walk;
mod whole;

pub use walk::{compact, needed};
