//! Values that tests need, each made in one place: devices, entries by their lines, and lines that make a small pool.
//!
//! What one test alone is about stands in that test. Only tests stand on this crate. A library may not abort, so a function
//! answers `None` where a line is no entry or there was no memory, and the test says what it expected.
#![tactic(auto)]

mod ids;
mod lines;

pub use ids::{NO_OSD, group, places};
pub use lines::{COPIES, EMPTY_0, MANY_GROUPS, TO_SERVE, entry};
