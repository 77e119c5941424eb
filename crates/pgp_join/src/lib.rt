//! Logs that nothing which may follow tells apart.
//!
//! This crate defines when another log may stand for one: the reports are the same, the last maps say the same of all that entries
//! and views read, and of each group the same intervals can matter. Its laws say that such logs have alike views, now and after
//! whatever entries come. So incrementals may be left out and others pass over their epochs.
//!
//! [`pieces_of`] makes a shorter log, and [`entry_line`] writes an entry as a line: of both nothing is promised. What they make is
//! tested by [`are_alike`], which decides whether two logs are alike. So [`join`] gives a log that may stand for another one, and
//! [`joined_lines`] lines whose log may.
#![tactic(auto)]

mod alike;
mod bound;
mod joined;
pub mod laws;
mod line;
mod lines;
mod made;
mod pieces;
mod reports;
mod starts;

pub use alike::are_alike;
pub use joined::join;
pub use line::entry_line;
pub use lines::{entries_if_alike, joined_lines};
pub use pieces::{Piece, Shorter, pieces_of};
