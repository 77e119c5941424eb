//! What is said of a script that was read to its end: the lines of it that remain, why a group doesn't serve, and for which
//! devices all groups wait.
//!
//! [`compact_script`] writes the lines whose entries `pgp_compact` keeps, byte for byte and in their order. Its laws say that a
//! run of what is written takes just the compacted log. [`CompactMode::Joined`] also joins incrementals, by what pgp_join makes, and
//! writes only what is alike.
//!
//! [`explain`] has a log take the entries, and asks at its end. Of a group it tells the view from scratch by the entries that were
//! taken, and the reasons of pgp_reasons. Of all groups it tells a `Summary`, made of the views of all. pgp_group_words has the
//! words for a group. What is wrong with a line that was refused is said here, by the place that pgp_lines gives.
#![tactic(auto)]

mod advice;
mod choice;
mod compact;
mod devices;
mod entries;
mod fault;
mod group_counts;
mod group_sums;
mod join;
pub mod laws;
mod read;
mod stamps;
mod subcommand;
mod subcommand_fault;
mod summary;
mod summary_json;
mod summary_words;

pub use compact::{CompactMode, Compaction, compact_script};
pub use subcommand::{Question, explain};
pub use subcommand_fault::SubcommandFault;
