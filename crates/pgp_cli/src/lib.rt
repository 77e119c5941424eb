//! The command line: what its words ask for, and how the program ends.
//!
//! [`status_of`] does what the words ask for, over any reader and writers: `pgp_core` answers a script on one thread, and
//! [`run_engine`] one with workers; `pgp_whole` explains or compacts one. [`WatchedStream`] is a
//! stream that notes whether one of its calls failed, on which the contract of a run depends, and how far it was read.
//! [`run_engine`] stands here, so that the engine stands on no script.
#![tactic(auto)]

mod commands;
mod ending;
mod engine_run;
mod fault;
mod request;
mod status;
mod streams;
mod tell;

pub use ending::{DONE, Ending, FAULT, USAGE};
pub use engine_run::run_engine;
pub use request::{Request, RunOptions, options, read_request};
pub use status::status_of;
pub use streams::{Counted, WatchedStream};
pub use tell::without_words;
