//! Tests of the program and of its lines: what its words ask for, what it says of faults, and that the answers over an engine are
//! those of one thread, whatever its size.
//!
//! Most of them start threads and wait, so they have a crate of their own. Nothing stands on it. The tests of the feed and the
//! engine have another one, which needn't wait for the proof of `pgp_cli`.
#![tactic(auto)]

#[cfg(test)]
mod command_line;
#[cfg(test)]
mod fakes;
#[cfg(test)]
mod joins;
#[cfg(test)]
mod program;
#[cfg(test)]
mod same;
#[cfg(test)]
mod session;
