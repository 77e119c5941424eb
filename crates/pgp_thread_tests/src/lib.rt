//! Tests of the engine and its feed, of what their contracts leave open.
//!
//! They start threads and wait, so they have a crate of their own. Nothing stands on it.
#![tactic(auto)]

#[cfg(test)]
mod count;
#[cfg(test)]
mod engine;
#[cfg(test)]
mod feed;
