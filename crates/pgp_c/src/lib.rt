//! A log and what answers by it, as a static library for C: a session is one log, which takes entries and answers questions on
//! one thread.
//!
//! The exported functions stand in `session_calls`, `log_calls` and `group_calls`. Each calls [`pgp_core::Session`], and its
//! contract says what C sees. None starts a thread or takes a lock. None tests for a null pointer: what a reference points to is
//! memory by its type. Except for the session, no struct of C has a `bool`, so each may hold any bytes before a call. Raw pointers
//! stand in `held_session` alone: six small functions with proofs by hand.
#![tactic(auto)]

mod ask;
mod devices;
mod each;
mod group_calls;
mod held_session;
mod inc;
mod info;
mod lists;
mod locate;
mod log;
mod log_calls;
mod objects;
mod open_lines;
mod place;
mod pools;
mod report;
mod session;
mod session_calls;
mod status;
mod submit;
mod tree;
mod view;

/// Version 0.3.0.
const VERSION: u32 = 300;
