//! The text of answers, in this project's own format over JSON (RFC 8259): how they are written, as compact JSON with the keys of
//! each object in ascending byte order, and that the fault of a line is written as it was told.
//!
//! [`ReplyWriter`] writes replies one after the other. The reply to an entry that was taken is written by `pgp_core`, without
//! memory. [`write_reply`] is for tests: it writes one reply. [`Json`] is what all text of JSON is written by, whatever numbers epochs
//! have there.
#![tactic(auto)]

pub mod laws;
mod reply;

pub use reply::{
    EpochNumbers, Json, LineRefusal, Reply, ReplyWriter, write_field, write_pair, write_reply,
};
