//! What lines say, in this project's own format over JSON (RFC 8259).
//!
//! The layer decides what a line says: one command, or the first of its faults in a fixed order. A line that is no JSON
//! text comes before one that names no operation, that before an unknown key, and that before a bad or absent value; of
//! several keys the least in byte order is named. Whether a command makes sense to the map or to the log is decided
//! elsewhere. It stands on plain data alone, so the code of a trace is a `PoolKind`, of which the caller makes the code.
//!
//! `Op` is the table of operations: the name, the keys and the reader of each. [`LineReader`] reads the lines of every operation.
#![tactic(auto)]

mod command;
pub mod laws;

pub use command::{Command, Format, LineReader, MAX_EPOCHS, Op, bucket_of, read_line};
