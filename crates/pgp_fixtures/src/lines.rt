//! Entries by their lines, and lines that make a small pool, or tell of the copies of its first group.

use pgp_ids::Entry;
use pgp_lines::{Command, read_line};
use std::alloc::Global;

/// The entry that the line is.
pub fn entry(alloc: Global, line: &str) -> Option<Entry> {
    match read_line(alloc, line.as_bytes()) {
        Ok(Command::Submit(entry)) => Some(entry),
        _ => None,
    }
}

/// Epoch 1: pool 1 of three copies over the devices 0, 1 and 2, of which device 0 alone has weight; pg_temp puts its one group
/// on all three.
pub const COPIES: &str =
    r#"{"op":"inc","epoch":1,"up":[0,1,2],"weight":[[1,0],[2,0]],"crush":[{"id":-1,"type":1,"alg":"uniform","items":[0,1,2]}],"pools":[{"id":1,"pg_num":1,"kind":"replicated","size":3,"min_size":2,"leaf":0}],"temp":[[1,0,[0,1,2]]]}"#;

/// Epoch 1: pool 1 of 256 groups of three copies, over sixteen devices in one bucket.
pub const MANY_GROUPS: &str =
    r#"{"op":"inc","epoch":1,"up":[0,1,2,3,4,5,6,7,8,9,10,11,12,13,14,15],"crush":[{"id":-1,"type":1,"alg":"uniform","items":[0,1,2,3,4,5,6,7,8,9,10,11,12,13,14,15]}],"pools":[{"id":1,"pg_num":256,"kind":"replicated","size":3,"min_size":2,"leaf":0}]}"#;

/// A complete copy of the group without a write, which never served, as the devices 0 and 2 tell of it in epoch 1.
pub const EMPTY_0: &str =
    r#"{"op":"info","pg":[1,0],"from":[0,0],"stamp":1,"les":0,"history_les":0,"last_update":[0,0],"log_tail":[0,0],"complete":true}"#;

const EMPTY_2: &str =
    r#"{"op":"info","pg":[1,0],"from":[2,0],"stamp":1,"les":0,"history_les":0,"last_update":[0,0],"log_tail":[0,0],"complete":true}"#;

/// The lines of two copies with writes, of which device 1 lacks the second, and of the log of device 0.
const WRITTEN_0: &str =
    r#"{"op":"info","pg":[1,0],"from":[0,0],"stamp":1,"les":0,"history_les":0,"last_update":[1,2],"log_tail":[0,0],"complete":true}"#;

const WRITTEN_1: &str =
    r#"{"op":"info","pg":[1,0],"from":[1,0],"stamp":1,"les":0,"history_les":0,"last_update":[1,1],"log_tail":[0,0],"complete":true}"#;

const LOG_0: &str =
    r#"{"op":"entries","pg":[1,0],"from":[0,0],"stamp":1,"log":[[1,1,"modify","a"],[1,2,"modify","b"]]}"#;

/// The incremental by which device 0 is known to have been up in epoch 1.
const KNOWN_UP: &str = r#"{"op":"inc","epoch":2,"up_thru":[[0,1]]}"#;

/// The entries after which a group of three copies serves: two have writes that the third lacks.
pub const TO_SERVE: [&str; 6] = [COPIES, WRITTEN_0, WRITTEN_1, EMPTY_2, LOG_0, KNOWN_UP];
