//! Command lines: what the program ends with that is given these words. `dev/check_statuses.py` has more of them.

use crate::fakes::NEVER;
use crate::program::{RunEnd, run_with};
use pgp_cli::{DONE, FAULT, USAGE, without_words};
use std::io::ErrorKind;
use std::test::Fail;

/// A line and its answer.
const SCRIPT: &[u8] = b"{\"op\":\"close\"}\n";

const ANSWERED: &[u8] = b"{\"count\":1,\"epoch\":0,\"ok\":\"close\"}\n";

/// How the text begins that refuses a number, that asks for one, and that refuses a group's name and an offset.
const WRONG_COUNT: &[u8] =
    b"error: --shards takes a number from 1 to 64, and --workers one from 0 to 64\n";

const NO_COUNT: &[u8] = b"error: a value is required for '--";

const WRONG_GROUP: &[u8] = b"error: PG is POOL.SEED, pool 1 to 255 in decimal, ";

const WRONG_OFFSET: &[u8] = b"error: --epoch-offset takes a number from 0 to 4294967295\n";

/// The words behind the program's name, its status, and what it writes, or how begins what it says on standard error.
struct Row(&'static str, u8, &'static [u8]);

static ROWS: [Row; 14] = [
    // Each number within its bounds goes with each of the other one, in either order: also more workers than shards.
    Row("run --shards 1 --workers 2", DONE, ANSWERED),
    Row("run --workers=64 --shards=64", DONE, ANSWERED),
    Row("run --shards +3 --workers 007", DONE, ANSWERED),
    Row("run --format=03", DONE, ANSWERED),
    // A number out of its bounds, or none where one has to be.
    Row("run --shards 0", USAGE, WRONG_COUNT),
    Row("run --workers 65", USAGE, WRONG_COUNT),
    Row("run --workers 1.5", USAGE, WRONG_COUNT),
    Row("run --workers=", USAGE, WRONG_COUNT),
    Row("run --shards", USAGE, NO_COUNT),
    // A word that is no group's name, or no offset.
    Row("explain 1.400 --json", USAGE, WRONG_GROUP),
    Row("explain +1.a --json", USAGE, WRONG_GROUP),
    Row("explain 1.a --epoch-offset=-1", USAGE, WRONG_OFFSET),
    Row("explain 1.a --epoch-offset=4294967296", USAGE, WRONG_OFFSET),
    // A group that the map doesn't have.
    Row("explain 1.A", FAULT, b"pgpeer: the map has no group 1.a\n"),
];

/// Whether the run ended as the row says.
fn ends_so(end: &RunEnd, row: &Row) -> bool {
    let Row(_, status, text) = row;
    let (said, other) = if *status == DONE {
        (end.out.as_slice(), &end.errors)
    } else {
        (end.errors.as_slice(), &end.out)
    };
    end.status == *status && other.is_empty() && said.starts_with(text)
}

#[test]
fn each_command_line_ends_with_its_status_and_texts(rt: HostRuntime) -> Result<(), Fail> {
    for row in &ROWS {
        let words = row.0;
        let end = run_with(&rt, words, SCRIPT, NEVER, NEVER)?;
        assert!(rt; ends_so(&end, row), "{words}");
    }
    Ok(())
}

/// Why there are no words, and what is said of it.
static NO_WORDS: [(ErrorKind, &[u8]); 2] = [
    (ErrorKind::InvalidData, b"error: an argument is not UTF-8\n"),
    (ErrorKind::OutOfMemory, b"error: out of memory\n"),
];

#[test]
fn words_that_could_not_be_read_are_named(rt: HostRuntime) {
    for (kind, told) in &NO_WORDS {
        let mut errors = Vec::new(rt.alloc());
        let ending = without_words(*kind, &mut errors);
        assert!(rt; ending.status() == 2 && errors.as_slice() == *told);
    }
}
