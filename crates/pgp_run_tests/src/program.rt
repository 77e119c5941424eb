//! What the program does beyond answering a script: its status, and what it says of faults.

use crate::fakes::{FailingStream, NEVER};
use pgp_cli::{DONE, FAULT, WatchedStream, status_of};
use std::process::Abort;
use std::sync::Wait;
use std::test::Fail;
use std::thread::Threads;

/// The runtime of the tests.
pub trait Host: Threads + Wait + Sync + Abort + AllocGlobal {}

impl<R: Threads + Wait + Sync + Abort + AllocGlobal> Host for R {}

/// What a run ended with: its status, what it wrote, and what it said on standard error.
#[derive(Drop, PartialEq)]
pub struct RunEnd {
    pub status: u8,
    pub out: Vec<u8>,
    pub errors: Vec<u8>,
}

/// How the program ends that is given these words behind its name, with a blank between two, and this script, where so many
/// reads go well, and so many calls of the writer.
pub fn run_with<T: Host>(
    rt: &T,
    words: &str,
    script: &[u8],
    good_reads: usize,
    good_writes: usize,
) -> Result<RunEnd, Fail> {
    let alloc = rt.alloc();
    let mut given = Vec::new(alloc);
    given.push(String::from_str(alloc, "pgpeer")?)?;
    for word in words.split_whitespace() {
        given.push(String::from_str(alloc, word)?)?;
    }
    let mut reader = WatchedStream::new(FailingStream::new(script, good_reads));
    let mut writer = WatchedStream::new(FailingStream::new(Vec::new(alloc), good_writes));
    let mut errors = Vec::new(alloc);
    let ending = status_of(
        rt,
        alloc,
        given.as_slice(),
        &mut reader,
        &mut writer,
        &mut errors,
    );
    Ok(RunEnd {
        status: ending.status(),
        out: writer.into_inner().into_inner(),
        errors,
    })
}

/// Two lines and a rest, and their answers.
const LINES: &[u8] = b"{\"op\":\"act\"}\n[]\n{\"op\":\"close\"}";

const ANSWERS: &[u8] =
    b"{\"code\":32,\"refused\":\"NoOp\"}\n{\"code\":32,\"refused\":\"NoOp\"}\n{\"count\":1,\"epoch\":0,\"ok\":\"close\"}\n";

/// A run on one thread, and one over an engine.
static RUNS: [&str; 2] = ["run", "run --shards 3 --workers 2"];

/// Whether a run ended so that left some of the answers: it is done with all of them, or it says this.
fn ends_so(end: &RunEnd, fault: &[u8]) -> bool {
    let out = end.out.as_slice();
    let errors = end.errors.as_slice();
    if end.status == DONE {
        out == ANSWERS && errors.is_empty()
    } else {
        end.status == FAULT && ANSWERS.starts_with(out) && errors == fault
    }
}

/// What is said of a read of the lines that fails after as many calls: each one before gave a piece.
static FAILED_READS: [&[u8]; 4] = [
    b"pgpeer: read fault\npgpeer: a read failed in line 1\n",
    b"pgpeer: read fault\npgpeer: a read failed in line 1\n",
    b"pgpeer: read fault\npgpeer: a read failed in line 3\n",
    b"pgpeer: read fault\npgpeer: a read failed in line 3\n",
];

#[test]
fn each_failed_read_is_named(rt: HostRuntime) -> Result<(), Fail> {
    for words in &RUNS {
        for good in 0..6 {
            let end = run_with(&rt, words, LINES, good, NEVER)?;
            let fault = FAILED_READS.get(good).copied().unwrap_or(b"");
            assert!(rt; ends_so(&end, fault), "{words}, read {good}");
            assert!(rt; (end.status == DONE) == (good >= 4), "{words}, read {good}");
        }
    }
    Ok(())
}

#[test]
fn each_failed_write_is_named(rt: HostRuntime) -> Result<(), Fail> {
    for words in &RUNS {
        for good in 0..30 {
            let end = run_with(&rt, words, LINES, NEVER, good)?;
            assert!(rt;
                ends_so(&end, b"pgpeer: write fault\n"),
                "{words}, write {good}"
            );
            assert!(rt; good > 0 || end.status == FAULT, "{words}");
            assert!(rt; good < 29 || end.status == DONE, "{words}");
        }
    }
    Ok(())
}
