//! The program: lines of JSON in, one answer for each.
//!
//! Everything but the standard streams is a function of `pgp_cli` over any reader and writers.
#![tactic(auto)]

use pgp_cli::{WatchedStream, status_of, without_words};
use std::env;
use std::io::ErrorKind;
use std::process::ExitCode;

fn main(rt: HostRuntime) -> ExitCode {
    let alloc = rt.alloc();
    let words = match env::args(&rt) {
        Ok(args) => args
            .collect::<Vec<String>>(alloc)
            .or(Err(ErrorKind::OutOfMemory)),
        Err(error) => Err(error.kind()),
    };
    let ending = match words {
        Ok(words) => status_of(
            &rt,
            alloc,
            words.as_slice(),
            &mut WatchedStream::new(rt.stdin()),
            &mut WatchedStream::new(rt.stdout()),
            &mut rt.stderr(),
        ),
        Err(kind) => without_words(kind, &mut rt.stderr()),
    };
    ExitCode::from(ending.status())
}
