//! Which entries the log has after many submits.
use crate::count::is_count;
use crate::engine::desk::Desk;
use crate::engine::lines::{CLOSE, EMPTY_0, MAP, given};
use crate::engine::opened::{Host, Trial, tried};
use pgp_engine::{Naming, SubmitFault};
use pgp_ids::{Entry, Refusal};
use pgp_log::LONGEST_LOG;
use std::thread::map_indices;

/// How often one thread calls.
const AGAIN: usize = 200;

// No gate forces an interleaving: two threads submit, and two ask and let both shards read on, as they are scheduled. That makes
// it likely that submits meet at the intake's lock, and that a shard reads the log while it grows.
pub fn submit_many_times<J: Naming + Send + Sync, R: Host>(rt: &R, desk: &Desk<J>) {
    desk.put(rt, MAP);
    let all = map_indices(
        rt,
        rt.alloc(),
        4,
        &|thread| {
            if thread < 2 {
                for _ in 0..AGAIN {
                    desk.put(rt, EMPTY_0);
                }
            } else {
                ask_again(rt, desk);
            }
        },
    );
    assert!(rt; all.is_ok(), "memory");
    is_count(rt, desk.len(rt), 1 + 2 * AGAIN);
    is_count(rt, desk.ask(rt), 1 + 2 * AGAIN);
}

// Asks and reads on as often. No shard goes back.
fn ask_again<J: Naming>(rt: &impl Host, desk: &Desk<J>) {
    let mut last = 0;
    for _ in 0..AGAIN {
        let count = desk.ask(rt);
        assert!(rt; count >= last, "no shard goes back");
        last = count;
        desk.read_on(rt, 0, 1);
        desk.read_on(rt, 1, 1);
    }
}

#[test]
fn each_submit_is_taken_once(rt: HostRuntime) {
    tried(&rt, &Trial::ManySubmits);
}

/// The log takes one info again and again, by its empty front. A full log takes a Close alone, and stays open until somebody
/// submits one. A shard reads all of it.
pub fn fill_and_close<J: Naming>(rt: &impl Host, desk: &Desk<J>) {
    let none = desk.engine.told(rt);
    desk.put(rt, MAP);
    let entry = given(rt, EMPTY_0);
    let Entry::Info(info) = &entry else {
        panic!(rt; "an info")
    };
    for _ in 1..LONGEST_LOG {
        let taken = desk.engine.submit(rt, Entry::Info(*info), &none);
        assert!(rt; taken.is_ok(), "taken");
    }
    for (why, len) in [
        (Refusal::LogFull, LONGEST_LOG),
        (Refusal::Closed, LONGEST_LOG + 1),
    ] {
        let refused = desk.engine.submit(rt, Entry::Info(*info), &none);
        let Err(SubmitFault::Refused { why: found, at: _ }) = refused else {
            panic!(rt; "refused")
        };
        assert!(rt; found == why, "another reason");
        is_count(rt, desk.len(rt), len);
        if why == Refusal::LogFull {
            desk.put(rt, CLOSE);
        }
    }
    is_count(rt, desk.ask(rt), LONGEST_LOG + 1);
}

#[test]
fn a_full_log_stays_open(rt: HostRuntime) {
    tried(&rt, &Trial::Fills);
}
