//! What workers do, each on a thread of its own, while one more thread does something else and then closes the log.
use crate::count::is_count;
use crate::engine::clients::is_placed;
use crate::engine::desk::Desk;
use crate::engine::gates::{HoldingGate, TURNS};
use crate::engine::lines::{CLOSE, EMPTY_0, MAP};
use crate::engine::opened::{Host, SHARDS, Trial, tried};
use pgp_engine::{Client, Naming, Open};
use std::sync::Mutex;
use std::thread;
use std::thread::map_indices;
use std::time::Duration;

/// What is done beside two workers.
pub enum Beside {
    /// The worker of the first shard is held meanwhile.
    FirstHeld,
    /// Both are, each under its own shard's lock.
    BothHeld,
    EachWoken,
}

// A worker without a shard ends, and the second shard answers by what was submitted after the first was held.
fn ask_past<J: Naming, R: Host>(rt: &R, desk: &Desk<J>, gate: &HoldingGate<R>) {
    gate.fills();
    assert!(rt; desk.work(rt, SHARDS, &Open).is_none(), "it has no shard");
    is_count(rt, desk.put(rt, EMPTY_0), 2);
    is_count(rt, desk.ask(rt), 2);
    gate.open();
}

// A client places by what was submitted after both were held. Then both read on by themselves.
fn place_past<J: Naming, R: Host>(
    rt: &R,
    desk: &Desk<J>,
    gate: &HoldingGate<R>,
    clients: &Mutex<Vec<Client<J>>>,
) {
    gate.fills();
    is_count(rt, desk.put(rt, EMPTY_0), 2);
    let mut turn = clients.lock(rt);
    let mut client = turn.pop().expect(rt, "a client");
    is_placed(rt, &mut client, 2);
    gate.open();
    wait_until_read(rt, desk, 2);
}

/// How many infos are submitted, each to workers that sleep.
const INFOS: usize = 10;

// Both shards read each info by themselves, though the workers had time to fall asleep before it. No gate forces it that they
// sleep: thirty milliseconds are ample for a lull to begin, and for them to find that there is nothing to do.
fn wake_each<J: Naming>(rt: &impl Host, desk: &Desk<J>) {
    wait_until_read(rt, desk, 1);
    for _ in 0..INFOS {
        thread::sleep(rt, Duration::from_millis(30));
        let count = desk.put(rt, EMPTY_0);
        wait_until_read(rt, desk, count);
    }
}

// Waits until both shards have read this many entries by themselves.
fn wait_until_read<J: Naming>(rt: &impl Host, desk: &Desk<J>, count: usize) {
    for _ in 0..TURNS {
        if desk.read_on(rt, 0, 0) >= count && desk.read_on(rt, 1, 0) >= count {
            return;
        }
        thread::sleep(rt, Duration::from_micros(10));
    }
    panic!(rt; "the workers read on by themselves")
}

/// Does it beside two workers, which serve until the log is closed.
pub fn work_beside<J: Naming + Send + Sync, R: Host>(
    rt: &R,
    beside: &Beside,
    desk: &Desk<J>,
    clients: Vec<Client<J>>,
) {
    desk.put(rt, MAP);
    let clients = &Mutex::new(clients);
    let holds = match beside {
        Beside::FirstHeld => 1,
        Beside::BothHeld => 2,
        Beside::EachWoken => 0,
    };
    let gate = &HoldingGate::new(*rt, holds, 0);
    let ends = map_indices(
        rt,
        rt.alloc(),
        3,
        &|place| {
            if place < 2 {
                return desk.work(rt, place, gate);
            }
            match beside {
                Beside::FirstHeld => ask_past(rt, desk, gate),
                Beside::BothHeld => place_past(rt, desk, gate, clients),
                Beside::EachWoken => wake_each(rt, desk),
            }
            Some(desk.put(rt, CLOSE))
        },
    );
    let closed = desk.len(rt);
    for end in ends.ok().expect(rt, "memory") {
        assert!(rt; end == Some(closed), "a worker reads up to the Close");
    }
}

#[test]
fn a_held_shard_holds_up_nobody_else(rt: HostRuntime) {
    tried(&rt, &Trial::Works(Beside::BothHeld));
    tried(&rt, &Trial::Works(Beside::FirstHeld));
}

#[test]
fn workers_read_on_until_the_close(rt: HostRuntime) {
    tried(&rt, &Trial::Works(Beside::EachWoken));
}
