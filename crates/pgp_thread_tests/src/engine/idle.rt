//! That a worker works out all groups of its shards in a lull, until it sleeps or something is submitted, and before that what was
//! asked about, which a gate tells by counting its turns, those of a shard that it passed over among them; that it waits for a shard in
//! the end; and that it ends once all shards have read the Close, where one of them is ahead of the other.
ghost use Rattle.std.specs.Prelude.{◌<◌};
ghost use Rattle.pgp_thread_tests.specs.declared.engine.opened.TheConstants.{SHARDS};

use crate::count::is_count;
use crate::engine::desk::Desk;
use crate::engine::gates::{HoldingGate, wait_for};
use crate::engine::lines::{CLOSE, EMPTY_0, MAP};
use crate::engine::opened::{Host, SHARDS, Trial, tried};
use pgp_engine::{Naming, Open};
use pgp_fixtures::MANY_GROUPS;
use std::sync::MutexGuard;
use std::sync::atomic::Ordering;
use std::thread;
use std::thread::join;
use std::time::Duration;

/// After how many rounds without an entry a lull begins.
const QUIET: usize = 8;

/// How many groups a turn works out.
pub const A_TURN: usize = 8;

/// How many turns one worker takes with both shards until nothing is left to do, and it sleeps. In each round each of them has one: it
/// reads an entry in one round and nothing in the others, of which the last begins the lull. Then the first shard works out half of its
/// groups, and the second has none left.
pub const NEEDED: usize = READ + ALL / 2 * SHARDS;

/// How many of these turns are over when the lull begins.
const READ: usize = (2 + QUIET) * SHARDS;

/// In how many turns a shard works out its groups.
const ALL: usize = GROUPS / A_TURN;

/// How many of these turns it has taken when each shard had one to work out groups.
pub const BEGUN: usize = READ + SHARDS;

/// How many are over when the worker waits for a shard that is locked since the lull began: in a round each the other one has worked
/// out its groups, and read nothing a thousand times, and each of the lulls among these had nothing left to do.
const PASSED: usize = READ + ALL + 1_000 + 1_000 / (QUIET + 1);

/// How many groups each shard has.
pub const GROUPS: usize = 128;

/// More entries than a worker's turn reads.
const INFOS: usize = 100;

// So many turns are over, and no more come. Thirty milliseconds are ample for one.
fn stops_after<R: Host>(rt: &R, gate: &HoldingGate<R>, turns: usize) {
    wait_for(rt, &gate.over, turns);
    thread::sleep(rt, Duration::from_millis(30));
    is_count(rt, gate.over.load(Ordering::SeqCst), turns);
}

/// One worker serves both shards, of which before the first has worked out so many groups, and the second so many, one of which is
/// asked about and then touched. Once the worker has taken so many turns, though nothing is submitted after that, it sleeps, or is held
/// if that is asked for. Then the log is closed, and no turn is left but those in which both read the Close.
pub fn work_out<J: Naming + Send + Sync, R: Host>(
    rt: &R,
    desk: &Desk<J>,
    first: usize,
    second: usize,
    turns: usize,
    is_held: bool,
) {
    desk.put(rt, MANY_GROUPS);
    for _ in 0..2 {
        is_count(rt, desk.read_on(rt, 0, first), 1);
        is_count(rt, desk.read_on(rt, 1, second), 1);
    }
    is_count(rt, desk.ask(rt), 1);
    desk.put(rt, EMPTY_0);
    let gate = HoldingGate::new(*rt, 0, if is_held { turns } else { 0 });
    let (end, closed) = join(
        rt,
        || desk.work(rt, 0, &gate),
        || {
            stops_after(rt, &gate, turns);
            let closed = desk.put(rt, CLOSE);
            gate.open();
            closed
        },
    );
    is_count(rt, end.expect(rt, "a shard"), closed);
    let over = gate.over.load(Ordering::SeqCst);
    is_count(rt, over, turns.saturating_add(SHARDS));
}

/// One worker serves both shards. As a lull begins, somebody locks one of them. Once the worker has worked out all groups of the other,
/// it doesn't sleep, but waits for that shard in the end, and works out those too, though nothing is submitted after the map.
pub fn come_back<J: Naming + Send + Sync, R: Host>(rt: &R, desk: &Desk<J>) {
    desk.put(rt, MANY_GROUPS);
    let gate = HoldingGate::new(*rt, 0, READ);
    let (end, closed) = join(
        rt,
        || desk.work(rt, 0, &gate),
        || {
            wait_for(rt, &gate.over, READ);
            let turn = desk.show(rt);
            gate.open();
            stops_after(rt, &gate, PASSED);
            MutexGuard::unlock(turn);
            wait_for(rt, &gate.over, PASSED + ALL * SHARDS);
            desk.put(rt, CLOSE)
        },
    );
    is_count(rt, end.expect(rt, "a shard"), closed);
}

/// The log is closed, and one shard has read it. The worker of both ends once the other has read it too.
pub fn end_last<J: Naming>(rt: &impl Host, desk: &Desk<J>, ahead: usize)
    requires { ahead < SHARDS }
{
    desk.put(rt, MAP);
    for _ in 0..INFOS {
        desk.put(rt, EMPTY_0);
    }
    let closed = desk.put(rt, CLOSE);
    is_count(rt, desk.read_on(rt, ahead, closed), closed);
    is_count(rt, desk.work(rt, 0, &Open).expect(rt, "a shard"), closed);
    is_count(rt, desk.read_on(rt, 0, 0), closed);
    is_count(rt, desk.read_on(rt, 1, 0), closed);
}

#[test]
fn a_worker_works_out_all_groups_before_it_sleeps(rt: HostRuntime) {
    tried(&rt, &Trial::FirstAhead);
    tried(&rt, &Trial::SecondAhead);
    tried(&rt, &Trial::WorksOut);
}

#[test]
fn a_worker_works_out_what_was_asked_about_as_entries_come(rt: HostRuntime) {
    tried(&rt, &Trial::WorksOutAsked);
}

#[test]
fn a_submit_ends_a_lull(rt: HostRuntime) {
    tried(&rt, &Trial::EndsLull);
}

#[test]
fn a_worker_comes_back_to_a_shard_that_was_locked(rt: HostRuntime) {
    tried(&rt, &Trial::ComesBack);
}
