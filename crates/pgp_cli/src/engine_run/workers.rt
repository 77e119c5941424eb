//! The workers of a run, from their start to the Close that ends them.
ghost use Rattle.std.specs.Prelude.{◌≡◌, ◌<◌, ◌≤◌, true};
ghost use Rattle.pgp_log.specs.Fits.{is_closed};
ghost use Rattle.pgp_feed.specs.Receipts.{entries_of};

use pgp_engine::{Engine, Naming, Open, SubmitFault};
use pgp_feed::Receipt;
use pgp_ids::Entry;
use std::sync::Wait;
use std::thread::{Scope, Threads};

/// Starts the workers at the seats below `workers`, each on a thread of its own, and says whether there was a thread for each.
/// They work until the log is closed.
pub fn all_started<'s, E, J: Naming + Send + Sync, T: Threads + Wait + Sync>(
    rt: &'s T,
    scope: &Scope<'s, E>,
    engine: &'s Engine<J>,
    workers: usize,
) -> bool
    requires { workers ≤ engine.now.workers }
{
    for seat in 0..workers {
        // A worker that lacks memory or a copy of the log ends early, and no answer shows it: an ask reads what it needs.
        let work = move ||
            requires { seat < engine.now.workers }
        {
            let _ = engine.work(rt, seat, &Open);
        };
        if scope.spawn(work).is_err() {
            return false;
        }
    }
    true
}

/// Closes the log, if it isn't closed yet, and gives the receipt of a front that shows it. Tries again for as long as there is
/// no memory or no copy of the log.
pub fn close<J: Naming, T: Wait>(rt: &T, engine: &Engine<J>) -> Receipt
    ensures { is_closed (entries_of result) ≡ true }
{
    let told = engine.told(rt);
    for _ in rt.forever() {
        match engine.submit(rt, Entry::Close, &told) {
            Ok(at) | Err(SubmitFault::Refused { at, .. }) => return at,
            Err(SubmitFault::Memory | SubmitFault::NoReader) => {}
        }
    }
    unreachable!()
}
