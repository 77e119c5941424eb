//! How a test gets its engine, over a feed that was just made.
ghost use Rattle.std.specs.Prelude.{◌≡◌, [], length, All};
ghost use Rattle.pgp_feed.specs.Feeds.{told_of};
ghost use Rattle.pgp_feed.specs.Receipts.{entries_of, feed_of};
ghost use Rattle.pgp_feed.specs.Taps.{last_of};

use crate::engine::clients::outlive;
use crate::engine::desk::Desk;
use crate::engine::growths::call_again;
use crate::engine::idle::{A_TURN, BEGUN, GROUPS, NEEDED, come_back, end_last, work_out};
use crate::engine::submits::{fill_and_close, submit_many_times};
use crate::engine::workers::{Beside, work_beside};
use pgp_engine::{Engine, MakeFault, Naming};
use pgp_feed::{Feed, Tap};
use std::marker::Brand;
use std::process::Abort;
use std::sync::Wait;
use std::thread::Threads;
use std::time::Clock;

/// The runtime of the tests.
pub trait Host: Threads + Wait + Abort + Clock + AllocGlobal + Sync + Copy + Drop {}

impl<R: Threads + Wait + Abort + Clock + AllocGlobal + Sync + Copy + Drop> Host for R {}

/// How many shards the engines of the tests have.
pub const SHARDS: usize = 2;

/// How many taps their feeds have: one for each shard and for the intake, and two for clients.
pub const TAPS: usize = SHARDS + 3;

/// What is tried with an engine to which nothing was submitted yet, and with its two clients.
pub enum Trial {
    Fills,
    ManySubmits,
    EachCallAgain,
    Works(Beside),
    WorksOut,
    WorksOutAsked,
    EndsLull,
    ComesBack,
    /// One of two shards of one worker has read all before the worker begins.
    FirstAhead,
    SecondAhead,
    Outlived,
}

/// Tries it. Where one allocation is refused as the feed and the engine are made, they are made once more.
pub fn tried<R: Host>(rt: &R, trial: &Trial) {
    for _ in 0..2 {
        if let Ok((feed, taps)) = Feed::make(rt, rt.alloc(), TAPS) {
            if over::<Brand, R>(rt, trial, feed, taps).is_ok() {
                return;
            }
        }
    }
    panic!(rt; "an engine is made at the second try")
}

fn over<J: Naming + Send + Sync, R: Host>(
    rt: &R,
    trial: &Trial,
    feed: Feed,
    taps: Vec<Tap>,
) -> Result<(), MakeFault>
    requires feed { feed_of (told_of feed) ≡ J.feed }
    requires empty { entries_of (told_of feed) ≡ [] }
    requires each { All (λ tap. last_of tap ≡ told_of feed) taps.items }
    requires count { length taps.items ≡ TAPS }
{
    let workers = match trial {
        Trial::Works(Beside::FirstHeld) => SHARDS + 1,
        Trial::WorksOut
        | Trial::WorksOutAsked
        | Trial::EndsLull
        | Trial::ComesBack
        | Trial::FirstAhead
        | Trial::SecondAhead => 1,
        _ => SHARDS,
    };
    let (engine, clients) = Engine::<J>::make(rt, rt.alloc(), feed, taps, SHARDS, workers)?;
    let desk = Desk { engine, workers };
    match trial {
        Trial::Fills => fill_and_close(rt, &desk),
        Trial::ManySubmits => submit_many_times(rt, &desk),
        Trial::EachCallAgain => call_again(rt, &desk, clients),
        Trial::Works(beside) => work_beside(rt, beside, &desk, clients),
        Trial::WorksOut => work_out(rt, &desk, GROUPS / 2, GROUPS, NEEDED, false),
        // As many groups are left as a turn works out, besides the one that is touched.
        Trial::WorksOutAsked => work_out(rt, &desk, GROUPS, GROUPS - A_TURN, BEGUN, false),
        Trial::EndsLull => work_out(rt, &desk, GROUPS / 2, GROUPS, BEGUN, true),
        Trial::ComesBack => come_back(rt, &desk),
        Trial::FirstAhead => end_last(rt, &desk, 0),
        Trial::SecondAhead => end_last(rt, &desk, 1),
        Trial::Outlived => {
            outlive(rt, desk, clients);
            return Ok(());
        }
    }
    desk.end(rt);
    Ok(())
}
