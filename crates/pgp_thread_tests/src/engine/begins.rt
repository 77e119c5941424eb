//! An engine and a world that begin with a log, and a feed with as many taps as there may be.
ghost use Rattle.std.specs.Prelude.{◌≡◌, [], length, map, true, All};
ghost use Rattle.std.specs.Arc.{arc_value};
ghost use Rattle.pgp_log.specs.Log.{is_legal};
ghost use Rattle.pgp_feed.specs.Feeds.{told_of};
ghost use Rattle.pgp_feed.specs.Receipts.{entries_of, feed_of};
ghost use Rattle.pgp_feed.specs.Taps.{last_of};
ghost use Rattle.pgp_thread_tests.specs.declared.engine.opened.TheConstants.{TAPS};

use crate::count::is_count;
use crate::engine::desk::Desk;
use crate::engine::lines::{EMPTY_0, TO_SERVE, given, group};
use crate::engine::opened::{Host, SHARDS, TAPS};
use pgp_engine::{Engine, Naming};
use pgp_feed::{Feed, Tap};
use pgp_ids::Entry;
use pgp_log::JudgedLog;
use pgp_shard::World;
use std::marker::Brand;
use std::sync::Arc;
use std::test::Fail;

#[test]
fn an_engine_begins_with_a_log(rt: HostRuntime) -> Result<(), Fail> {
    let mut log = JudgedLog::new(rt.alloc());
    for line in &TO_SERVE {
        let entry = given(&rt, line);
        log.fits(&entry)?;
        log.take(entry)?;
    }
    let mut world = World::over(rt.alloc(), SHARDS, log.entries())?;
    world.absorb(1, log.len())?;
    is_count(&rt, world.ask(group())?.count, log.len());
    is_count(
        &rt,
        World::start(rt.alloc(), SHARDS)?.submit(given(&rt, TO_SERVE[0]))?,
        1,
    );
    let first = log.entries().first().expect(&rt, "an entry");
    let mut owners = Vec::new(rt.alloc());
    for _ in 0..5 {
        owners.push(Arc::try_clone(first)?)?;
    }
    let (feed, taps) = Feed::make(&rt, rt.alloc(), TAPS)?;
    begun_with::<Brand, _>(&rt, feed, taps, log.entries())
}

// The engine answers as if the entries had been submitted, also where one has many owners, and takes what follows.
fn begun_with<J: Naming, R: Host>(
    rt: &R,
    feed: Feed,
    taps: Vec<Tap>,
    entries: &[Arc<Entry>],
) -> Result<(), Fail>
    requires feed { feed_of (told_of feed) ≡ J.feed }
    requires empty { entries_of (told_of feed) ≡ [] }
    requires each { All (λ tap. last_of tap ≡ told_of feed) taps.items }
    requires count { length taps.items ≡ TAPS }
    requires legal { is_legal (map arc_value entries.now) ≡ true }
{
    let (engine, mut clients, _told) = Engine::<J>::over(
        rt,
        rt.alloc(),
        feed,
        taps,
        SHARDS,
        SHARDS,
        entries,
    )?;
    let desk = Desk {
        engine,
        workers: SHARDS,
    };
    is_count(rt, desk.ask(rt), entries.len());
    let count = desk.put(rt, EMPTY_0);
    is_count(rt, desk.ask(rt), count);
    let mut client = clients.pop().expect(rt, "a client");
    is_count(rt, client.newest().len(), count);
    desk.end(rt);
    Ok(())
}

#[test]
fn a_feed_has_as_many_taps_as_there_may_be(rt: HostRuntime) -> Result<(), Fail> {
    let (feed, taps) = Feed::make(&rt, rt.alloc(), 129)?;
    is_count(&rt, taps.len(), 129);
    feed.give_up(&rt);
    Ok(())
}
