//! How an engine is made.
ghost use Rattle.std.specs.Prelude.{◌≡◌, ◌+◌, ◌<◌, ◌≤◌, [], ◌++◌, length, map, true, All, IfOk, IfErr, OnOk};
ghost use Rattle.std.specs.Arc.{arc_value};
ghost use Rattle.pgp_log.specs.Log.{is_legal};
ghost use Rattle.pgp_feed.specs.Receipts.{entries_of, feed_of};
ghost use Rattle.pgp_feed.specs.Feeds.{told_of};
ghost use Rattle.pgp_feed.specs.Taps.{last_of};
ghost use Rattle.pgp_feed.specs.declared.fault.MakeFault.TheVariants.{Memory};
ghost use Rattle.pgp_engine.specs.Clients.{IsNew};
ghost use Rattle.pgp_engine.specs.Fronts.{Names};

use super::Engine;
use super::bell::Bell;
use super::locked_shard::LockedShard;
use crate::client::Client;
use crate::intake::Intake;
use crate::naming::Naming;
use crate::shard::Shard;
use pgp_feed::{Feed, MakeFault, Receipt, Tap};
use pgp_ids::Entry;
use std::alloc::{AllocError, Global};
use std::sync::{Arc, Mutex, Wait};

/// This many shards, each with one of the taps, of which the others are left.
fn make_shards<J: Naming>(
    alloc: Global,
    taps: &mut Vec<Tap>,
    count: usize,
) -> Result<Vec<LockedShard<J>>, AllocError>
    requires enough { count ≤ length taps.old.items }
    requires feed { All (λ tap. feed_of (last_of tap) ≡ J.feed) taps.old.items }
    ensures count { IfOk result (λ all. length all.items ≡ count) }
    ensures left { OnOk result (length taps.new.items + count ≡ length taps.old.items) }
    ensures feed { All (λ tap. feed_of (last_of tap) ≡ J.feed) taps.new.items }
{
    let mut all = Vec::with_capacity(alloc, count)?;
    for shard in 0..count {
        let tap = taps.pop().unwrap();
        all.push(LockedShard::new(Shard::start(alloc, shard, count, tap)))?;
    }
    Ok(all)
}

/// A client for each of the taps.
fn make_clients<J: Naming>(alloc: Global, taps: Vec<Tap>) -> Result<Vec<Client<J>>, AllocError>
    requires { All (λ tap. feed_of (last_of tap) ≡ J.feed) taps.items }
    ensures count { IfOk result (λ clients. length clients.items ≡ length taps.items) }
    ensures empty { IfOk result (λ clients. All IsNew clients.items) }
{
    let mut taps = taps;
    let mut clients = Vec::with_capacity(alloc, taps.len())?;
    while let Some(tap) = taps.pop() {
        clients.push(Client::over(alloc, tap))?;
    }
    Ok(clients)
}

/// This many shards, a tap for the intake, and a client for each of the other taps.
fn parts<J: Naming>(
    alloc: Global,
    taps: Vec<Tap>,
    count: usize,
) -> Result<(Vec<LockedShard<J>>, Tap, Vec<Client<J>>), AllocError>
    requires enough { count < length taps.items }
    requires feed { All (λ tap. feed_of (last_of tap) ≡ J.feed) taps.items }
    ensures shards { IfOk result (λ made. length made.0.items ≡ count) }
    ensures tap { IfOk result (λ made. feed_of (last_of made.1) ≡ J.feed) }
    ensures clients { IfOk result (λ made. length made.2.items + count + 1 ≡ length taps.items) }
    ensures new { IfOk result (λ made. All IsNew made.2.items) }
{
    let mut taps = taps;
    let shards = make_shards(alloc, &mut taps, count)?;
    let tap = taps.pop().unwrap();
    let clients = make_clients(alloc, taps)?;
    Ok((shards, tap, clients))
}

/// Publishes these entries, which the log takes next, one after the other. Refused, it has published the first of them.
fn publish_all<R: Wait>(rt: &R, feed: &mut Feed, entries: &[Arc<Entry>]) -> Result<(), AllocError>
    requires { is_legal (entries_of (told_of feed.old) ++ map arc_value entries.now) ≡ true }
    ensures feed { feed_of (told_of feed.new) ≡ feed_of (told_of feed.old) }
    ensures log { OnOk result (entries_of (told_of feed.new) ≡ entries_of (told_of feed.old) ++ map arc_value entries.now) }
{
    for entry in entries {
        feed.publish_shared(rt, entry)?;
    }
    Ok(())
}

impl<J: Naming> Engine<J> {
    /// The engine over a feed in which nothing was published yet, with this many shards, to be served by this many workers, and
    /// a client for each tap that neither a shard nor the intake has, with the empty front. Refused, which is for `Memory`
    /// alone, the feed is given up. It waits for nobody: the handle is for the end of the feed, whose taps nobody reads by then.
    pub fn make<R: Wait>(
        rt: &R,
        alloc: Global,
        feed: Feed,
        taps: Vec<Tap>,
        shards: usize,
        workers: usize,
    ) -> Result<(Engine<J>, Vec<Client<J>>), MakeFault>
        requires feed { feed_of (told_of feed) ≡ J.feed }
        requires empty { entries_of (told_of feed) ≡ [] }
        requires taps { All (λ tap. feed_of (last_of tap) ≡ J.feed) taps.items }
        requires enough { (shards + 2 ≤ length taps.items) × (length taps.items ≤ shards + 65) }
        requires shards { (1 ≤ shards) × (shards ≤ 64) }
        requires workers { (1 ≤ workers) × (workers ≤ 64) }
        ensures sizes { IfOk result (λ made. made.0 ≡ record { shards = shards; workers = workers }) }
        ensures clients { IfOk result (λ made. length made.1.items + shards + 1 ≡ length taps.items) }
        ensures new { IfOk result (λ made. All IsNew made.1.items) }
        ensures err { IfErr result (λ fault. fault ≡ Memory) }
    {
        // Without an entry nothing is published, and so nothing waits.
        let (engine, clients, _) = Engine::over(rt, alloc, feed, taps, shards, workers, &[])?;
        Ok((engine, clients))
    }

    /// As [`Engine::make`], over these entries, which are a legal log: they are published first, and the receipt names the log
    /// that they make. So whoever hands it in is answered by a front that holds all of them. Each entry is shared with the
    /// caller. The intake has judged them already, where there was memory for it; shards and clients read them later. Each entry
    /// is a publish, which may wait.
    pub fn over<R: Wait>(
        rt: &R,
        alloc: Global,
        feed: Feed,
        taps: Vec<Tap>,
        shards: usize,
        workers: usize,
        entries: &[Arc<Entry>],
    ) -> Result<(Engine<J>, Vec<Client<J>>, Receipt), MakeFault>
        requires feed { feed_of (told_of feed) ≡ J.feed }
        requires empty { entries_of (told_of feed) ≡ [] }
        requires taps { All (λ tap. feed_of (last_of tap) ≡ J.feed) taps.items }
        requires enough { (shards + 2 ≤ length taps.items) × (length taps.items ≤ shards + 65) }
        requires shards { (1 ≤ shards) × (shards ≤ 64) }
        requires workers { (1 ≤ workers) × (workers ≤ 64) }
        requires legal { is_legal (map arc_value entries.now) ≡ true }
        ensures sizes { IfOk result (λ made. made.0 ≡ record { shards = shards; workers = workers }) }
        ensures clients { IfOk result (λ made. length made.1.items + shards + 1 ≡ length taps.items) }
        ensures new { IfOk result (λ made. All IsNew made.1.items) }
        ensures told { IfOk result (λ made. Names J.feed (map arc_value entries.now) made.2) }
        ensures err { IfErr result (λ fault. fault ≡ Memory) }
    {
        let mut feed = feed;
        let Ok(()) = publish_all(rt, &mut feed, entries) else {
            feed.give_up(rt);
            return Err(MakeFault::Memory);
        };
        let Ok((shards, tap, clients)) = parts(alloc, taps, shards) else {
            feed.give_up(rt);
            return Err(MakeFault::Memory);
        };
        let told = feed.told();
        let engine = Engine {
            intake: Mutex::new(Intake::start(alloc, feed, tap)),
            bell: Bell::new(),
            shards,
            workers,
        };
        Ok((engine, clients, told))
    }
}
