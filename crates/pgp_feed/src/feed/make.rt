//! How a feed is made.
ghost use Rattle.std.specs.Prelude.{◌≡◌, ◌≤◌, [], Some, drop, length, vec_capacity, All, IfOk, IfErr, IfSome, IsErr, OnErr, MatchResult};
ghost use Rattle.pgp_feed.specs.Receipts.{entries_of};
ghost use Rattle.left_right.specs.Sides.{view};
ghost use Rattle.pgp_feed.specs.Feeds.{told_of};
ghost use Rattle.pgp_feed.specs.kept.Puts.{IsPut};
ghost use Rattle.pgp_feed.specs.Taps.{last_of};
ghost use Rattle.pgp_feed.specs.kept.Supplies.{IsSupplied};
ghost use Rattle.pgp_feed.specs.declared.fault.MakeFault.TheVariants.{Memory, NoReader};

use super::warm::warmed;
use super::{Feed, LogWriter, try_publish};
use crate::fault::MakeFault;
use crate::receipt::Receipt;
use crate::rule::Tells;
use crate::store::Store;
use crate::tap::Tap;
use pgp_log::LONGEST_LOG;
use std::alloc::{AllocError, Global};
use std::sync::Wait;

// A copy of the empty log, with room for the longest.
fn empty_store(alloc: Global, told: &Receipt) -> Result<Store, AllocError>
    ensures { IfOk result (λ store. (store.told ≡ told.now) × (store.entries.items ≡ [])) }
{
    Ok(Store {
        entries: Vec::with_capacity(alloc, LONGEST_LOG + 1)?,
        told: told.again(),
    })
}

// The writer of two such copies.
fn empty_writer(alloc: Global, told: &Receipt, readers: usize) -> Result<LogWriter, AllocError>
    requires readers { (1 ≤ readers) × (readers ≤ 129) }
    requires empty { entries_of told.now ≡ [] }
    ensures { IfOk result (λ writer. (writer.desk.shown.value.told ≡ told.now) × (drop writer.behind writer.log.items ≡ [])) }
{
    let first = empty_store(alloc, told)?;
    let second = empty_store(alloc, told)?;
    LogWriter::new(alloc, first, second, readers)
}

// The writer, once it has shown what is queued. It is tried once; refused, the writer is ended.
fn shown<R: Wait>(rt: &R, writer: LogWriter, told: &Receipt) -> Result<LogWriter, AllocError>
    requires { IsPut writer.desk.shown.value.told told.now (drop writer.behind writer.log.items) }
    ensures told { IfOk result (λ shown. shown.desk.shown.value.told ≡ told.now) }
    ensures seen { IfOk result (λ shown. view shown.desk.place ≡ Some told.now) }
    ensures settled { IfOk result (λ shown. drop shown.behind shown.log.items ≡ []) }
{
    match try_publish(rt, writer, told) {
        Ok(shown) => Ok(shown),
        Err(back) => {
            back.take(rt);
            Err(AllocError)
        }
    }
}

impl Feed {
    // All that takes memory: a feed without taps, and a list with room for this many. The writer's own view names the feed, so it
    // publishes the empty log. All is tried once.
    fn without_taps<R: Wait>(
        rt: &R,
        alloc: Global,
        taps: usize,
    ) -> Result<(Feed, Vec<Tap>), AllocError>
        requires { (1 ≤ taps) × (taps ≤ 129) }
        ensures { IfOk result (λ made. IsSupplied made.0 made.1 taps) }
    {
        let list = Vec::with_capacity(alloc, taps)?;
        let (word, turns, told) = Receipt::open();
        let Some(turn) = told.turn(&turns) else {
            return Err(AllocError);
        };
        let writer = empty_writer(alloc, &told, taps)?;
        let (writer, warm) = warmed(rt, writer)?;
        // The first publish shows the two, the second empties the queue.
        let writer = shown(rt, shown(rt, writer, &told)?, &told)?;
        let feed = Feed {
            word,
            turns,
            turn,
            told,
            writer,
            warm,
        };
        Ok((feed, list))
    }

    // As many taps as are asked for, in a list with room for them; each has seen what was told. `None`: one of them wasn't given
    // a reader's place.
    fn taps(&mut self, list: Vec<Tap>, count: usize) -> Option<Vec<Tap>>
        requires { (list.items ≡ []) × (count ≤ vec_capacity list) }
        ensures told { told_of self.new ≡ told_of self.old }
        ensures count { IfSome result (λ taps. length taps.items ≡ count) }
        ensures each { IfSome result (λ taps. All (λ tap. last_of tap ≡ told_of self.old) taps.items) }
    {
        let mut taps = list;
        while taps.len() < count {
            let Ok(mut reader) = self.writer.factory().reader() else {
                return None;
            };
            reader.learn::<Tells>(self.writer.tell::<Tells>());
            taps.push(Tap::over(reader, self.told.again())).unwrap();
        }
        Some(taps)
    }

    // What was supplied, with its taps: refused by `Memory` where nothing was, and else by `NoReader` alone.
    fn with_taps<R: Wait>(
        rt: &R,
        supplied: Result<(Feed, Vec<Tap>), AllocError>,
        taps: usize,
    ) -> Result<(Feed, Vec<Tap>), MakeFault>
        requires { IfOk supplied (λ made. IsSupplied made.0 made.1 taps) }
        ensures memory { OnErr supplied (IsErr result) }
        ensures fault { IfErr result (λ fault. MatchResult supplied (λ _. fault ≡ NoReader) (λ _. fault ≡ Memory)) }
        ensures empty { IfOk result (λ made. entries_of (told_of made.0) ≡ []) }
        ensures taps { IfOk result (λ made. length made.1.items ≡ taps) }
        ensures each { IfOk result (λ made. All (λ tap. last_of tap ≡ told_of made.0) made.1.items) }
    {
        let Ok((mut feed, list)) = supplied else {
            return Err(MakeFault::Memory);
        };
        match feed.taps(list, taps) {
            Some(made) => Ok((feed, made)),
            None => {
                feed.give_up(rt);
                Err(MakeFault::NoReader)
            }
        }
    }

    /// A feed with an empty log, and this many taps, each with the empty front. Both copies have room for the longest log.
    /// Refused by `Memory` where there is no memory for the copies, the writer's queue, the readers' places or the list of
    /// taps; with all of these, by `NoReader` where a tap isn't given its place. It tries each step once, and waits for nobody:
    /// the handle is for the writer of the copies, which waits for readers, and nobody reads yet.
    pub fn make<R: Wait>(rt: &R, alloc: Global, taps: usize) -> Result<(Feed, Vec<Tap>), MakeFault>
        requires { (1 ≤ taps) × (taps ≤ 129) }
        ensures empty { IfOk result (λ made. entries_of (told_of made.0) ≡ []) }
        ensures taps { IfOk result (λ made. length made.1.items ≡ taps) }
        ensures each { IfOk result (λ made. All (λ tap. last_of tap ≡ told_of made.0) made.1.items) }
    {
        Feed::with_taps(rt, Feed::without_taps(rt, alloc, taps), taps)
    }
}
