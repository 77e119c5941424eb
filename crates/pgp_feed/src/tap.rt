//! One reader of the feed, and what it answers.
ghost use Rattle.std.specs.Prelude.{◌≡◌, ◌≤◌, Some, drop, length, option_map, MatchResult, IfErr};
ghost use Rattle.std.specs.Ordering.{nat_cmp};
ghost use Rattle.left_right.specs.Sides.{view};
ghost use Rattle.pgp_log.specs.Log.{IsFrontOf};
ghost use Rattle.pgp_feed.specs.Receipts.{entries_of, feed_of, Holds};
ghost use Rattle.pgp_feed.specs.kept.Seats.{Knows};
ghost use Rattle.pgp_feed.specs.Appends.{Appends};
ghost use Rattle.pgp_feed.specs.ReadFaults.{IsTapFault};

use crate::fault::ReadFault;
use crate::receipt::Receipt;
use crate::rule::{OneLog, Sees, View};
use crate::store::Store;
use left_right::reader::Reader;
use pgp_ids::Entry;
use std::cmp::Ordering;
use std::sync::Arc;

pub(crate) type LogReader = Reader<Store, View, OneLog>;

/// It reads the feed, and waits for nobody.
pub struct Tap {
    // It is there between any two calls.
    reader: Option<LogReader>,
    last: Receipt,
    ghost knows: { Knows reader (feed_of last) },
}

// Written out, so that a crate which lets one go has nothing to prove of what lies within.
impl Drop for Tap {
    fn drop(self) {
        let Tap { reader: _, last: _ } = self;
    }
}

impl Tap {
    ghost use Rattle.pgp_feed.specs.Taps.{last_of};

    /// A tap over a reader that has seen what was told.
    pub(crate) fn over(reader: LogReader, last: Receipt) -> Tap
        requires { option_map feed_of (view reader.place) ≡ Some (feed_of last) }
        ensures { last_of result ≡ last }
    {
        Tap {
            reader: Some(reader),
            last,
        }
    }

    /// The newest front. It holds all that this tap gave or read before; where no copy is lent, it is the last of these.
    pub fn newest(&mut self) -> Receipt
        ensures last { result ≡ last_of self.new }
        ensures later { Holds result (last_of self.old) }
    {
        let reader = self.reader.take().unwrap();
        match reader.enter_as::<Sees>() {
            Ok(reading) => {
                self.last = self.last.longer(&reading.get().told);
                self.reader = Some(reading.leave());
            }
            Err(reader) => self.reader = Some(reader),
        }
        self.last.again()
    }

    /// Which of two receipts of the feed is longer. The shorter names a front of the longer.
    pub fn meet(&mut self, a: &Receipt, b: &Receipt) -> Ordering
        requires feed { (feed_of a.now ≡ feed_of (last_of self.old)) × (feed_of b.now ≡ feed_of (last_of self.old)) }
        ensures order { result ≡ nat_cmp (length (entries_of a.now)) (length (entries_of b.now)) }
        ensures first { length (entries_of a.now) ≤ length (entries_of b.now) → IsFrontOf (entries_of a.now) (entries_of b.now) }
        ensures second { length (entries_of b.now) ≤ length (entries_of a.now) → IsFrontOf (entries_of b.now) (entries_of a.now) }
        ensures same { last_of self.new ≡ last_of self.old }
    {
        a.meet(b)
    }

    /// Appends the entries of a receipt's front from a place on. Refused, the list is as before: by `Memory` where it finds
    /// no room for them, or an entry can have no more owners; by `NoReader` where no copy is lent that reaches the front. The
    /// room is made before a copy is lent, so that a publish waits for no more than the clones.
    pub fn read(
        &mut self,
        receipt: &Receipt,
        at: usize,
        into: &mut Vec<Arc<Entry>>,
    ) -> Result<(), ReadFault>
        requires feed { feed_of receipt.now ≡ feed_of (last_of self.old) }
        requires at { at ≤ length (entries_of receipt.now) }
        ensures later { Holds (last_of self.new) (last_of self.old) }
        ensures refused { IfErr result (IsTapFault at receipt.now (last_of self.old) (last_of self.new)) }
        ensures read { MatchResult result (λ _. Appends into.old.items into.new.items (drop at (entries_of receipt.now)) × Holds (last_of self.new) receipt.now) (λ _. into.new.items ≡ into.old.items) }
    {
        if into.reserve(receipt.len() - at).is_err() {
            return Err(ReadFault::Memory);
        }
        let reader = self.reader.take().unwrap();
        match reader.enter_as::<Sees>() {
            Ok(reading) => {
                let store = reading.get();
                let read = store.read(receipt, at, into);
                self.last = self.last.longer(&store.told);
                self.reader = Some(reading.leave());
                read
            }
            Err(reader) => {
                self.reader = Some(reader);
                Err(ReadFault::NoReader)
            }
        }
    }
}
