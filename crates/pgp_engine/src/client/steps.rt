//! What a client answers.
ghost use Rattle.std.specs.Prelude.{◌≡◌, ◌≤◌, ◌⊎◌, length, None, Some, Err, IfOk, OnOk};
ghost use Rattle.std.specs.Ordering.{nat_cmp};
ghost use Rattle.pgp_map.specs.Pools.{pool};
ghost use Rattle.pgp_group.specs.Entries.{incs_of};
ghost use Rattle.pgp_log.specs.Log.{epoch_of, IsFrontOf};
ghost use Rattle.pgp_log.specs.Locate.{place_of_object, place_with};
ghost use Rattle.pgp_feed.specs.Receipts.{entries_of, feed_of, Holds};
ghost use Rattle.pgp_feed.specs.Taps.{last_of};
ghost use Rattle.pgp_feed.specs.declared.receipt.Receipt.{Receipt as AnyReceipt};
ghost use Rattle.pgp_engine.specs.Clients.{HasToChart, IsNew};
ghost use Rattle.pgp_engine.specs.declared.client.fault.LocateFault.TheVariants.{UnknownPool, Memory, NoReader};

use super::Client;
use super::chart::Chart;
use super::fault::LocateFault;
use crate::answer::Place;
use crate::entry_buffer::EntryBuffer;
use crate::naming::Naming;
use pgp_feed::{Receipt, Tap};
use pgp_ids::{ObjectName, PoolId};
use std::alloc::Global;
use std::cmp::Ordering;
use std::marker::PhantomData;

impl<J: Naming> Client<J> {
    /// A client over a tap of the feed, with the empty front. It takes no memory.
    pub(crate) fn over(alloc: Global, mut tap: Tap) -> Self
        requires { feed_of (last_of tap) ≡ J.feed }
        ensures feed { feed_of result.front ≡ J.feed }
        ensures empty { IsNew result }
    {
        let front = tap.newest().front(0);
        Client {
            tap,
            front,
            chart: Chart::empty(alloc),
            buffer: EntryBuffer::new(alloc),
            of: PhantomData,
        }
    }

    /// Moves the front on to the newest of the log, and names it. Where no copy of the log is lent, it stays.
    pub fn newest(&mut self) -> Receipt
        ensures front { result ≡ self.new.front }
        ensures feed { feed_of result ≡ J.feed }
        ensures later { Holds self.new.front self.old.front }
        ensures charted { self.new.charted ≡ self.old.charted }
    {
        let newest = self.tap.newest();
        self.learn(&newest);
        self.front.again()
    }

    /// Moves the front on to that of a receipt of the feed, if that is longer.
    pub fn learn(&mut self, receipt: &Receipt)
        requires { feed_of receipt.now ≡ J.feed }
        ensures learnt { Holds self.new.front receipt.now }
        ensures later { Holds self.new.front self.old.front }
        ensures one { (self.new.front ≡ receipt.now) ⊎ (self.new.front ≡ self.old.front) }
        ensures charted { self.new.charted ≡ self.old.charted }
    {
        if !self.front.holds(receipt) {
            self.front = receipt.again();
        }
    }

    /// Which of two receipts of the feed is longer. The shorter names a front of the longer.
    pub fn meet(&mut self, a: &Receipt, b: &Receipt) -> Ordering
        requires feed { (feed_of a.now ≡ J.feed) × (feed_of b.now ≡ J.feed) }
        ensures order { result ≡ nat_cmp (length (entries_of a.now)) (length (entries_of b.now)) }
        ensures first { length (entries_of a.now) ≤ length (entries_of b.now) → IsFrontOf (entries_of a.now) (entries_of b.now) }
        ensures second { length (entries_of b.now) ≤ length (entries_of a.now) → IsFrontOf (entries_of b.now) (entries_of a.now) }
        ensures same { self.new ≡ self.old }
    {
        self.tap.meet(a, b)
    }

    /// Where the object of this name lies by the newest front, to which the client's moves on. `UnknownPool`: that front makes
    /// no such pool. `Memory` and `NoReader`: the chart lacked some of that front. Each other answer leaves it with all of it.
    #[tactic(auto, using(crate::proofs::FollowerLemmas::charted_less))]
    pub fn locate(&mut self, id: PoolId, name: &ObjectName) -> Result<Place, LocateFault>
        ensures feed { feed_of self.new.front ≡ J.feed }
        ensures later { Holds self.new.front self.old.front }
        ensures placed { IfOk result (λ place. (place.at ≡ self.new.front)
            × (place_of_object (incs_of (entries_of self.new.front)) id name.now ≡ Some (place_with place.pg place.members))) }
        ensures epoch { IfOk result (λ place. place.epoch ≡ epoch_of (entries_of self.new.front)) }
        ensures unknown { (at : AnyReceipt) → result ≡ Err (UnknownPool at)
            → (at ≡ self.new.front) × (pool (incs_of (entries_of self.new.front)) id ≡ None) }
        ensures charted { OnOk result (self.new.charted ≡ length (entries_of self.new.front)) }
        ensures charted_too { (at : AnyReceipt) → result ≡ Err (UnknownPool at) → self.new.charted ≡ length (entries_of self.new.front) }
        ensures reads { result ≡ Err NoReader → HasToChart self.old self.new.front }
        ensures wants { result ≡ Err Memory → HasToChart self.old self.new.front }
    {
        let at = self.newest();
        self.buffer.bring(&mut self.chart, &mut self.tap, &at)?;
        self.chart.locate(at, id, name)
    }
}
