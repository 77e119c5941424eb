//! What an intake does.
ghost use Rattle.std.specs.Prelude.{◌≡◌, ◌<◌, ◌≤◌, [], ◌∷◌, ◌++◌, length, Err, IfOk, OnOk, MatchBool, MatchResult};
ghost use Rattle.pgp_ids.specs.declared.refusal.Refusal.{Refusal};
ghost use Rattle.pgp_log.specs.Log.{epoch_of, IsFrontOf};
ghost use Rattle.pgp_feed.specs.declared.receipt.Receipt.{Receipt as AnyReceipt};
ghost use Rattle.pgp_feed.specs.Receipts.{entries_of, feed_of};
ghost use Rattle.pgp_feed.specs.Feeds.{told_of};
ghost use Rattle.pgp_feed.specs.Taps.{last_of};
ghost use Rattle.pgp_engine.specs.Fronts.{Names};
ghost use Rattle.pgp_engine.specs.Intakes.{HasToJudge, MayRefuse, MayWant};
ghost use Rattle.pgp_engine.specs.declared.fault.SubmitFault.TheVariants.{Refused, Memory, NoReader};

use super::Intake;
use super::judging::{catch_up, judge_next, publish};
use crate::answer::SubmitAnswer;
use crate::entry_buffer::EntryBuffer;
use crate::fault::SubmitFault;
use crate::naming::Naming;
use pgp_feed::{Feed, Receipt, Tap};
use pgp_ids::Entry;
use pgp_log::Judge;
use std::alloc::Global;
use std::marker::PhantomData;
use std::sync::Wait;

impl<J: Naming> Intake<J> {
    /// The intake over a feed and one of its taps. Its judge has taken what was told already, where there was memory for it and
    /// a copy to read.
    pub(crate) fn start(alloc: Global, feed: Feed, tap: Tap) -> Intake<J>
        requires feed { feed_of (told_of feed) ≡ J.feed }
        requires tap { feed_of (last_of tap) ≡ J.feed }
        ensures { result.log ≡ entries_of (told_of feed) }
    {
        let mut tap = tap;
        let mut judge = Judge::start(alloc);
        let mut buffer = EntryBuffer::new(alloc);
        let _ = catch_up(&mut judge, &feed.told(), &mut tap, &mut buffer);
        Intake {
            alloc,
            feed,
            tap,
            judge,
            buffer,
            of: PhantomData,
        }
    }

    /// The receipt of the whole log.
    pub fn receipt(&self) -> Receipt
        ensures { Names J.feed self.now.log result }
    {
        self.feed.told()
    }

    /// The log holds the front that a receipt of the same feed names.
    pub(crate) fn holds(&self, front: &Receipt) -> bool
        requires { feed_of front.now ≡ J.feed }
        ensures { MatchBool result (IsFrontOf (entries_of front.now) self.now.log) (length self.now.log < length (entries_of front.now)) }
    {
        self.feed.told().holds(front)
    }

    /// Publishes the entry, if the log takes it. `Refused`: the whole log that was told doesn't take it, and the receipt is
    /// of that log. `NoReader`: the judge had to take some of it. `Memory`: it had to, or the entry fits, or is an incremental at
    /// which the map may lack memory. Whatever the fault, nothing was published. Each other answer leaves the judge with the log
    /// that was told before.
    pub fn submit<R: Wait>(&mut self, rt: &R, entry: Entry) -> Result<Receipt, SubmitFault>
        ensures log { MatchResult result (λ _. self.new.log ≡ self.old.log ++ entry ∷ []) (λ _. self.new.log ≡ self.old.log) }
        ensures told { MatchResult result (Names J.feed self.new.log) (MayRefuse J.feed self.old.log entry) }
        ensures reads { result ≡ Err NoReader → HasToJudge self.old }
        ensures wants { result ≡ Err Memory → MayWant self.old entry }
        ensures judged { OnOk result (length self.old.log ≤ self.new.judged) }
        ensures judged_too { (why : Refusal) (at : AnyReceipt) → result ≡ Err (Refused why at) → length self.old.log ≤ self.new.judged }
    {
        Ok(self.submit_with_epoch(rt, entry)?.at)
    }

    /// As [`Intake::submit`], and answers the epoch of the map that the log makes with the entry too.
    pub fn submit_with_epoch<R: Wait>(
        &mut self,
        rt: &R,
        entry: Entry,
    ) -> Result<SubmitAnswer, SubmitFault>
        ensures log { MatchResult result (λ _. self.new.log ≡ self.old.log ++ entry ∷ []) (λ _. self.new.log ≡ self.old.log) }
        ensures told { MatchResult result (λ submitted. Names J.feed self.new.log submitted.at) (MayRefuse J.feed self.old.log entry) }
        ensures epoch { IfOk result (λ submitted. submitted.epoch ≡ epoch_of (entries_of submitted.at)) }
        ensures reads { result ≡ Err NoReader → HasToJudge self.old }
        ensures wants { result ≡ Err Memory → MayWant self.old entry }
        ensures judged { OnOk result (length self.old.log ≤ self.new.judged) }
        ensures judged_too { (why : Refusal) (at : AnyReceipt) → result ≡ Err (Refused why at) → length self.old.log ≤ self.new.judged }
    {
        judge_next(
            &mut self.judge,
            &self.feed,
            &mut self.tap,
            &mut self.buffer,
            &entry,
        )?;
        let epoch = self.judge.epoch_with(&entry);
        let at = publish(rt, self.alloc, &mut self.feed, &mut self.judge, entry)?;
        Ok(SubmitAnswer { at, epoch })
    }

    /// Its feed, to be ended.
    pub(crate) fn into_feed(self) -> Feed {
        let Intake {
            alloc: _,
            feed,
            tap: _,
            judge: _,
            buffer: _,
            of: _,
        } = self;
        feed
    }
}
