//! How the judge of an intake keeps up with the log, and what it says of the next entry.
ghost use Rattle.std.specs.Prelude.{◌≡◌, ◌≢◌, ◌<◌, ◌≤◌, ◌⊎◌, [], ◌∷◌, ◌++◌, length, None, Err, IfErr, OnOk, OnErr, MatchResult};
ghost use Rattle.pgp_log.specs.Fits.{fits};
ghost use Rattle.pgp_log.specs.Judge.{IsJudgeOf, MapMayLack};
ghost use Rattle.pgp_ids.specs.declared.refusal.Refusal.{Refusal as AnyRefusal};
ghost use Rattle.pgp_feed.specs.declared.receipt.Receipt.{Receipt as AnyReceipt};
ghost use Rattle.pgp_feed.specs.Receipts.{entries_of, feed_of};
ghost use Rattle.pgp_feed.specs.Feeds.{told_of};
ghost use Rattle.pgp_feed.specs.Taps.{last_of};
ghost use Rattle.pgp_engine.specs.Faults.{refused_at};
ghost use Rattle.pgp_engine.specs.kept.Members.{Follows};
ghost use Rattle.pgp_engine.specs.Intakes.{MayRefuse};
ghost use Rattle.pgp_engine.specs.declared.fault.SubmitFault.TheVariants as submit;

use crate::entry_buffer::EntryBuffer;
use crate::fault::SubmitFault;
use crate::follower::Follower;
use pgp_feed::{Feed, Receipt, Tap};
use pgp_ids::{Entry, Refusal};
use pgp_log::Judge;
use std::alloc::{AllocError, Global};
use std::sync::{Arc, Wait};

impl Follower for Judge {
    ghost has_taken = { IsJudgeOf };

    ghost numbers = { λ _. [] };

    fn taken(&self) -> usize {
        self.count()
    }

    fn take_next(&mut self, entry: &Arc<Entry>) -> Result<(), AllocError> {
        self.take(entry)
    }
}

/// Has the judge take what it hasn't yet of what was told.
#[tactic(auto, using(crate::proofs::JudgeLemmas::judged_less))]
pub(super) fn catch_up(
    judge: &mut Judge,
    told: &Receipt,
    tap: &mut Tap,
    buffer: &mut EntryBuffer,
) -> Result<(), SubmitFault>
    requires feed { feed_of told.now ≡ feed_of (last_of tap.old) }
    requires follows { Follows (entries_of told.now) judge.old }
    ensures ok { OnOk result (IsJudgeOf (entries_of told.now) judge.new) }
    ensures follows { Follows (entries_of told.now) judge.new }
    ensures feed { feed_of (last_of tap.new) ≡ feed_of (last_of tap.old) }
    ensures err { IfErr result (λ fault. refused_at fault ≡ None) }
    ensures reads { OnErr result (judge.old.count < length (entries_of told.now)) }
{
    buffer.bring(judge, tap, told)?;
    Ok(())
}

/// Why the told log doesn't take the entry, if it doesn't.
fn fits(judge: &Judge, told: &Receipt, entry: &Entry) -> Result<(), SubmitFault>
    requires { IsJudgeOf (entries_of told.now) judge.now }
    ensures fit { MatchResult result (λ _. fits (entries_of told.now) entry.now ≡ None) (MayRefuse (feed_of told.now) (entries_of told.now) entry.now) }
    ensures reads { result ≢ Err submit.NoReader }
    ensures wants { result ≡ Err submit.Memory → MapMayLack (entries_of told.now) entry.now }
{
    match judge.fits(entry) {
        Ok(()) => Ok(()),
        Err(Refusal::Memory) => Err(SubmitFault::Memory),
        Err(why) => Err(SubmitFault::Refused {
            why,
            at: told.again(),
        }),
    }
}

/// Why the whole log that was told doesn't take the entry, if it doesn't. First the judge takes what it lacks of that log;
/// after a fault in that it has taken a front of it.
pub(super) fn judge_next(
    judge: &mut Judge,
    feed: &Feed,
    tap: &mut Tap,
    buffer: &mut EntryBuffer,
    entry: &Entry,
) -> Result<(), SubmitFault>
    requires feed { feed_of (told_of feed.now) ≡ feed_of (last_of tap.old) }
    requires follows { Follows (entries_of (told_of feed.now)) judge.old }
    ensures ok { OnOk result (IsJudgeOf (entries_of (told_of feed.now)) judge.new) }
    ensures fit { MatchResult result (λ _. fits (entries_of (told_of feed.now)) entry.now ≡ None) (MayRefuse (feed_of (told_of feed.now)) (entries_of (told_of feed.now)) entry.now) }
    ensures follows { Follows (entries_of (told_of feed.now)) judge.new }
    ensures feed { feed_of (last_of tap.new) ≡ feed_of (last_of tap.old) }
    ensures reads { result ≡ Err submit.NoReader → judge.old.count < length (entries_of (told_of feed.now)) }
    ensures wants { result ≡ Err submit.Memory → (judge.old.count < length (entries_of (told_of feed.now))) ⊎ MapMayLack (entries_of (told_of feed.now)) entry.now }
    ensures judged { OnOk result (judge.new.count ≡ length (entries_of (told_of feed.now))) }
    ensures judged_too { (why : AnyRefusal) (at : AnyReceipt) → result ≡ Err (submit.Refused why at) → judge.new.count ≡ length (entries_of (told_of feed.now)) }
{
    let told = feed.told();
    catch_up(judge, &told, tap, buffer)?;
    fits(judge, &told, entry)
}

/// Publishes an entry that fits, and has the judge take it. The judge needs no memory to be there: it may take the entry
/// later.
#[tactic(auto, using(crate::proofs::JudgeLemmas::follows_log))]
pub(super) fn publish<R: Wait>(
    rt: &R,
    alloc: Global,
    feed: &mut Feed,
    judge: &mut Judge,
    entry: Entry,
) -> Result<Receipt, SubmitFault>
    requires judge { IsJudgeOf (entries_of (told_of feed.old)) judge.old }
    requires fit { fits (entries_of (told_of feed.old)) entry ≡ None }
    ensures feed { feed_of (told_of feed.new) ≡ feed_of (told_of feed.old) }
    ensures published { MatchResult result (λ r. (r ≡ told_of feed.new) × (entries_of r ≡ entries_of (told_of feed.old) ++ entry ∷ [])) (λ fault. (fault ≡ submit.Memory) × (told_of feed.new ≡ told_of feed.old)) }
    ensures follows { Follows (entries_of (told_of feed.new)) judge.new }
    ensures judged { judge.old.count ≤ judge.new.count }
{
    let Ok(entry) = Arc::new(alloc, entry) else {
        return Err(SubmitFault::Memory);
    };
    let told = feed.publish_shared(rt, &entry)?;
    let _ = judge.take(&entry);
    Ok(told)
}
