//! That a feed without memory for a call says what it said before, and that the call can be made again. For
//! `dev/refuse_in_tests.py`; in the gate no allocation is refused.
ghost use Rattle.std.specs.Prelude.{◌≡◌, []};
ghost use Rattle.pgp_log.specs.Judge.{IsJudgeOf};
ghost use Rattle.pgp_feed.specs.Feeds.{told_of};
ghost use Rattle.pgp_feed.specs.Receipts.{entries_of, feed_of};
ghost use Rattle.pgp_feed.specs.Taps.{last_of};

use crate::count::is_count;
use pgp_feed::{Feed, ReadFault, Tap};
use pgp_fixtures::{TO_SERVE, entry};
use pgp_ids::Entry;
use pgp_log::Judge;
use std::alloc::Global;
use std::process::Abort;
use std::sync::{Arc, Wait};

/// A feed, its only tap, and the judge of what was published.
struct Press {
    feed: Feed,
    tap: Tap,
    judge: Judge,
    ghost judges: { IsJudgeOf (entries_of (told_of feed)) judge },
    ghost of_feed: { feed_of (last_of tap) ≡ feed_of (told_of feed) },
}

impl Press {
    #[tactic(auto, using(crate::proofs::JudgeLemmas::judge_at_start))]
    fn over(alloc: Global, feed: Feed, tap: Tap) -> Press
        requires empty { entries_of (told_of feed) ≡ [] }
        requires of_feed { feed_of (last_of tap) ≡ feed_of (told_of feed) }
    {
        Press {
            feed,
            tap,
            judge: Judge::start(alloc),
        }
    }

    /// Publishes the entry that the line is. `None`: there was no memory.
    fn put<R: Wait + Abort + AllocGlobal>(&mut self, rt: &R, line: &str) -> Option<()> {
        let entry = Arc::new(rt.alloc(), entry(rt.alloc(), line)?).ok()?;
        let Ok(()) = self.judge.fits(&entry) else {
            return None;
        };
        let Ok(()) = self.judge.take(&entry) else {
            return None;
        };
        let told = self.feed.publish(rt, entry);
        assert!(rt; told.is_ok(), "a publish takes no memory");
        Some(())
    }

    /// Has the tap read what is new.
    fn read_on(&mut self, seen: &mut Vec<Arc<Entry>>) -> Result<(), ReadFault> {
        let newest = self.tap.newest();
        let at = seen.len().min(newest.len());
        self.tap.read(&newest, at, seen)
    }

    /// It has told as many entries, and its tap has seen these.
    fn has_told<R: Abort>(&mut self, rt: &R, told: usize) {
        is_count(rt, self.feed.told().len(), told);
        is_count(rt, self.tap.newest().len(), told);
    }
}

fn made<R: Wait + Abort + AllocGlobal>(rt: &R) -> Press {
    for _ in 0..2 {
        if let Ok((feed, mut taps)) = Feed::make(rt, rt.alloc(), 1) {
            let tap = taps.pop().expect(rt, "a tap");
            return Press::over(rt.alloc(), feed, tap);
        }
    }
    panic!(rt; "a feed is made at the second try")
}

/// Each entry is published, and read by the tap. Of all allocations one may be refused.
#[test]
fn each_call_of_a_feed_can_be_made_again(rt: HostRuntime) {
    let mut press = made(&rt);
    let mut seen = Vec::new(rt.alloc());
    for told in 0..TO_SERVE.len() {
        let line = TO_SERVE[told];
        if press.put(&rt, line).is_none() {
            press.has_told(&rt, told);
            press
                .put(&rt, line)
                .expect(&rt, "published at the second try");
        }
        if let Err(fault) = press.read_on(&mut seen) {
            assert_eq!(rt; fault, ReadFault::Memory);
            is_count(&rt, seen.len(), told);
            press
                .read_on(&mut seen)
                .ok()
                .expect(&rt, "read at the second try");
        }
        press.has_told(&rt, told + 1);
        is_count(&rt, seen.len(), told + 1);
    }
    let Press {
        feed,
        tap: _,
        judge: _,
    } = press;
    feed.give_up(&rt);
}
