//! Where entries come in: the one writer of the log, and the judge of what the log takes next.
use crate::entry_buffer::EntryBuffer;
use crate::naming::Naming;
use pgp_feed::{Feed, Tap};
use pgp_log::Judge;
use std::alloc::Global;
use std::marker::{Model, PhantomData};

mod judging;
mod steps;

/// It judges an entry by the whole log and publishes it. Contracts see the log that was told so far, and how much of it the judge
/// has taken: where it lacked memory after a publish, the next submit has it take the rest, so that nothing that was published is
/// given up.
pub struct Intake<J: Naming> {
    alloc: Global,
    feed: Feed,
    tap: Tap,
    judge: Judge,
    // Where what the judge has to take is read to.
    buffer: EntryBuffer,
    of: PhantomData<J>,
}

impl<J: Naming> Model for Intake<J> {
    ghost use Rattle.pgp_feed.specs.Receipts.{entries_of};
    ghost use Rattle.pgp_feed.specs.Feeds.{told_of};
    ghost use Rattle.pgp_feed.specs.Taps.{last_of};
    ghost use Rattle.pgp_engine.specs.Intakes.{ToldLog};
    ghost use Rattle.pgp_engine.specs.kept.Members.{IsIntake};

    ghost Value = { ToldLog };

    ghost view = { λ i. record { log = entries_of (told_of i.feed); judged = i.judge.count } };

    ghost invariant = { λ i. IsIntake J.feed (told_of i.feed) (last_of i.tap) i.judge };
}
