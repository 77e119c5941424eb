//! The writer of the one log.
ghost use Rattle.std.specs.Prelude.{◌≡◌, [], ◌∷◌, ◌++◌, None, Some, drop, IfOk, MatchResult};
ghost use Rattle.std.specs.Arc.{arc_value};
ghost use Rattle.left_right.specs.Sides.{view};
ghost use Rattle.pgp_log.specs.Fits.{fits};
ghost use Rattle.pgp_feed.specs.Book.{length_word, turns_word};
ghost use Rattle.pgp_feed.specs.Receipts.{entries_of, feed_of, IsWhole};
ghost use Rattle.pgp_feed.specs.kept.Puts.{IsPut};
ghost use Rattle.pgp_feed.specs.Turns.{IsTurnAfter};

use crate::law::Number;
use crate::receipt::Receipt;
use crate::rule::{OneLog, Sees, View};
use crate::store::{Operation, Store};
use core::mem::{forget, replace_with};
use left_right::writer::Writer;
use logbook::Pen;
use pgp_ids::Entry;
use std::alloc::AllocError;
use std::sync::{Arc, Wait};
use warm::Warm;

mod make;
mod warm;

pub(crate) type LogWriter = Writer<Store, Operation, View, OneLog>;

/// The one log that is published. It is not `Drop`, since the writer of two copies waits for its readers as it is let go: end it
/// by `give_up`.
pub struct Feed {
    /// The length of the log.
    word: Number,
    /// How many turns were taken.
    turns: Number,
    /// The turn of the next entry. Without it the log doesn't grow, so it is what was told.
    turn: Pen,
    told: Receipt,
    writer: LogWriter,
    /// A publish finds room in the queue.
    warm: Warm,
    ghost word_is: { word ≡ length_word (feed_of told) },
    ghost turns_is: { turns ≡ turns_word (feed_of told) },
    ghost turn_is: { IsTurnAfter told turn },
    ghost whole: { IsWhole told },
    ghost shown: { writer.desk.shown.value.told ≡ told },
    ghost seen: { view writer.desk.place ≡ Some told },
    ghost settled: { drop writer.behind writer.log.items ≡ [] },
}

impl Feed {
    ghost use Rattle.pgp_feed.specs.Feeds.{told_of};

    /// The receipt of the whole log.
    pub fn told(&self) -> Receipt
        ensures { result ≡ told_of self.now }
    {
        self.told.again()
    }

    /// Adds an entry that the log takes next. It waits for the readers that still read the copy to be changed.
    /// Where the entry can have no more owners, which is at 2^63 of them, it comes back.
    pub fn publish<R: Wait>(&mut self, rt: &R, entry: Arc<Entry>) -> Result<Receipt, Arc<Entry>>
        requires { fits (entries_of (told_of self.old)) (arc_value entry) ≡ None }
        ensures feed { feed_of (told_of self.new) ≡ feed_of (told_of self.old) }
        ensures published { MatchResult result (λ receipt. (receipt ≡ told_of self.new) × (entries_of receipt ≡ entries_of (told_of self.old) ++ arc_value entry ∷ [])) (λ back. (back ≡ entry) × (told_of self.new ≡ told_of self.old)) }
    {
        match self.publish_shared(rt, &entry) {
            Ok(receipt) => Ok(receipt),
            Err(AllocError) => Err(entry),
        }
    }

    /// Adds an entry as [`Feed::publish`] does; the caller stays one of its owners. `Err`: the entry can have no more owners, and
    /// nothing was added.
    ///
    /// The exchange that adds it can't be undone. So the log's owner is made first, and what follows takes no memory and is tried
    /// until it succeeds.
    pub fn publish_shared<R: Wait>(
        &mut self,
        rt: &R,
        entry: &Arc<Entry>,
    ) -> Result<Receipt, AllocError>
        requires { fits (entries_of (told_of self.old)) (arc_value entry.now) ≡ None }
        ensures feed { feed_of (told_of self.new) ≡ feed_of (told_of self.old) }
        ensures published { MatchResult result (λ receipt. (receipt ≡ told_of self.new) × (entries_of receipt ≡ entries_of (told_of self.old) ++ arc_value entry.now ∷ [])) (λ _. told_of self.new ≡ told_of self.old) }
    {
        let copy = Arc::try_clone(entry)?;
        let told = self.told.grow(&self.word, &mut self.turn, entry);
        self.turn = next_turn(rt, &self.turns, &told);
        let operation = Operation::Put(copy, told.again());
        replace_with(
            &mut self.writer,
            operation,
            |writer: LogWriter, operation: Operation| -> (LogWriter, ())
                requires { (drop writer.behind writer.log.items ≡ []) × IsPut writer.desk.shown.value.told told (operation ∷ []) }
                ensures { (result.0.desk.shown.value.told ≡ told) × (view result.0.desk.place ≡ Some told) × (drop result.0.behind result.0.log.items ≡ []) }
            { (publish_queued(rt, queue(rt, writer, operation), &told), ()) },
        );
        self.told = told.again();
        Ok(told)
    }

    /// Ends the feed. Its taps find no copy from then on.
    pub fn give_up(self, rt: &impl Wait) {
        let _last = self.take(rt);
    }

    /// The same as the process ends: the last copy goes with the process, and not entry by entry.
    pub fn give_up_at_exit(self, rt: &impl Wait) {
        forget(self.take(rt));
    }

    // Ends the feed, and gives the copy that was shown.
    fn take(self, rt: &impl Wait) -> Box<Store> {
        let Self {
            word: _,
            turns: _,
            turn: _,
            told: _,
            writer,
            warm: _,
        } = self;
        writer.take(rt)
    }
}

// Takes the turn of the entry after those that were told. The writer alone takes turns, so the first try does.
fn next_turn<R: Wait>(rt: &R, turns: &Number, told: &Receipt) -> Pen
    requires { turns.now ≡ turns_word (feed_of told.now) }
    ensures { IsTurnAfter told.now result }
{
    for _ in rt.forever() {
        if let Some(turn) = told.turn(turns) {
            return turn;
        }
    }
    unreachable!()
}

// Keeps the operation until there is room for it. The queue is warm, so the first try does.
fn queue<R: Wait>(rt: &R, writer: LogWriter, operation: Operation) -> LogWriter
    requires { drop writer.behind writer.log.items ≡ [] }
    ensures desk { result.desk ≡ writer.desk }
    ensures queued { drop result.behind result.log.items ≡ operation ∷ [] }
{
    let mut writer = writer;
    let mut operation = operation;
    for _ in rt.forever() {
        match writer.append(operation) {
            Ok(()) => return writer,
            Err(back) => operation = back,
        }
    }
    unreachable!()
}

// Tries once to publish what is queued. Refused, it is queued as before.
pub(super) fn try_publish<R: Wait>(
    rt: &R,
    writer: LogWriter,
    told: &Receipt,
) -> Result<LogWriter, LogWriter>
    requires { IsPut writer.desk.shown.value.told told.now (drop writer.behind writer.log.items) }
    ensures told { MatchResult result (λ shown. shown.desk.shown.value.told ≡ told.now) (λ back. IsPut back.desk.shown.value.told told.now (drop back.behind back.log.items)) }
    ensures seen { IfOk result (λ shown. view shown.desk.place ≡ Some told.now) }
    ensures settled { IfOk result (λ shown. drop shown.behind shown.log.items ≡ []) }
{
    let (next, done) = writer.publish_as::<Sees, R>(rt);
    if done.is_ok() { Ok(next) } else { Err(next) }
}

// Publishes what is queued. Both copies have room for the longest log, so the first try does, unless an entry has too many
// owners.
fn publish_queued<R: Wait>(rt: &R, writer: LogWriter, told: &Receipt) -> LogWriter
    requires { IsPut writer.desk.shown.value.told told.now (drop writer.behind writer.log.items) }
    ensures told { result.desk.shown.value.told ≡ told.now }
    ensures seen { view result.desk.place ≡ Some told.now }
    ensures settled { drop result.behind result.log.items ≡ [] }
{
    let mut writer = writer;
    for _ in rt.forever() {
        match try_publish(rt, writer, told) {
            Ok(shown) => return shown,
            Err(back) => writer = back,
        }
    }
    unreachable!()
}
