//! The name of a front of the one log.
ghost use Rattle.std.specs.Prelude.{◌≡◌, ◌+◌, ◌≤◌, nat_le, if◌then◌else◌, [], ◌∷◌, ◌++◌, None, length, true, IfSome, MatchBool};
ghost use Rattle.std.specs.Ordering.{nat_cmp};
ghost use Rattle.pgp_log.specs.Fits.{fits, longest_log};
ghost use Rattle.pgp_log.specs.Log.{is_legal, front, IsFrontOf};
ghost use Rattle.pgp_feed.specs.Book.{length_word, turns_word};

use crate::law::{Add, Knowledge, Law, Nothing, Number, Take};
use logbook::{Offer, Pen, Seen, Start, Word};
use pgp_ids::Entry;
use std::cmp::Ordering;

/// It names a front of the feed's log, for good. It is copied without memory.
pub struct Receipt {
    len: usize,
    seen: Knowledge,
    ghost within: { len ≤ length seen.log },
    ghost legal: { is_legal seen.log ≡ true },
}

// Written out, so that a crate which lets one go has nothing to prove of what lies within.
impl Drop for Receipt {
    fn drop(self) {
        let Receipt { len: _, seen: _ } = self;
    }
}

impl Receipt {
    ghost use Rattle.pgp_feed.specs.Receipts.{entries_of, feed_of, Holds, IsWhole};
    ghost use Rattle.pgp_feed.specs.Turns.{IsTurnAfter};

    /// A new log, which is empty: the word that has its length, the word that counts turns, and the receipt of the whole.
    pub(crate) fn open() -> (Number, Number, Receipt)
        ensures word { result.0 ≡ length_word (feed_of result.2) }
        ensures turns { result.1 ≡ turns_word (feed_of result.2) }
        ensures whole { IsWhole result.2 }
        ensures empty { entries_of result.2 ≡ [] }
    {
        let (seen, mut first, mut second) = Seen::open(Start::alone(), 0, 0);
        let word = Word::tracked(0, &mut first);
        let turns = Word::tracked(0, &mut second);
        (word, turns, Receipt { len: 0, seen })
    }

    /// Takes the turn of the entry that comes after those that this names. There is no answer where it was taken already.
    pub(crate) fn turn(&self, turns: &Number) -> Option<Pen>
        requires { turns.now ≡ turns_word (feed_of self.now) }
        ensures { IfSome result (IsTurnAfter self.now) }
    {
        let mut seen = self.seen.again();
        let mut offer: Offer<Entry, u64, Law, Nothing> = seen.plain::<Nothing, (), Take>(&());
        let mut pen = seen.no_pen();
        let len = self.len as u64;
        let found = turns.compare_exchange::<Take, Nothing>(
            len,
            len + 1,
            &mut seen,
            &mut offer,
            &mut pen,
        );
        if found != len {
            return None;
        }
        let _word: Number = Word::tracked(0, &mut pen);
        Some(pen)
    }

    /// Adds the entry to the log, of which this names the whole. That uses up the entry's turn.
    pub(crate) fn grow(&self, word: &Number, turn: &mut Pen, entry: &Entry) -> Receipt
        requires word { word.now ≡ length_word (feed_of self.now) }
        requires turn { IsTurnAfter self.now turn.old }
        requires whole { IsWhole self.now }
        requires fit { fits (entries_of self.now) entry.now ≡ None }
        ensures room { length (entries_of self.now) ≤ longest_log }
        ensures feed { feed_of result ≡ feed_of self.now }
        ensures whole { IsWhole result }
        ensures entries { entries_of result ≡ entries_of self.now ++ entry.now ∷ [] }
    {
        let mut seen = self.seen.again();
        let mut offer: Offer<Entry, u64, Law, Nothing> = seen.plain::<Nothing, Entry, Add>(entry);
        let len = self.len as u64;
        word.compare_exchange::<Add, Nothing>(len, len + 1, &mut seen, &mut offer, turn);
        Receipt {
            len: self.len + 1,
            seen,
        }
    }

    /// The number of entries of its front.
    pub fn len(&self) -> usize
        ensures length { result ≡ length (entries_of self.now) }
        ensures legal { is_legal (entries_of self.now) ≡ true }
        ensures few { result ≤ longest_log + 1 }
    {
        self.len
    }

    /// A clone of the receipt: it names the same front.
    pub fn again(&self) -> Receipt
        ensures { result ≡ self.now }
    {
        Receipt {
            len: self.len,
            seen: self.seen.again(),
        }
    }

    /// The receipt of the first n entries.
    pub fn front(&self, n: usize) -> Receipt
        requires { n ≤ length (entries_of self.now) }
        ensures entries { entries_of result ≡ front n (entries_of self.now) }
        ensures feed { feed_of result ≡ feed_of self.now }
    {
        Receipt {
            len: n,
            seen: self.seen.again(),
        }
    }

    /// Which of two receipts of one feed is longer. The shorter is a front of the longer.
    pub(crate) fn meet(&self, other: &Receipt) -> Ordering
        requires { feed_of other.now ≡ feed_of self.now }
        ensures order { result ≡ nat_cmp (length (entries_of self.now)) (length (entries_of other.now)) }
        ensures this { length (entries_of self.now) ≤ length (entries_of other.now) → IsFrontOf (entries_of self.now) (entries_of other.now) }
        ensures that { length (entries_of other.now) ≤ length (entries_of self.now) → IsFrontOf (entries_of other.now) (entries_of self.now) }
    {
        let mut both = self.seen.again();
        both.learn(&other.seen);
        self.len.cmp(&other.len)
    }

    /// Whether this front is no shorter than the other's, of the same feed. Then it holds the other; if not, the other holds
    /// it.
    pub fn holds(&self, other: &Receipt) -> bool
        requires { feed_of other.now ≡ feed_of self.now }
        ensures longer { result ≡ nat_le (length (entries_of other.now)) (length (entries_of self.now)) }
        ensures holds { MatchBool result (Holds self.now other.now) (Holds other.now self.now) }
    {
        self.meet(other) != Ordering::Less
    }

    /// The longer of two receipts of one feed, which holds both; this one where neither is longer.
    pub fn longer(&self, other: &Receipt) -> Receipt
        requires { feed_of other.now ≡ feed_of self.now }
        ensures which { result ≡ (if nat_le (length (entries_of other.now)) (length (entries_of self.now)) then self.now else other.now) }
        ensures this { Holds result self.now }
        ensures that { Holds result other.now }
    {
        if self.holds(other) {
            self.again()
        } else {
            other.again()
        }
    }
}
