//! The book that all receipts of a feed are of: its log is the published one. Of its two words one is the length of that log, and the
//! other the number of turns that were taken. With each turn a word comes that only its pen brings home.
//!
//! A receipt says only how the log begins. So a rule over the length alone would allow a publish that adds an entry and hands it
//! back: every later exchange would find another length than it expects. To add an entry uses up its turn, and a feed holds the
//! turn after what it published. So nobody else can have added to its log, and such a publish has no turn left to hold.

use logbook::{Gain, Plain, Play, Rule, Seen, Word};
use pgp_ids::Entry;

/// The rule of the book.
pub struct Law;

impl Rule<Entry, u64> for Law {
    ghost use Rattle.std.specs.Prelude.{[]};
    ghost use base.Fml.{ftrue};
    ghost use Rattle.pgp_feed.specs.Book.{IsBookOf};

    ghost holds = { IsBookOf };

    ghost first = { [] };

    ghost hinted = { λ n log. Unit {0} };

    ghost shows = { λ log. [] };

    ghost keeps = { λ names log. ftrue };

    ghost moves = { λ ask before after answer. Unit {0} };
}

/// Callers trade nothing.
pub struct Nothing;

impl Gain<Entry, u64> for Nothing {
    ghost use base.Fml.{ftrue};

    ghost after = { λ names about answer. ftrue };
}

/// The step that adds an entry.
pub struct Add;

impl Play<Entry, u64> for Add {
    ghost use Rattle.pgp_feed.specs.Book.{Adds};

    ghost then = { Adds };
}

impl Plain<Entry, Entry, u64> for Add {
    ghost use Rattle.std.specs.Prelude.{None};

    ghost ask = { λ entry. entry };

    ghost state = { λ entry. None };
}

/// The step that takes the turn of the next entry.
pub struct Take;

impl Play<Entry, u64> for Take {
    ghost use Rattle.pgp_feed.specs.Book.{TakesTurn};

    ghost then = { TakesTurn };
}

impl Plain<(), Entry, u64> for Take {
    ghost use Rattle.std.specs.Prelude.{None};
    ghost use Rattle.pgp_ids.specs.declared.entry.Entry.TheVariants.{Close};

    ghost ask = { λ none. Close };

    ghost state = { λ none. None };
}

/// What a thread knows of the book.
pub type Knowledge = Seen<Entry, u64, Law>;

/// A word of the book.
pub type Number = Word<Entry, u64, Law>;
