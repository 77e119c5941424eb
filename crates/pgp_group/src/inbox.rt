//! All that came of one kind, and how much of it was looked at.

ghost use Rattle.std.specs.Prelude.{◌≡◌, ◌≤◌, [], false, length, drop, OnOk, OnErr};
ghost use Rattle.pgp_group.specs.kept.InboxOf.{with_arrival};

use pgp_ids::Epoch;
use std::alloc::{AllocError, Global};
use std::marker::Model;

/// All infos of a group or all its reports, and how many of them were looked at.
///
/// Contracts see it as `Arrivals`.
#[derive(Drop)]
pub(crate) struct Inbox<T> {
    /// All items, counted or not, in the order in which they came.
    all: Vec<T>,
    /// How many were looked at.
    seen: usize,
    /// Whether an item came before the epoch in which it says that it was sent. Such an item may begin to count later, so
    /// from then on all are judged at each look.
    ahead: bool,
}

impl<T> Model for Inbox<T> {
    ghost use Rattle.pgp_group.specs.kept.InboxOf.{Arrivals};

    ghost Value = { Arrivals T };

    ghost view = { λ i. record {
      all = i.all.items;
      seen = i.seen;
      ahead = i.ahead;
    } };
}

impl<T> Inbox<T> {
    /// No items. It takes no memory.
    pub(crate) fn new(alloc: Global) -> Self
        ensures { result ≡ record { all = []; seen = 0; ahead = false } }
    {
        Inbox {
            all: Vec::new(alloc),
            seen: 0,
            ahead: false,
        }
    }

    /// All items in order.
    pub(crate) fn all(&self) -> &[T]
        ensures { result.now ≡ self.now.all }
    {
        self.all.as_slice()
    }

    /// The items after those that were looked at.
    pub(crate) fn unseen(&self) -> &[T]
        ensures { self.now.seen ≤ length self.now.all → result.now ≡ drop self.now.seen self.now.all }
    {
        let all = self.all.as_slice();
        let (_, unseen) = all.split_at(self.seen.min(all.len()));
        unseen
    }

    /// Whether an item came before the epoch in which it says that it was sent.
    pub(crate) fn is_ahead(&self) -> bool
        ensures { result ≡ self.now.ahead }
    {
        self.ahead
    }

    /// Notes that all were looked at.
    pub(crate) fn mark_seen(&mut self)
        ensures { self.new ≡ record self.old { seen = length self.old.all } }
    {
        self.seen = self.all.len();
    }

    /// Notes that none was looked at, so that all will be looked at again.
    pub(crate) fn mark_unseen(&mut self)
        ensures { self.new ≡ record self.old { seen = 0 } }
    {
        self.seen = 0;
    }
}

impl<T: Drop> Inbox<T> {
    /// Takes an item, which came at this epoch and was sent in the epoch `stamp`. After an error the inbox is as before.
    pub(crate) fn push(&mut self, item: T, at: Epoch, stamp: Epoch) -> Result<(), AllocError>
        ensures ok { OnOk result (self.new ≡ with_arrival item at stamp self.old) }
        ensures err { OnErr result (self.new ≡ self.old) }
    {
        self.all.push(item)?;
        self.ahead = self.ahead || at < stamp;
        Ok(())
    }
}
