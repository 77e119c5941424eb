//! What the placement of a replicated pool has taken so far.

ghost use Rattle.std.specs.Prelude.{◌≡◌, ◌<◌, Option, length, Some};
ghost use Rattle.pgp_crush.specs.Picks.{no_picks, with_pick, is_taken};

use super::candidate::Pick;
use arrayvec::ArrayVec;
use pgp_ids::{MAX_OSDS, Osds, Place};
use std::marker::Model;

/// The items taken so far, and their leaves.
#[derive(Drop)]
pub(crate) struct TakenItems {
    items: ArrayVec<i32, MAX_OSDS>,
    /// In the order of the items.
    leaves: Osds,
}

impl Model for TakenItems {
    ghost use Rattle.std.specs.Prelude.{◌≡◌, length};
    ghost use Rattle.pgp_crush.specs.Picks.{Picks};

    ghost Value = { Picks };

    ghost view = { λ t. record { items = t.items.items; leaves = t.leaves } };

    ghost invariant = { λ t. length t.items.items ≡ length t.leaves };
}

impl TakenItems {
    pub(crate) fn new() -> Self
        ensures { result ≡ no_picks }
    {
        TakenItems {
            items: ArrayVec::new(),
            leaves: Osds::new(),
        }
    }

    /// The item or its leaf is taken already.
    pub(crate) fn has(&self, pick: &Pick) -> bool
        ensures { result ≡ is_taken self.now pick.now }
    {
        self.items.contains(&pick.item)
            || self
                .leaves
                .as_slice()
                .contains(&Place::new(Some(pick.leaf)))
    }

    /// Takes what was found, if something was.
    pub(crate) fn push(&mut self, found: Option<Pick>)
        requires { length self.old.leaves < MAX_OSDS }
        ensures { self.new ≡ with_pick self.old found }
    {
        if let Some(pick) = found {
            self.items.push(pick.item);
            self.leaves.push(Place::new(Some(pick.leaf)));
        }
    }

    pub(crate) fn into_leaves(self) -> Osds
        ensures { result ≡ self.leaves }
    {
        self.leaves
    }
}
