//! Where entries are read to.
ghost use Rattle.std.specs.Prelude.{◌≡◌, ◌<◌, ◌≤◌, ◌⊎◌, List, [], drop, length, map, vec_capacity, IfOk, OnOk, OnErr};
ghost use Rattle.std.specs.Arc.{arc_value};
ghost use Rattle.pgp_ids.specs.declared.entry.Entry.{Entry as AnyEntry};
ghost use Rattle.pgp_log.specs.Log.{IsFrontOf};
ghost use Rattle.pgp_feed.specs.Receipts.{entries_of, feed_of, Holds};
ghost use Rattle.pgp_feed.specs.Taps.{last_of};
ghost use Rattle.pgp_engine.specs.kept.Followers.{HasTakenFewer, HasTakenFront, HasTakenMore};
ghost use Rattle.pgp_engine.specs.declared.entry_buffer.TheConstants.{KEPT_PLACES};

use crate::follower::{Follower, take_all};
use pgp_feed::{ReadFault, Receipt, Tap};
use pgp_ids::Entry;
use std::alloc::{AllocError, Global};
use std::mem::replace;
use std::sync::Arc;

/// How many entries there is room for at most between two reads.
pub const KEPT_PLACES: usize = 1024;

/// A list that entries are read to. Between two reads it has none of them, and room for at most [`KEPT_PLACES`].
pub(crate) struct EntryBuffer {
    alloc: Global,
    list: Vec<Arc<Entry>>,
    ghost empty: { list.items ≡ [] },
    ghost few: { vec_capacity list ≤ KEPT_PLACES },
}

// Written out, so that a function which lets one go has nothing to prove of what lies within.
impl Drop for EntryBuffer {
    fn drop(self) {
        let EntryBuffer { alloc: _, list: _ } = self;
    }
}

impl EntryBuffer {
    /// It takes no memory.
    pub fn new(alloc: Global) -> EntryBuffer {
        EntryBuffer {
            alloc,
            list: Vec::new(alloc),
        }
    }

    /// Has the follower take what it lacks of a front. After a fault it has taken some of that, and not all.
    pub fn bring<F: Follower>(
        &mut self,
        follower: &mut F,
        tap: &mut Tap,
        front: &Receipt,
    ) -> Result<(), ReadFault>
        requires feed { feed_of front.now ≡ feed_of (last_of tap.old) }
        requires follows { HasTakenFront F.has_taken (entries_of front.now) follower.old }
        ensures whole { OnOk result (F.has_taken (entries_of front.now) follower.new) }
        ensures within { HasTakenFront F.has_taken (entries_of front.now) follower.new }
        ensures more { (taken : List AnyEntry) → F.has_taken taken follower.old → IsFrontOf taken (entries_of front.now)
            → HasTakenMore F.has_taken taken (entries_of front.now) follower.new }
        ensures fewer { OnErr result (HasTakenFewer F.has_taken (entries_of front.now) follower.new) }
        ensures same { F.numbers follower.new ≡ F.numbers follower.old }
        ensures idle { F.has_taken (entries_of front.now) follower.old → follower.new ≡ follower.old }
        ensures later { Holds (last_of tap.new) (last_of tap.old) }
        ensures seen { (follower.new ≡ follower.old) ⊎ Holds (last_of tap.new) front.now }
        ensures reads { OnErr result ((taken : List AnyEntry) → F.has_taken taken follower.old → length taken < length (entries_of front.now)) }
    {
        let taken = follower.taken();
        if taken == front.len() {
            return Ok(());
        }
        let list = self.read(tap, front, taken)?;
        match take_all(follower, list.as_slice()) {
            Ok(()) => {
                self.keep(list);
                Ok(())
            }
            Err(AllocError) => Err(ReadFault::Memory),
        }
    }

    /// Reads the entries of a front behind those that were taken. Where the list isn't kept afterwards, as after a fault, the
    /// next one begins without room.
    fn read(
        &mut self,
        tap: &mut Tap,
        front: &Receipt,
        taken: usize,
    ) -> Result<Vec<Arc<Entry>>, ReadFault>
        requires feed { feed_of front.now ≡ feed_of (last_of tap.old) }
        requires taken { taken ≤ length (entries_of front.now) }
        ensures read { IfOk result (λ list. map arc_value list.items ≡ drop taken (entries_of front.now)) }
        ensures seen { OnOk result (Holds (last_of tap.new) front.now) }
        ensures later { Holds (last_of tap.new) (last_of tap.old) }
    {
        let mut list = replace(&mut self.list, Vec::new(self.alloc));
        tap.read(front, taken, &mut list)?;
        Ok(list)
    }

    /// Lets the entries go that were read, and keeps the list for its room, unless that is for more than [`KEPT_PLACES`].
    fn keep(&mut self, read: Vec<Arc<Entry>>) {
        let mut list = read;
        list.clear();
        if list.capacity() <= KEPT_PLACES {
            self.list = list;
        }
    }
}
