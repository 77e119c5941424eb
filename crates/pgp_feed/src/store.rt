//! The published value: the entries, each kept once and shared, and the receipt that names them.
ghost use Rattle.std.specs.Prelude.{◌≡◌, ◌+◌, ◌-◌, ◌<◌, ◌≤◌, drop, length, map, vec_len, vec_capacity, IsOk, MatchResult, IfErr};
ghost use Rattle.std.specs.Arc.{arc_value};
ghost use Rattle.pgp_log.specs.Fits.{longest_log};
ghost use Rattle.pgp_feed.specs.Receipts.{entries_of, feed_of, Holds};
ghost use Rattle.pgp_feed.specs.Appends.{Appends};
ghost use Rattle.pgp_feed.specs.ReadFaults.{IsCopyFault};

use crate::fault::ReadFault;
use crate::receipt::Receipt;
use left_right::Absorb;
use pgp_ids::Entry;
use std::alloc::AllocError;
use std::sync::Arc;

/// What readers take. It has room for the longest log: as many entries as a log takes, and a Close.
pub struct Store {
    pub entries: Vec<Arc<Entry>>,
    pub told: Receipt,
    ghost room: { longest_log + 1 ≤ vec_capacity entries },
}

// Written out, so that a crate which lets one go has nothing to prove of what lies within.
impl Drop for Store {
    fn drop(self) {
        let Store {
            entries: _,
            told: _,
        } = self;
    }
}

/// What the two copies have in common. No value of it is made.
pub struct Content {
    pub entries: [Entry; 0],
    pub told: Receipt,
}

/// What is done to both copies.
#[derive(Drop)]
pub enum Operation {
    /// Leaves the copy as it is.
    Skip,
    /// Adds an entry, with the receipt that names the log with it.
    Put(Arc<Entry>, Receipt),
}

impl Store {
    ghost use Rattle.pgp_feed.specs.declared.store.Operation.TheVariants.{Put};
    ghost use Rattle.pgp_feed.specs.OneLog.{IsTold};
    ghost use Rattle.pgp_feed.specs.Stores.{content_of, applied};

    // Adds an entry, with the receipt that names the log with it. There is room for it, unless the log is at its longest: then it
    // comes back.
    fn take_in(&mut self, entry: Arc<Entry>, told: &Receipt) -> Result<(), Arc<Entry>>
        ensures room { length self.old.entries.items ≤ longest_log → IsOk result }
        ensures taken { MatchResult result (λ _. content_of self.new ≡ applied (content_of self.old) (Put entry told.now)) (λ back. (back ≡ entry) × (content_of self.new ≡ content_of self.old)) }
    {
        if let Err(failed) = self.entries.push(entry) {
            return Err(failed.value);
        }
        self.told = told.again();
        Ok(())
    }

    /// Appends the entries of a receipt's front from a place on, into room that is there. It is refused where this copy
    /// doesn't reach so far, or an entry can have no more owners.
    pub(crate) fn read(
        &self,
        receipt: &Receipt,
        at: usize,
        into: &mut Vec<Arc<Entry>>,
    ) -> Result<(), ReadFault>
        requires told { IsTold self.now }
        requires feed { feed_of receipt.now ≡ feed_of self.now.told }
        requires at { at ≤ length (entries_of receipt.now) }
        requires room { vec_len into.old + (length (entries_of receipt.now) - at) ≤ vec_capacity into.old }
        ensures refused { IfErr result (IsCopyFault at receipt.now self.now.told) }
        ensures read { MatchResult result (λ _. Appends into.old.items into.new.items (drop at (entries_of receipt.now)) × Holds self.now.told receipt.now) (λ _. into.new.items ≡ into.old.items) }
    {
        if !self.told.holds(receipt) {
            return Err(ReadFault::NoReader);
        }
        match append_shared(&self.entries[at..receipt.len()], into) {
            Ok(()) => Ok(()),
            Err(AllocError) => Err(ReadFault::Memory),
        }
    }
}

// Appends all entries, or none, into room that is there. It is refused where an entry can have no more owners.
fn append_shared(from: &[Arc<Entry>], into: &mut Vec<Arc<Entry>>) -> Result<(), AllocError>
    requires room { vec_len into.old + length from.now ≤ vec_capacity into.old }
    ensures some { IfErr result (λ _. 0 < length from.now) }
    ensures appended { MatchResult result (λ _. Appends into.old.items into.new.items (map arc_value from.now)) (λ _. into.new.items ≡ into.old.items) }
{
    let before = into.len();
    for entry in from {
        let Ok(copy) = Arc::try_clone(entry) else {
            into.truncate(before);
            return Err(AllocError);
        };
        into.push(copy).unwrap();
    }
    Ok(())
}

impl Absorb<Operation> for Store {
    ghost use Rattle.pgp_feed.specs.Stores.{content_of, applied};

    type State = Content;

    ghost state = { content_of };

    ghost applied = { applied };

    fn absorb_first(&mut self, operation: &Operation, _other: &Store) -> Result<(), AllocError> {
        match operation {
            Operation::Skip => Ok(()),
            Operation::Put(entry, told) => match self.take_in(Arc::try_clone(entry)?, told) {
                Ok(()) => Ok(()),
                Err(_) => Err(AllocError),
            },
        }
    }

    // The entry goes from the operation into the copy, without a further owner.
    fn absorb_second(&mut self, operation: Operation, _other: &Store) -> Result<(), Operation> {
        match operation {
            Operation::Skip => Ok(()),
            Operation::Put(entry, told) => match self.take_in(entry, &told) {
                Ok(()) => Ok(()),
                Err(entry) => Err(Operation::Put(entry, told)),
            },
        }
    }
}
