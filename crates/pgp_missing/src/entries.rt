//! Log entries by their numbers.

ghost use Rattle.std.specs.Prelude.{◌≡◌, ◌-◌, [], length, map, nat_eq, IfOk, OnOk, OnErr};
ghost use Rattle.std.specs.Ordering.{nat_cmp};
ghost use Rattle.pgp_missing.specs.Last.{put_in};
ghost use Rattle.pgp_missing.specs.Log.{number_of, between, has_version, is_rising_from};
ghost use Rattle.pgp_missing.specs.Missing.{missing_above};
ghost use Rattle.pgp_missing.specs.Kept.{numbered};

use pgp_ids::{Change, Epoch, LogEntry, MissingObject, ObjectName, Seq, Version};
use std::alloc::{AllocError, Global};
use std::collections::BTreeMap;
use std::collections::btree_map::Range;
use std::marker::Model;
use std::ops::Bound;

/// What a log entry says beside its number.
#[derive(Drop)]
pub(crate) struct Write {
    epoch: Epoch,
    change: Change,
    object: ObjectName,
}

/// What the last entry of an object says.
#[derive(Drop)]
pub(crate) struct Newest {
    version: Version,
    change: Change,
}

/// Log entries, one of each number at most. Contracts see the list of them in ascending order of their numbers.
#[derive(Drop)]
pub(crate) struct Entries {
    by_number: BTreeMap<u32, Write>,
}

impl Model for Entries {
    ghost use Rattle.std.specs.Prelude.{List, map};
    ghost use Rattle.std.specs.BTreeMap.{IsOrdered};
    ghost use Rattle.std.specs.Ordering.{nat_cmp};
    ghost use Rattle.pgp_ids.specs.declared.log_entry.LogEntry.{LogEntry};
    ghost use Rattle.pgp_missing.specs.Kept.{numbered};

    ghost Value = { List LogEntry };

    ghost view = { λ e. map numbered e.by_number.entries };

    ghost invariant = { λ e. IsOrdered nat_cmp e.by_number };
}

impl Entries {
    /// No entries. It takes no memory.
    pub(crate) fn new(alloc: Global) -> Self
        ensures { result ≡ [] }
    {
        Entries {
            by_number: BTreeMap::new(alloc),
        }
    }

    /// Puts a copy of the entry in, and takes out the one with its number. After an error the entries are as before.
    #[tactic(auto, using(crate::proofs::EntryLemmas::put_numbered))]
    pub(crate) fn put(&mut self, entry: &LogEntry) -> Result<(), AllocError>
        ensures ok { OnOk result (self.new ≡ put_in number_of nat_cmp self.old entry.now) }
        ensures err { OnErr result (self.new ≡ self.old) }
    {
        let write = Write {
            epoch: entry.version.epoch,
            change: entry.change,
            object: entry.object.clone()?,
        };
        self.by_number.insert(entry.version.v, write)?;
        Ok(())
    }

    /// The entries with numbers above the first one and up to the last one, in their order. It looks at these alone.
    #[tactic(auto, using(crate::proofs::EntryLemmas::between_laws))]
    fn between(&self, above: u32, last: u32) -> Range<'_, u32, Write>
        ensures { map numbered result ≡ between above last self.now }
    {
        let above = above.min(last);
        self.by_number
            .range((Bound::Excluded(above), Bound::Included(last)))
    }

    /// There are as many entries between these numbers as there are numbers. Where fewer are kept, inside and outside, it
    /// looks at none.
    #[tactic(auto, using(crate::proofs::EntryLemmas::full_laws))]
    pub(crate) fn is_full(&self, above: u32, last: u32) -> bool
        ensures { result ≡ nat_eq (length (between above last self.now)) (last - above) }
    {
        let mut lacking = last.saturating_sub(above);
        if lacking as usize > self.by_number.len() {
            return false;
        }
        for _ in self.between(above, last) {
            if lacking == 0 {
                return false;
            }
            lacking -= 1;
        }
        lacking == 0
    }

    /// Some entry between these numbers has the version.
    #[tactic(auto, using(crate::proofs::EntryLemmas::version_laws))]
    pub(crate) fn has_version(&self, above: u32, last: u32, version: Version) -> bool
        ensures { result ≡ has_version version (between above last self.now) }
    {
        if version.v <= above || last < version.v {
            return false;
        }
        match self.by_number.get(&version.v) {
            Some(write) => write.epoch == version.epoch,
            None => false,
        }
    }

    /// The epochs of the entries after this version and up to the last number don't fall, in the order of the numbers, from
    /// that of the version on.
    pub(crate) fn is_rising(&self, after: Version, last: u32) -> bool
        ensures { result ≡ is_rising_from after.epoch (between after.v last self.now) }
    {
        let mut epoch = after.epoch;
        for (_, write) in self.between(after.v, last) {
            if write.epoch < epoch {
                return false;
            }
            epoch = write.epoch;
        }
        true
    }

    /// The objects that a copy with the writes up to the first number lacks, by the entries up to the last one, in ascending
    /// order of their names.
    #[tactic(auto, using(crate::proofs::EntryLemmas::missing_laws, crate::proofs::EntryLemmas::newest_laws))]
    pub(crate) fn missing_above(
        &self,
        alloc: Global,
        above: u32,
        last: u32,
    ) -> Result<Seq<MissingObject>, AllocError>
        ensures { IfOk result (λ objects. objects ≡ missing_above above (between above last self.now)) }
    {
        let mut newest = BTreeMap::new(alloc);
        for (number, write) in self.between(above, last) {
            let version = Version {
                epoch: write.epoch,
                v: *number,
            };
            let change = write.change;
            newest.insert(write.object.clone()?, Newest { version, change })?;
        }
        let modified = newest
            .into_iter()
            .filter(|(_, newest)| matches!(newest.change, Change::Modify))
            .map(|(object, newest)| MissingObject {
                object,
                version: newest.version,
            })
            .collect(alloc)?;
        Ok(Seq::from_vec(modified))
    }
}
