//! Which entry a log takes next.

ghost use Rattle.std.specs.Prelude.{◌≡◌, ◌≢◌, ◌≤◌, ◌+◌, List, ◌∷◌, ◌++◌, [], length, true, false, is_some, None, Some, Err, IsOk, OnOk, OnErr, IfErr, IfSome, IfNone};
ghost use Rattle.pgp_ids.specs.declared.entry.Entry.{Entry as AnyEntry};
ghost use Rattle.pgp_ids.specs.declared.refusal.Refusal.TheVariants.{Memory};
ghost use Rattle.pgp_map.specs.MapFault.{given_fault};
ghost use Rattle.pgp_map.specs.MapOf.{IsMapOf, Says};
ghost use Rattle.pgp_group.specs.Entries.{inc_of, incs_of};
ghost use Rattle.pgp_log.specs.Fits.{is_closed, entry_fault, fits, longest_log};
ghost use Rattle.pgp_log.specs.Judge.{IsJudgeOf, OfItsLog, CanTake, MapMayLack};
ghost use Rattle.pgp_log.specs.Log.{epoch_of};

use super::entry::{inc_of, is_close};
use super::report::{entries_fault, info_fault};
use pgp_ids::{Entry, Epoch, Refusal};
use pgp_map::OsdMap;
use std::alloc::{AllocError, Global};

/// How many entries a log takes; a Close is taken beyond.
pub const LONGEST_LOG: usize = 65535;

/// What judging the next entry of a log takes: the map that the entries make, how many they are, and whether one of them
/// closed the log. It keeps no entry.
pub struct Judge {
    map: OsdMap,
    count: usize,
    closed: bool,
}

// Written out, so that a crate which lets one go has nothing to prove of what lies within.
impl Drop for Judge {
    fn drop(self) {
        let Judge {
            map: _,
            count: _,
            closed: _,
        } = self;
    }
}

impl Judge {
    /// The judge of the log without an entry. It takes no memory.
    pub fn start(alloc: Global) -> Self
        ensures { IsJudgeOf [] result }
    {
        Judge {
            map: OsdMap::empty(alloc),
            count: 0,
            closed: false,
        }
    }

    /// How many entries the log has.
    pub fn count(&self) -> usize
        ensures count { OfItsLog self.now (λ log. result ≡ length log) }
        ensures few { OfItsLog self.now (λ log. result ≤ longest_log + 1) }
    {
        self.count
    }

    /// The map that the log makes.
    pub fn map(&self) -> &OsdMap
        ensures { OfItsLog self.now (λ log. IsMapOf (incs_of log) result.now) }
    {
        &self.map
    }

    /// Why the log doesn't take the entry, if it doesn't. `Memory` comes only where there was none to look at an incremental
    /// of an open log that changes its map, and that has a pg_temp list or whose tree alone may have a fault.
    pub fn fits(&self, entry: &Entry) -> Result<(), Refusal>
        ensures ok { IsOk result → OfItsLog self.now (λ log. fits log entry.now ≡ None) }
        ensures err { IfErr result (λ refusal. refusal ≢ Memory → OfItsLog self.now (λ log. fits log entry.now ≡ Some refusal)) }
        ensures wants { result ≡ Err Memory → is_some (inc_of entry.now) ≡ true }
        ensures wants_open { result ≡ Err Memory → OfItsLog self.now (λ log. is_closed log ≡ false) }
        ensures lacks { result ≡ Err Memory → OfItsLog self.now (λ log. MapMayLack log entry.now) }
    {
        if self.closed {
            return Err(Refusal::Closed);
        }
        let fault = match entry {
            Entry::Inc(inc) => {
                self.map.check(inc)?;
                None
            }
            Entry::Info(info) => info_fault(&self.map, info),
            Entry::Entries(report) => entries_fault(&self.map, report),
            Entry::Close => None,
        };
        if let Some(refusal) = fault {
            return Err(refusal);
        }
        if !is_close(entry) && self.count >= LONGEST_LOG {
            return Err(Refusal::LogFull);
        }
        Ok(())
    }

    /// The epoch of the map that the log makes with the entry.
    pub fn epoch_with(&self, entry: &Entry) -> Epoch
        ensures { OfItsLog self.now (λ log. result ≡ epoch_of (log ++ entry.now ∷ [])) }
    {
        match inc_of(entry) {
            Some(inc) => inc.epoch,
            None => self.map.epoch(),
        }
    }

    /// Takes an entry that fits. Only an incremental takes memory; without it, the judge stays that of the log before.
    pub fn take(&mut self, entry: &Entry) -> Result<(), AllocError>
        requires { CanTake self.old entry.now }
        ensures ok { OnOk result (OfItsLog self.old (λ log. fits log entry.now ≡ None → IsJudgeOf (log ++ entry.now ∷ []) self.new)) }
        ensures err { OnErr result (OfItsLog self.old (λ log. IsJudgeOf log self.new)) }
        ensures wants { OnErr result (is_some (inc_of entry.now) ≡ true) }
    {
        if let Some(inc) = inc_of(entry) {
            self.map.apply(inc)?;
        }
        self.count += 1;
        self.closed = is_close(entry);
        Ok(())
    }
}
