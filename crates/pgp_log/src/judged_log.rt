//! A log with the judge of its next entry.

ghost use Rattle.std.specs.Prelude.{◌≡◌, ◌≢◌, List, [], ◌∷◌, ◌++◌, length, map, false, true, None, Some, Err, IsOk, IfOk, IfErr, OnOk, OnErr};
ghost use Rattle.std.specs.Arc.{arc_value};
ghost use Rattle.pgp_ids.specs.declared.entry.Entry.{Entry as AnyEntry};
ghost use Rattle.pgp_ids.specs.declared.refusal.Refusal.TheVariants.{Memory};
ghost use Rattle.pgp_map.specs.MapOf.{IsMapOf};
ghost use Rattle.pgp_group.specs.Entries.{incs_of};
ghost use Rattle.pgp_log.specs.Fits.{fits, is_closed};
ghost use Rattle.pgp_log.specs.Judge.{IsJudgeOf, MapMayLack};
ghost use Rattle.pgp_log.specs.Locate.{IsCheckedMap};
ghost use Rattle.pgp_log.specs.Log.{is_legal};

use super::judge::Judge;
use pgp_ids::{Entry, Refusal};
use pgp_map::OsdMap;
use std::alloc::{AllocError, Global};
use std::marker::Model;
use std::sync::Arc;

/// A legal log, which contracts see as the list of its entries, and the judge of what it takes next.
pub struct JudgedLog {
    alloc: Global,
    entries: Vec<Arc<Entry>>,
    judge: Judge,
}

// Written out, so that a crate which lets one go has nothing to prove of what lies within.
impl Drop for JudgedLog {
    fn drop(self) {
        let JudgedLog {
            alloc: _,
            entries: _,
            judge: _,
        } = self;
    }
}

impl Model for JudgedLog {
    ghost Value = { List AnyEntry };

    ghost view = { λ log. map arc_value log.entries.items };

    ghost invariant = { λ log. IsJudgeOf (map arc_value log.entries.items) log.judge };
}

impl JudgedLog {
    /// The log before its first entry. It takes no memory.
    pub fn new(alloc: Global) -> Self
        ensures { result ≡ [] }
    {
        JudgedLog {
            alloc,
            entries: Vec::new(alloc),
            judge: Judge::start(alloc),
        }
    }

    /// The log of these entries, which it shares: a legal log.
    pub fn over(alloc: Global, entries: &[Arc<Entry>]) -> Result<Self, AllocError>
        requires { is_legal (map arc_value entries.now) ≡ true }
        ensures { IfOk result (λ log. log ≡ map arc_value entries.now) }
    {
        let mut log = JudgedLog::new(alloc);
        for entry in entries {
            log.take_shared(Arc::try_clone(entry)?)?;
        }
        Ok(log)
    }

    /// The entries, in the order in which they were taken.
    pub fn entries(&self) -> &[Arc<Entry>]
        ensures entries { map arc_value result.now ≡ self.now }
        ensures legal { is_legal self.now ≡ true }
    {
        self.entries.as_slice()
    }

    /// How many entries it has.
    pub fn len(&self) -> usize
        ensures { result ≡ length self.now }
    {
        self.entries.len()
    }

    /// The map that the entries make.
    pub fn map(&self) -> &OsdMap
        ensures map { IsMapOf (incs_of self.now) result.now }
        ensures checked { IsCheckedMap result.now }
    {
        self.judge.map()
    }

    /// Why the log doesn't take the entry, if it doesn't. `Memory` comes only where there was none to look at an incremental
    /// of an open log.
    pub fn fits(&self, entry: &Entry) -> Result<(), Refusal>
        ensures ok { IsOk result → fits self.now entry.now ≡ None }
        ensures err { IfErr result (λ refusal. refusal ≢ Memory → fits self.now entry.now ≡ Some refusal) }
        ensures wants_open { result ≡ Err Memory → is_closed self.now ≡ false }
        ensures lacks { result ≡ Err Memory → MapMayLack self.now entry.now }
    {
        self.judge.fits(entry)
    }

    /// Takes an entry that fits. Without memory for it, the log stays as it was.
    pub fn take(&mut self, entry: Entry) -> Result<(), AllocError>
        requires { fits self.old entry ≡ None }
        ensures ok { OnOk result (self.new ≡ self.old ++ entry ∷ []) }
        ensures err { OnErr result (self.new ≡ self.old) }
    {
        let entry = Arc::new(self.alloc, entry)?;
        self.take_shared(entry)
    }

    /// Takes an entry that fits, which others may hold too.
    fn take_shared(&mut self, entry: Arc<Entry>) -> Result<(), AllocError>
        requires { fits self.old (arc_value entry) ≡ None }
        ensures ok { OnOk result (self.new ≡ self.old ++ arc_value entry ∷ []) }
        ensures err { OnErr result (self.new ≡ self.old) }
    {
        self.entries.reserve(1)?;
        self.judge.take(&entry)?;
        self.entries.push_reserved(entry);
        Ok(())
    }
}
