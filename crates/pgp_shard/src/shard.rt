//! One shard: what it has read of the log, and what it answers by that.

ghost use Rattle.std.specs.Prelude.{◌≡◌, ◌≢◌, ℕ, ◌+◌, ◌<◌, ◌≤◌, [], ◌∷◌, List, ◌++◌, drop, min, take, length, map, is_some, option_copied, option_map, false, true, None, Some, Err, IsOk, IfOk, IfSome, OnOk, OnErr};
ghost use Rattle.std.specs.Arc.{arc_value};
ghost use Rattle.pgp_ids.specs.declared.ask_refusal.AskRefusal.TheVariants.{UnknownGroup, Memory};
ghost use Rattle.pgp_map.specs.Pools.{has_group};
ghost use Rattle.pgp_group.specs.Entries.{incs_of};
ghost use Rattle.pgp_group.specs.Touched.{view_at};
ghost use Rattle.pgp_group.specs.View.{scratch};
ghost use Rattle.pgp_log.specs.Fits.{is_closed, fits};
ghost use Rattle.pgp_shard.specs.kept.Groups.{AreMadeBeside, CanReadOn, IsKeptBeside, OfNextBeside, shard_with};
ghost use Rattle.pgp_log.specs.Log.{HasInc, IsFrontOf, epoch_of, is_legal};
ghost use Rattle.pgp_shard.specs.Running.{IsReading};
ghost use Rattle.pgp_shard.specs.Shard.{opening_shard, having_read, having_read_all, having_read_front, HasReadFewer, HasReadSame, HasReadSome, shard_of, is_own, is_marked, HaveChanged, MarksOnlyTouched, IsUnmarked, AreUnmarked, WorksOutMarks};

use super::copies::copy_at;
use super::groups::Groups;
use super::owner::Owner;
use pgp_ids::{AskRefusal, Entry, Epoch, PgId, View};
use pgp_log::is_close;
use std::alloc::{AllocError, Global};
use std::marker::Model;
use std::sync::Arc;

/// The front of the log that one of several shards has read. It answers for its own groups alone.
pub struct ShardState {
    alloc: Global,
    owner: Owner,
    front: Vec<Arc<Entry>>,
    /// What follows from the front, for the owner's groups. It isn't there until the first question or the first `renew` makes it,
    /// and again from an entry for which it was out of memory until the next of these. While it isn't there, to read an entry is
    /// to become one more owner of it: a script without questions pays nothing for groups.
    groups: Option<Groups>,
}

// Written out, so that a crate which lets one go has nothing to prove of what lies within.
impl Drop for ShardState {
    fn drop(self) {
        let ShardState {
            alloc: _,
            owner: _,
            front: _,
            groups: _,
        } = self;
    }
}

impl Model for ShardState {
    ghost use Rattle.std.specs.Prelude.{map};
    ghost use Rattle.std.specs.Arc.{arc_value};
    ghost use Rattle.pgp_shard.specs.kept.Groups.{IsKeptBeside, shard_with};
    ghost use Rattle.pgp_shard.specs.Shard.{Shard};

    ghost Value = { Shard };

    ghost view = { λ s. shard_with s.owner (map arc_value s.front.items) s.groups };

    ghost invariant = { λ s. IsKeptBeside s.owner (map arc_value s.front.items) s.groups };
}

impl ShardState {
    /// The shard of this number, of this many shards, that has read nothing. It takes no memory.
    pub fn start(alloc: Global, shard: usize, shards: usize) -> Self
        requires { shard < shards }
        ensures { result ≡ opening_shard shard shards }
    {
        ShardState {
            alloc,
            owner: Owner { shard, shards },
            front: Vec::new(alloc),
            groups: None,
        }
    }

    /// The group is one of its own.
    pub fn owns(&self, pg: &PgId) -> bool
        ensures { result ≡ is_own self.now.shard self.now.shards pg.now }
    {
        self.owner.owns(pg)
    }

    /// How many entries it has read.
    pub fn count(&self) -> usize
        ensures { result ≡ length self.now.front }
    {
        self.front.len()
    }

    /// The log that it has read was closed.
    pub fn is_closed(&self) -> bool
        ensures { result ≡ is_closed self.now.front }
    {
        match self.front.last() {
            Some(last) => is_close(last),
            None => false,
        }
    }

    /// Reads the next entry. Where what follows from the front is there, it stays there. The entry takes no mark away, and marks
    /// only groups that it touches. No group is worked out. Without memory for the entry, the shard has read what it had before.
    pub fn absorb(&mut self, entry: &Arc<Entry>) -> Result<(), AllocError>
        requires { fits self.old.front (arc_value entry.now) ≡ None }
        ensures ok { OnOk result (HasReadSame (having_read self.old (arc_value entry.now)) self.new) }
        ensures marks { OnOk result (MarksOnlyTouched (arc_value entry.now) self.old self.new) }
        ensures err { OnErr result (HasReadSame self.old self.new) }
    {
        self.front.reserve(1)?;
        let copy = Arc::try_clone(entry)?;
        read_on(self.owner, &mut self.groups, entry)?;
        self.front.push_reserved(copy);
        Ok(())
    }

    /// Reads these entries, which come next. Without memory for one of them, the shard has read those before it.
    fn absorb_all(&mut self, entries: &[Arc<Entry>]) -> Result<(), AllocError>
        requires { is_legal (self.old.front ++ map arc_value entries.now) ≡ true }
        ensures ok { OnOk result (HasReadSame (having_read_all self.old (map arc_value entries.now)) self.new) }
        ensures there { OnOk result (is_some self.new.marks ≡ is_some self.old.marks) }
        ensures err { OnErr result (HasReadSome self.old (map arc_value entries.now) self.new) }
    {
        for entry in entries {
            self.absorb(entry)?;
        }
        Ok(())
    }

    /// Reads the next entries of a log of which it has read a front, at most this many. Without memory for one of them, the
    /// shard has read those before it.
    pub fn absorb_next(&mut self, log: &[Arc<Entry>], count: usize) -> Result<(), AllocError>
        requires legal { is_legal (map arc_value log.now) ≡ true }
        requires front { IsFrontOf self.old.front (map arc_value log.now) }
        ensures ok { OnOk result (HasReadSame (having_read_front (length self.old.front + count) (map arc_value log.now) self.old) self.new) }
        ensures there { OnOk result (is_some self.new.marks ≡ is_some self.old.marks) }
        ensures err { OnErr result (HasReadFewer count (map arc_value log.now) self.old self.new) }
        ensures reading { (shards n : ℕ) → IsReading (map arc_value log.now) shards n self.old → IsReading (map arc_value log.now) shards n self.new }
    {
        let next = unread_entries(log, self.count(), count);
        self.absorb_all(next)
    }

    /// Works out what the shard has read says of one of its groups, where it is marked, and takes the mark away. `UnknownGroup`:
    /// what was read makes no such group. `Memory`: there was none, which is so only where an incremental was read, and, where the
    /// marks are there, only where the group is marked. What the shard has read stays.
    pub fn work_out(&mut self, pg: &PgId) -> Result<(), AskRefusal>
        requires { is_own self.old.shard self.old.shards pg.now ≡ true }
        ensures ok { IsOk result → has_group (incs_of self.old.front) pg.now ≡ true }
        ensures unknown { result ≡ Err UnknownGroup → has_group (incs_of self.old.front) pg.now ≡ false }
        ensures wants { result ≡ Err Memory → HasInc self.old.front }
        ensures wants_there { result ≡ Err Memory → is_some self.old.marks ≡ true
            → has_group (incs_of self.old.front) pg.now ≡ true }
        ensures wants_marked { result ≡ Err Memory → is_some self.old.marks ≡ true → is_marked self.old pg.now ≡ true }
        ensures same { HasReadSame self.old self.new }
        ensures marks { result ≢ Err Memory → IsUnmarked pg.now self.old self.new }
        ensures worked { result ≢ Err Memory → WorksOutMarks self.old self.new }
    {
        make_groups(
            self.alloc,
            self.owner,
            self.front.as_slice(),
            &mut self.groups,
        )?;
        let count = self.front.len();
        let Some(groups) = &mut self.groups else {
            unreachable!();
        };
        if groups.work_out(pg, count)? {
            Ok(())
        } else {
            Err(AskRefusal::UnknownGroup)
        }
    }

    /// What the shard has read says of one of its groups, except for count and epoch. `None` where there is no such group, and
    /// where it is marked.
    pub fn view_of(&self, pg: &PgId) -> Option<&View>
        requires { is_own self.now.shard self.now.shards pg.now ≡ true }
        ensures is { is_marked self.now pg.now ≡ false → scratch self.now.front pg.now
            ≡ option_map (view_at (length self.now.front) (epoch_of self.now.front)) (option_copied result) }
        ensures marked { is_marked self.now pg.now ≡ true → result ≡ None }
    {
        match &self.groups {
            Some(groups) => groups.view_of(pg),
            None => None,
        }
    }

    /// All that the shard has read says of one of its groups, which needn't be worked out again then. `UnknownGroup`: what was
    /// read makes no such group. `Memory`: there was none, which is so only where an incremental was read, and, where the marks are
    /// there, only where what was read makes the group. What the shard has read stays.
    pub fn ask(&mut self, pg: PgId) -> Result<View, AskRefusal>
        requires { is_own self.old.shard self.old.shards pg ≡ true }
        ensures ok { IfOk result (λ view. scratch self.old.front pg ≡ Some view) }
        ensures unknown { result ≡ Err UnknownGroup → has_group (incs_of self.old.front) pg ≡ false }
        ensures wants { result ≡ Err Memory → HasInc self.old.front }
        ensures wants_there { result ≡ Err Memory → is_some self.old.marks ≡ true
            → has_group (incs_of self.old.front) pg ≡ true }
        ensures same { HasReadSame self.old self.new }
        ensures marks { result ≢ Err Memory → IsUnmarked pg self.old self.new }
        ensures worked { result ≢ Err Memory → WorksOutMarks self.old self.new }
    {
        self.work_out(&pg)?;
        self.copy(&pg)
    }

    /// The epoch of the map that what the shard has read makes. The marks are there, as they are once a group was worked out.
    pub fn epoch(&self) -> Epoch
        requires { is_some self.now.marks ≡ true }
        ensures { result ≡ epoch_of self.now.front }
    {
        let Some(groups) = &self.groups else {
            unreachable!();
        };
        groups.map.epoch()
    }

    /// A copy of all that the shard has read says of one of its groups, which isn't marked. The marks are there. `UnknownGroup`:
    /// what was read makes no such group. `Memory`: it makes the group.
    pub fn copy(&self, pg: &PgId) -> Result<View, AskRefusal>
        requires own { is_own self.now.shard self.now.shards pg.now ≡ true }
        requires kept { is_some self.now.marks ≡ true }
        requires unmarked { is_marked self.now pg.now ≡ false }
        ensures ok { IfOk result (λ view. scratch self.now.front pg.now ≡ Some view) }
        ensures unknown { result ≡ Err UnknownGroup → has_group (incs_of self.now.front) pg.now ≡ false }
        ensures wants { result ≡ Err Memory → has_group (incs_of self.now.front) pg.now ≡ true }
    {
        let Some(view) = self.view_of(pg) else {
            return Err(AskRefusal::UnknownGroup);
        };
        let copy = copy_at(self.alloc, view, self.epoch(), self.front.len())?;
        Ok(copy)
    }

    /// Works out up to `max` of the shard's groups that never were worked out, or that something touched since, so that a
    /// question for one of them finds it done. How many groups of the shard still have to be worked out. It is out of memory only
    /// where an incremental was read, and, where the marks are there, only where one of them was to be taken away. What the shard
    /// has read stays.
    pub fn renew(&mut self, max: usize) -> Result<usize, AllocError>
        ensures same { HasReadSame self.old self.new }
        ensures marks { OnOk result (AreUnmarked max self.old self.new) }
        ensures worked { OnOk result (WorksOutMarks self.old self.new) }
        ensures left { IfOk result (λ left. IfSome self.new.marks (λ marks. left ≡ length marks)) }
        ensures wants { OnErr result (HasInc self.old.front) }
        ensures wants_marked { OnErr result (IfSome self.old.marks (λ marks. 0 < min max (length marks))) }
    {
        make_groups(
            self.alloc,
            self.owner,
            self.front.as_slice(),
            &mut self.groups,
        )?;
        let count = self.front.len();
        let Some(groups) = &mut self.groups else {
            unreachable!();
        };
        groups.renew(max, count)
    }

    /// The groups that may have changed since the shard had read this many entries, each once, in the order in which the map got
    /// them: those that have to be worked out, and those that were when more were read. Each other group says what it said. It is
    /// out of memory only where an incremental was read. What the shard has read stays, and so do the marks, which are there.
    pub fn changed_since(&mut self, count: usize) -> Result<Vec<PgId>, AllocError>
        ensures same { HasReadSame self.old self.new }
        ensures marks { OnOk result (AreUnmarked 0 self.old self.new) }
        ensures worked { OnOk result (WorksOutMarks self.old self.new) }
        ensures changed { IfOk result (λ ids. HaveChanged count self.new ids.items) }
        ensures wants { OnErr result (HasInc self.old.front) }
    {
        make_groups(
            self.alloc,
            self.owner,
            self.front.as_slice(),
            &mut self.groups,
        )?;
        let Some(groups) = &self.groups else {
            unreachable!();
        };
        groups.newer(count)
    }
}

/// The entries after those that were read, at most `count` of them.
fn unread_entries(entries: &[Arc<Entry>], read: usize, count: usize) -> &[Arc<Entry>]
    requires { read ≤ length entries.now }
    ensures { result.now ≡ take count (drop read entries.now) }
{
    let rest = &entries[read..];
    if count < rest.len() {
        &rest[..count]
    } else {
        rest
    }
}

/// Makes what is kept beside the entries of them, where nothing is.
fn make_groups(
    alloc: Global,
    owner: Owner,
    entries: &[Arc<Entry>],
    kept: &mut Option<Groups>,
) -> Result<(), AllocError>
    requires { IsKeptBeside owner (map arc_value entries.now) kept.old }
    ensures there { OnOk result (is_some kept.new ≡ true) }
    ensures made { OnOk result (IfSome kept.new (AreMadeBeside owner (map arc_value entries.now) kept.old)) }
    ensures wants { OnErr result (HasInc (map arc_value entries.now)) }
    ensures wants_away { OnErr result (kept.old ≡ None) }
    ensures away { OnErr result (kept.new ≡ None) }
{
    match kept {
        Some(_) => Ok(()),
        None => {
            *kept = Some(Groups::of(alloc, owner, entries)?);
            Ok(())
        }
    }
}

/// Has what is kept beside the entries, if anything is, take the next one. Without memory for that it is given up.
fn read_on(owner: Owner, kept: &mut Option<Groups>, entry: &Entry) -> Result<(), AllocError>
    requires { CanReadOn owner kept.old entry.now }
    ensures is { OnOk result (OfNextBeside owner kept.old entry.now (λ log. IsKeptBeside owner (log ++ entry.now ∷ []) kept.new)) }
    ensures marks { OnOk result (OfNextBeside owner kept.old entry.now
        (λ log. MarksOnlyTouched entry.now (shard_with owner log kept.old) (shard_with owner (log ++ entry.now ∷ []) kept.new))) }
    ensures given_up { OnErr result (kept.new ≡ None) }
{
    let Some(groups) = kept else {
        return Ok(());
    };
    match groups.absorb(owner, entry) {
        Ok(()) => Ok(()),
        Err(AllocError) => {
            *kept = None;
            Err(AllocError)
        }
    }
}

/// The shard, of this many, that answers for the group.
pub fn shard_of(shards: usize, pg: &PgId) -> usize
    requires { 0 < shards }
    ensures number { result ≡ shard_of shards pg.now }
    ensures within { result < shards }
{
    (usize::from(pg.pool.number()) + usize::from(pg.pg)) % shards
}
