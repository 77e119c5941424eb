//! What follows from the entries that a shard has read: the map that they make, and the shard's groups.

ghost use Rattle.std.specs.Prelude.{◌≡◌, ◌<◌, ◌&&◌, min, not, ◌++◌, [], ◌∷◌, List, Some, None, true, false, nat_eq, map, length, drop, is_some, IfOk, IfSome, OnOk, OnErr};
ghost use Rattle.std.specs.Arc.{arc_value};
ghost use Rattle.std.specs.HashMap as hash;
ghost use Rattle.std.specs.List.{list_any};
ghost use Rattle.pgp_ids.specs.declared.entry.Entry.{Entry as AnyEntry};
ghost use Rattle.pgp_ids.specs.declared.entry.Entry.TheVariants as entry;
ghost use Rattle.pgp_ids.specs.declared.incremental.Incremental.{Incremental as AnyIncremental};
ghost use Rattle.pgp_ids.specs.declared.pg_id.PgId.{PgId as Id};
ghost use Rattle.pgp_map.specs.MapFault.{then_with};
ghost use Rattle.pgp_map.specs.Pools.{is_same_group, has_group};
ghost use Rattle.pgp_group.specs.Entries.{inc_of, incs_of};
ghost use Rattle.pgp_group.specs.GroupHistory.{makes};
ghost use Rattle.pgp_group.specs.Touched.{is_touched};
ghost use Rattle.pgp_log.specs.Fits.{fits};
ghost use Rattle.pgp_shard.specs.kept.Groups.{AreAtPlaces, AreOwnGroupsOf, IsStepping, OfNextOwn, OfOwnLog, FollowStill, CanStepOn, CanAddTo, CanAbsorb, CanAbsorbInc, CanPassOn, HasOneMore, HavePassedOn, IsKeptIfOwn, HasOwn, HasStill, IsRenewedAt, KeepsMarks, MarksTouched, marks_of, owns};
ghost use Rattle.pgp_shard.specs.kept.KeptGroup.{AreAllMarked, IsViewOf, newer_in};
ghost use Rattle.pgp_log.specs.Log.{HasInc, is_legal};
ghost use Rattle.pgp_shard.specs.Shard.{is_among, without_group};
ghost use Rattle.pgp_shard.specs.declared.owner.Owner.{Owner as AnyOwner};

use super::kept_group::KeptGroup;
use super::owner::Owner;
use super::row::{Changes, Row};
use pgp_ids::{Entry, Incremental, PgId, PoolId, View};
use pgp_log::{MapBefore, changes_nothing, moves_none};
use pgp_map::OsdMap;
use std::alloc::{AllocError, Global};
use std::collections::HashMap;
use std::sync::Arc;

/// The map that the entries make, and the groups of one shard, each of them once, as far as the entries tell of them.
#[derive(Drop)]
pub(crate) struct Groups {
    alloc: Global,
    /// The map that the entries make.
    pub(crate) map: OsdMap,
    /// At which place of the lists each group stands.
    places: HashMap<PgId, usize>,
    /// The row of each group, at its place.
    rows: Vec<Row>,
    kept: Vec<KeptGroup>,
    /// Whether one of them was worked out: until then all are marked.
    some_worked_out: bool,
}

impl Groups {
    /// What follows from these entries: each of the owner's groups is marked. Without an incremental it takes no memory.
    pub(crate) fn of(
        alloc: Global,
        owner: Owner,
        entries: &[Arc<Entry>],
    ) -> Result<Self, AllocError>
        requires { is_legal (map arc_value entries.now) ≡ true }
        ensures is { IfOk result (AreOwnGroupsOf owner (map arc_value entries.now)) }
        ensures marked { IfOk result (λ groups. AreAllMarked groups.kept.items) }
        ensures wants { OnErr result (HasInc (map arc_value entries.now)) }
    {
        let mut groups = Groups::new(alloc);
        for entry in entries {
            groups.absorb(owner, entry)?;
        }
        Ok(groups)
    }

    /// What follows from no entry: no groups. It takes no memory.
    fn new(alloc: Global) -> Self
        ensures is { (owner : AnyOwner) → AreOwnGroupsOf owner [] result }
        ensures marked { AreAllMarked result.kept.items }
    {
        Groups {
            alloc,
            map: OsdMap::empty(alloc),
            places: HashMap::new(alloc),
            rows: Vec::new(alloc),
            kept: Vec::new(alloc),
            some_worked_out: false,
        }
    }

    /// Takes the next entry of the log. After an `Err` they are of no further use.
    pub(crate) fn absorb(&mut self, owner: Owner, entry: &Entry) -> Result<(), AllocError>
        requires { CanAbsorb owner self.old entry.now }
        ensures ok { OnOk result (OfNextOwn owner self.old entry.now (λ log. AreOwnGroupsOf owner (log ++ entry.now ∷ []) self.new)) }
        ensures marks { OnOk result (OfNextOwn owner self.old entry.now (λ log. MarksTouched log entry.now self.old self.new)) }
        ensures kept { OnOk result (KeepsMarks self.old self.new) }
        ensures marked { OnOk result (AreAllMarked self.old.kept.items → AreAllMarked self.new.kept.items) }
        ensures wants { OnErr result ((log : List AnyEntry) → AreOwnGroupsOf owner log self.old → HasInc (log ++ entry.now ∷ [])) }
    {
        match entry {
            Entry::Inc(inc) => {
                self.absorb_inc(inc)?;
                self.add_pools(owner, inc)
            }
            Entry::Info(info) => self.absorb_report(entry, &info.pg),
            Entry::Entries(report) => self.absorb_report(entry, &report.pg),
            Entry::Close => Ok(()),
        }
    }

    /// Takes an incremental, except for the groups that come with it. What groups need of the map before is noted first. An
    /// incremental that changes the epoch alone goes to no group. While all groups are marked, nor does one that moves no group.
    /// After an `Err` they are of no further use.
    fn absorb_inc(&mut self, inc: &Incremental) -> Result<(), AllocError>
        requires { CanAbsorbInc self.old inc.now }
        ensures ok { OnOk result (OfOwnLog self.old (λ owner log. fits log (entry.Inc inc.now) ≡ None
            → IsStepping owner log inc.now self.new)) }
        ensures marks { OnOk result (OfOwnLog self.old (λ owner log. fits log (entry.Inc inc.now) ≡ None
            → MarksTouched log (entry.Inc inc.now) self.old self.new)) }
        ensures kept { OnOk result (KeepsMarks self.old self.new) }
        ensures marked { OnOk result (AreAllMarked self.old.kept.items → AreAllMarked self.new.kept.items) }
    {
        let before = MapBefore::of(self.alloc, &self.map, inc)?;
        self.map.apply(inc)?;
        if changes_nothing(inc) {
            return Ok(());
        }
        if !self.some_worked_out && moves_none(inc) {
            return Ok(());
        }
        self.pass_on(&before, inc)
    }

    /// Has each group take an incremental, which the map has taken. Groups that it can't touch by their rows are passed by. After an
    /// `Err` they are of no further use.
    fn pass_on(&mut self, before: &MapBefore, inc: &Incremental) -> Result<(), AllocError>
        requires { CanPassOn self.old inc.now before.now }
        ensures { OnOk result (HavePassedOn inc.now before.now self.old self.new) }
    {
        let changes = Changes::of(before, &self.map, inc);
        for place in 0..self.rows.len() {
            if self.rows[place].is_passed_by(&changes, inc) {
                continue;
            }
            let kept = &mut self.kept[place];
            kept.absorb_inc(before, &self.map, inc)?;
            self.rows[place] = kept.row();
        }
        Ok(())
    }

    /// Adds the owner's groups of the pools that the incremental which is being taken makes.
    fn add_pools(&mut self, owner: Owner, inc: &Incremental) -> Result<(), AllocError>
        requires { CanStepOn owner self.old inc.now }
        ensures ok { OnOk result ((log : List AnyEntry) → IsStepping owner log inc.now self.old → IsStepping owner log inc.now self.new) }
        ensures own { OnOk result ((log : List AnyEntry) → IsStepping owner log inc.now self.old
            → HasOwn owner (then_with (incs_of log) inc.now) self.new) }
        ensures still { OnOk result (HasStill self.old self.new) }
        ensures marks { OnOk result ((other : Id) → list_any (λ made. nat_eq made.id other.pool) inc.now.pools ≡ false
            → is_among other (marks_of self.new) ≡ is_among other (marks_of self.old)) }
    {
        for pool in inc.pools.as_slice() {
            self.add_pool(owner, pool.id)?;
        }
        Ok(())
    }

    /// Adds the owner's groups of the pool, which the incremental that is being taken makes.
    fn add_pool(&mut self, owner: Owner, id: PoolId) -> Result<(), AllocError>
        requires { CanAddTo owner self.old id }
        ensures ok { OnOk result ((log : List AnyEntry) (inc : AnyIncremental) → makes id inc ≡ true → IsStepping owner log inc self.old
            → IsStepping owner log inc self.new) }
        ensures own { OnOk result ((log : List AnyEntry) (inc : AnyIncremental) → makes id inc ≡ true → IsStepping owner log inc self.old
            → (pg : Id) → nat_eq id pg.pool ≡ true → IsKeptIfOwn owner (then_with (incs_of log) inc) self.new pg) }
        ensures still { OnOk result (HasStill self.old self.new) }
        ensures marks { OnOk result ((other : Id) → nat_eq id other.pool ≡ false
            → is_among other (marks_of self.new) ≡ is_among other (marks_of self.old)) }
    {
        let Some(pool) = self.map.pool(id) else {
            return Ok(());
        };
        for number in 0..pool.pg_num {
            let pg = PgId {
                pool: id,
                pg: number,
            };
            self.add(owner, pg)?;
        }
        Ok(())
    }

    /// Adds the group, of a pool that the incremental which is being taken makes, if it is one of the owner's.
    fn add(&mut self, owner: Owner, pg: PgId) -> Result<(), AllocError>
        requires { CanAddTo owner self.old pg.pool }
        ensures ok { OnOk result ((log : List AnyEntry) (inc : AnyIncremental) → makes pg.pool inc ≡ true
            → IsStepping owner log inc self.old → IsStepping owner log inc self.new) }
        ensures own { OnOk result ((log : List AnyEntry) (inc : AnyIncremental) → IsStepping owner log inc self.old
            → IsKeptIfOwn owner (then_with (incs_of log) inc) self.new pg) }
        ensures still { OnOk result (HasStill self.old self.new) }
        ensures marks { OnOk result ((other : Id) → nat_eq pg.pool other.pool ≡ false
            → is_among other (marks_of self.new) ≡ is_among other (marks_of self.old)) }
    {
        if !owner.owns(&pg) || !self.map.has_group(&pg) {
            return Ok(());
        }
        if self.places.contains_key(&pg) {
            return Ok(());
        }
        let kept = KeptGroup::begin(self.alloc, &self.map, pg);
        self.keep(kept)
    }

    /// Keeps one more group, at the next place. After an `Err` they are of no further use.
    fn keep(&mut self, kept: KeptGroup) -> Result<(), AllocError>
        ensures { OnOk result (HasOneMore kept self.old self.new) }
    {
        let place = self.kept.len();
        self.places.insert(kept.pg, place)?;
        self.rows.push(kept.row())?;
        self.kept.push(kept)?;
        Ok(())
    }

    /// At which place the group stands.
    fn find(&self, pg: &PgId) -> Option<usize>
        ensures { result ≡ hash.get is_same_group self.now.places pg.now }
    {
        self.places.get(pg).copied()
    }

    /// Takes an entry that brings no map, but perhaps a report of this group. After an `Err` they are of no further use.
    fn absorb_report(&mut self, entry: &Entry, pg: &PgId) -> Result<(), AllocError>
        requires { AreAtPlaces self.old }
        ensures ok { OnOk result ((owner : AnyOwner) (log : List AnyEntry) → inc_of entry.now ≡ None → fits log entry.now ≡ None
            → ((other : Id) → is_same_group pg.now other ≡ false → is_touched log entry.now other ≡ false)
            → AreOwnGroupsOf owner log self.old → AreOwnGroupsOf owner (log ++ entry.now ∷ []) self.new) }
        ensures marks { OnOk result ((other : Id) → is_same_group pg.now other ≡ false
            → is_among other (marks_of self.new) ≡ is_among other (marks_of self.old)) }
        ensures kept { OnOk result (KeepsMarks self.old self.new) }
        ensures marked { OnOk result (AreAllMarked self.old.kept.items → AreAllMarked self.new.kept.items) }
        ensures wants { OnErr result (OfOwnLog self.old (λ owner log. HasInc log)) }
    {
        match self.find(pg) {
            Some(place) => {
                let kept = &mut self.kept[place];
                let taken = kept.absorb_report(entry, self.map.epoch());
                self.rows[place] = kept.row();
                taken
            }
            None => Ok(()),
        }
    }

    /// Works out a group of the owner, where it is marked. Whether the map has it: each such group is kept. `count` is the number
    /// of the entries. After an error they follow from the same entries.
    pub(crate) fn work_out(&mut self, pg: &PgId, count: usize) -> Result<bool, AllocError>
        requires { AreAtPlaces self.old }
        ensures there { IfOk result (λ there. OfOwnLog self.old (λ owner log. owns owner pg.now ≡ true
            → there ≡ has_group (incs_of log) pg.now)) }
        ensures is { FollowStill count self.old self.new }
        ensures marks { OnOk result (marks_of self.new ≡ without_group pg.now (marks_of self.old)) }
        ensures wants { OnErr result (OfOwnLog self.old (λ owner log. HasInc log)) }
        ensures wants_there { OnErr result (OfOwnLog self.old (λ owner log. has_group (incs_of log) pg.now ≡ true)) }
        ensures wants_marked { OnErr result (is_among pg.now (marks_of self.old) ≡ true) }
    {
        let Some(place) = self.find(pg) else {
            return Ok(false);
        };
        self.renew_at(place, count)?;
        Ok(true)
    }

    /// Works out the group at the place, where it is marked, and makes its row anew. `count` is the number of the entries. After an
    /// error the groups follow from the same entries.
    fn renew_at(&mut self, place: usize, count: usize) -> Result<(), AllocError>
        requires within { place < length self.old.kept.items }
        requires at { AreAtPlaces self.old }
        ensures at { AreAtPlaces self.new }
        ensures is { FollowStill count self.old self.new }
        ensures one { IsRenewedAt place result self.old self.new }
    {
        self.some_worked_out = true;
        let group = &mut self.kept[place];
        let done = group.renew(&self.map, count);
        self.rows[place] = group.row();
        done
    }

    /// What the entries say of a group of the owner, except for count and epoch, where the map has it and it isn't marked.
    pub(crate) fn view_of(&self, pg: &PgId) -> Option<&View>
        requires { AreAtPlaces self.now }
        ensures view { IfSome result (λ view. OfOwnLog self.now (λ owner log. IsViewOf log pg.now view.now)) }
        ensures there { OfOwnLog self.now (λ owner log. owns owner pg.now ≡ true
            → is_some result ≡ (has_group (incs_of log) pg.now && not (is_among pg.now (marks_of self.now)))) }
    {
        let place = self.find(pg)?;
        self.kept[place].view.as_ref()
    }

    /// The groups that have to be worked out, or were when more than this many entries were read, in the order of the rows.
    pub(crate) fn newer(&self, count: usize) -> Result<Vec<PgId>, AllocError>
        ensures are { IfOk result (λ ids. ids.items ≡ newer_in count self.now.kept.items) }
        ensures wants { OnErr result (OfOwnLog self.now (λ owner log. HasInc log)) }
    {
        let mut newer = Vec::new(self.alloc);
        for kept in &self.kept {
            if kept.is_newer(count) {
                newer.push(kept.pg)?;
            }
        }
        Ok(newer)
    }

    /// Works out up to `max` of the groups that are marked. How many are marked still. `count` is the number of the entries.
    /// After an error they follow from the same entries.
    pub(crate) fn renew(&mut self, max: usize, count: usize) -> Result<usize, AllocError>
        requires { AreAtPlaces self.old }
        ensures is { FollowStill count self.old self.new }
        ensures marks { OnOk result (marks_of self.new ≡ drop max (marks_of self.old)) }
        ensures left { IfOk result (λ left. left ≡ length (marks_of self.new)) }
        ensures wants { OnErr result (OfOwnLog self.old (λ owner log. HasInc log)) }
        ensures wants_marked { OnErr result (0 < min max (length (marks_of self.old))) }
    {
        let mut more = max;
        let mut left = 0;
        for place in 0..self.rows.len() {
            if self.rows[place].marked {
                if more > 0 {
                    self.renew_at(place, count)?;
                    more -= 1;
                } else {
                    left += 1;
                }
            }
        }
        Ok(left)
    }
}
