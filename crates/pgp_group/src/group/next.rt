//! The first map and the next one, where it is known how the group lies by them.

ghost use Rattle.std.specs.Prelude.{◌≡◌, ◌≢◌, ◌++◌, [], ◌∷◌, List, Some, None, true, OnOk, OnErr};
ghost use Rattle.pgp_ids.specs.declared.entry.Entry.{Entry as AnyEntry};
ghost use Rattle.pgp_ids.specs.declared.entry.Entry.TheVariants as entry;
ghost use Rattle.pgp_ids.specs.declared.incremental.Incremental.{Incremental};
ghost use Rattle.pgp_ids.specs.declared.pg_id.PgId.{PgId as Id};
ghost use Rattle.pgp_interval.specs.SameMembers.{is_same};
ghost use Rattle.pgp_map.specs.Held.{HasGroup};
ghost use Rattle.pgp_map.specs.Map.{epoch as epoch_of};
ghost use Rattle.pgp_map.specs.MapFault.{map_fault, then_with};
ghost use Rattle.pgp_map.specs.MapOf.{IsMapOf, Says};
ghost use Rattle.pgp_map.specs.Pools.{has_group};
ghost use Rattle.pgp_sets.specs.Sets.{membership};
ghost use Rattle.pgp_group.specs.Entries.{incs_of};
ghost use Rattle.pgp_group.specs.GroupHistory.{EpochsAscend, group_facts, group_primary, made_at, primary_facts};
ghost use Rattle.pgp_group.specs.GroupOf.{IsGroupOf, IsSilent};
ghost use Rattle.pgp_group.specs.Reaching.{reaching};

use super::{Group, Infos, Intervals, KeptPrior, NamedDevices, Reports};
use pgp_code::AnyCode;
use pgp_ids::{Epoch, Membership, OsdId, PgId, PrimaryFacts};
use pgp_map::OsdMap;
use std::alloc::{AllocError, Global};

impl Group {
    /// The group at the epoch that made its pool, of which nothing was reported yet, where it lies at these members by the map:
    /// it looks for none itself. It takes no memory.
    pub fn begin_members(alloc: Global, map: &OsdMap, pg: PgId, members: Membership) -> Self
        requires { HasGroup map.now pg }
        ensures { (log : List AnyEntry) → EpochsAscend (incs_of log) → IsMapOf (incs_of log) map.now
            → has_group (incs_of log) pg ≡ true → made_at (incs_of log) pg.pool ≡ epoch_of (incs_of log)
            → IsSilent log pg → membership (incs_of log) pg ≡ Some members → IsGroupOf log pg result }
    {
        let kind = map.pool(pg.pool).unwrap().kind;
        let intervals = Intervals::begin(alloc, AnyCode::of_pool(kind), map.epoch(), members);
        let (_, current) = intervals.current();
        let reckoned = KeptPrior::begin(alloc, *intervals.code(), current);
        Group {
            alloc,
            pg,
            intervals,
            named: NamedDevices::new(alloc),
            infos: Infos::new(alloc),
            reports: Reports::new(alloc),
            reckoned,
        }
    }

    /// The acting primary by the last map, where the group has one.
    pub fn primary(&self) -> Option<OsdId>
        ensures { (log : List AnyEntry) (pg : Id) → IsGroupOf log pg self.now → group_primary (incs_of log) pg ≡ Some result }
    {
        self.intervals.members().acting_primary
    }

    /// Takes the next map, by which the group lies at these members: it looks for none itself. `facts` are what the map that it
    /// was until now says of the acting primary. Where the group lies as before it takes no memory. After an error the group stands for
    /// the same log.
    #[tactic(auto, using(crate::proofs::GroupLemmas::same_after_error))]
    pub fn absorb_members(
        &mut self,
        after: &OsdMap,
        members: Membership,
        facts: PrimaryFacts,
    ) -> Result<(), AllocError>
        ensures ok { OnOk result ((log : List AnyEntry) (pg : Id) (inc : Incremental)
            → IsGroupOf log pg self.old → map_fault (incs_of log) inc ≡ None
            → group_facts (incs_of log) pg ≡ Some facts → IsMapOf (then_with (incs_of log) inc) after.now
            → membership (then_with (incs_of log) inc) pg ≡ Some members
            → IsGroupOf (log ++ entry.Inc inc ∷ []) pg self.new) }
        ensures err { OnErr result ((log : List AnyEntry) (pg : Id) → IsGroupOf log pg self.old → IsGroupOf log pg self.new) }
        ensures wants { OnErr result ((log : List AnyEntry) (pg : Id) → IsGroupOf log pg self.old
            → membership (incs_of log) pg ≢ Some members) }
    {
        let (_, current) = self.intervals.current();
        if is_same(&members, &current) {
            self.intervals.stay(after.epoch());
            return Ok(());
        }
        self.named
            .make_room(current.up.len() + current.acting.len())?;
        self.intervals.step(after.epoch(), members, facts)?;
        self.named.add_places(&current.up);
        self.named.add_places(&current.acting);
        Ok(())
    }

    /// Takes the next maps, up to that of this epoch, by which the group lies as before: its current interval goes on. It looks
    /// for no placement and takes no memory.
    pub fn stay(&mut self, epoch: Epoch)
        ensures is { self.new ≡ reaching epoch self.old }
        ensures next { (log : List AnyEntry) (pg : Id) (inc : Incremental)
            → IsGroupOf log pg self.old → map_fault (incs_of log) inc ≡ None → inc.epoch ≡ epoch
            → membership (then_with (incs_of log) inc) pg ≡ membership (incs_of log) pg
            → IsGroupOf (log ++ entry.Inc inc ∷ []) pg self.new }
    {
        self.intervals.stay(epoch);
    }
}

/// Whether the group lies alike by both: then its interval goes on.
fn is_same(a: &Membership, b: &Membership) -> bool
    ensures { result ≡ is_same a.now b.now }
{
    a == b
}

/// What the map says of an acting primary; where there is none, both epochs are 0.
pub fn primary_facts(map: &OsdMap, primary: Option<OsdId>) -> PrimaryFacts
    ensures { Says map.now (λ incs. result ≡ primary_facts incs primary) }
{
    match primary {
        Some(osd) => PrimaryFacts {
            up_from: map.up_from(osd),
            up_thru: map.up_thru(osd),
        },
        None => PrimaryFacts {
            up_from: Epoch::new(0),
            up_thru: Epoch::new(0),
        },
    }
}
