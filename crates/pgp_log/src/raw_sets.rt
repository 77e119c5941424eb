//! The raw sets of placement groups, kept from question to question.

ghost use Rattle.std.specs.Prelude.{◌≡◌, List, [], ◌∷◌, ◌++◌, Some, None, false};
ghost use Rattle.std.specs.Option.{option_map_or};
ghost use Rattle.pgp_ids.specs.declared.entry.Entry.{Entry as AnyEntry};
ghost use Rattle.pgp_ids.specs.declared.incremental.Incremental.{Incremental as AnyIncremental};
ghost use Rattle.pgp_group.specs.Entries.{inc_of, incs_of};
ghost use Rattle.pgp_map.specs.Held.{HasGroup};
ghost use Rattle.pgp_map.specs.MapOf.{Says};
ghost use Rattle.pgp_sets.specs.Sets.{membership};
ghost use Rattle.pgp_log.specs.Fits.{fits};
ghost use Rattle.pgp_log.specs.Locate.{place_of_object, IsCheckedMap};
ghost use Rattle.pgp_log.specs.RawSets.{AreRawSets, moves_any};

use super::entry::inc_of;
use super::place::{ObjectPlace, group_of_object};
use pgp_ids::{Entry, Membership, ObjectName, Osds, PgId, PoolId};
use pgp_map::OsdMap;
use pgp_sets::{filter, raw};
use std::alloc::Global;
use std::collections::HashMap;

/// Where the tree of one map puts the groups that were asked for. Each is found once until an incremental may move groups,
/// since a placement takes far more time than what is left of a question. At most one for each group of the map.
pub struct RawSets {
    known: HashMap<PgId, Osds>,
}

// Written out, so that a crate which lets one go has nothing to prove of what lies within.
impl Drop for RawSets {
    fn drop(self) {
        let RawSets { known: _ } = self;
    }
}

impl RawSets {
    /// No raw set yet. It takes no memory.
    pub fn new(alloc: Global) -> Self
        ensures { (incs : List AnyIncremental) → AreRawSets incs result }
    {
        RawSets {
            known: HashMap::new(alloc),
        }
    }

    /// Stays true of the map after an entry that fits, and of the map before it. What is kept is given up where the entry may
    /// move groups.
    pub fn follow(&mut self, entry: &Entry)
        ensures next { (log : List AnyEntry) → fits log entry.now ≡ None → AreRawSets (incs_of log) self.old
            → AreRawSets (incs_of (log ++ entry.now ∷ [])) self.new }
        ensures kept { (incs : List AnyIncremental) → AreRawSets incs self.old → AreRawSets incs self.new }
    {
        if may_move(entry) && !self.known.is_empty() {
            self.known.clear();
        }
    }

    /// Where the object of this name lies by the map, if the map has the pool. The raw set of its group is kept, where there
    /// is memory for it.
    pub fn locate(&mut self, map: &OsdMap, id: PoolId, name: &ObjectName) -> Option<ObjectPlace>
        requires { IsCheckedMap map.now }
        ensures place { Says map.now (λ incs. AreRawSets incs self.old → result ≡ place_of_object incs id name.now) }
        ensures kept { Says map.now (λ incs. AreRawSets incs self.old → AreRawSets incs self.new) }
    {
        let pg = group_of_object(map, id, name)?;
        let members = self.members(map, &pg);
        Some(ObjectPlace { pg, members })
    }

    /// Where the group lies by the map. Its raw set is kept, where there is memory for it.
    pub fn members(&mut self, map: &OsdMap, pg: &PgId) -> Membership
        requires { HasGroup map.now pg.now }
        ensures members { Says map.now (λ incs. AreRawSets incs self.old → membership incs pg.now ≡ Some result) }
        ensures kept { Says map.now (λ incs. AreRawSets incs self.old → AreRawSets incs self.new) }
    {
        if let Some(known) = self.known.get(pg) {
            return filter(map, pg, known);
        }
        let found = raw(map, pg);
        let members = filter(map, pg, &found);
        let _kept: Result<_, _> = self.known.insert(*pg, found);
        members
    }
}

/// The entry is an incremental that may move groups: it gives a tree, weights, or sizes.
fn may_move(entry: &Entry) -> bool
    ensures { result ≡ option_map_or moves_any (inc_of entry.now) false }
{
    match inc_of(entry) {
        Some(inc) => inc.crush.is_some() || !inc.weight.is_empty() || !inc.sizes.is_empty(),
        None => false,
    }
}
