//! Where a group lies.

ghost use Rattle.std.specs.Prelude.{◌≡◌, List};
ghost use Rattle.pgp_ids.specs.declared.incremental.Incremental.{Incremental as AnyIncremental};
ghost use Rattle.pgp_map.specs.Held.{HasGroup};
ghost use Rattle.pgp_map.specs.MapFault.{then_with};
ghost use Rattle.pgp_map.specs.MapOf.{Says};
ghost use Rattle.pgp_log.specs.RawSets.{IsRawSet};
ghost use Rattle.pgp_compact.specs.kept.Course.{LiesAt, IsNext, may_leave};

use pgp_ids::{Incremental, Membership, Osds, PgId};
use pgp_log::{changes_temp, moves, turns_place};
use pgp_map::OsdMap;
use pgp_sets::{filter, raw};

/// Where a group lies by a map, and on what that depends.
#[derive(Drop)]
pub(crate) struct GroupPlace {
    /// Where the tree of the map puts the group.
    raw: Osds,
    /// The group's pg_temp list.
    temp: Osds,
    pub(crate) members: Membership,
}

impl GroupPlace {
    /// Where the group lies by the map. It takes no memory.
    pub(crate) fn at(map: &OsdMap, pg: &PgId) -> Self
        requires { HasGroup map.now pg.now }
        ensures { Says map.now (λ incs. LiesAt incs pg.now result) }
    {
        GroupPlace::on(map, pg, raw(map, pg))
    }

    /// Where the group lies by the map, whose tree puts it on these places.
    fn on(map: &OsdMap, pg: &PgId, raw: Osds) -> Self
        requires { HasGroup map.now pg.now }
        ensures { Says map.now (λ incs. IsRawSet incs pg.now raw → LiesAt incs pg.now result) }
    {
        let members = filter(map, pg, &raw);
        GroupPlace {
            raw,
            temp: map.copied_temp(*pg),
            members,
        }
    }

    /// Where the group lies by the map after the incremental. The tree is asked only where it may put the group elsewhere.
    pub(crate) fn next(&self, after: &OsdMap, pg: &PgId, inc: &Incremental) -> Self
        requires { HasGroup after.now pg.now }
        ensures { (incs : List AnyIncremental) → IsNext incs inc.now after.now → LiesAt incs pg.now self.now
            → LiesAt (then_with incs inc.now) pg.now result }
    {
        if moves(inc, pg.pool) {
            GroupPlace::at(after, pg)
        } else {
            GroupPlace::on(after, pg, self.raw.copy())
        }
    }

    /// Whether the group may lie elsewhere by the incremental.
    pub(crate) fn may_leave(&self, pg: &PgId, inc: &Incremental) -> bool
        ensures { result ≡ may_leave self.now pg.now inc.now }
    {
        moves(inc, pg.pool) || changes_temp(inc, pg) || turns_place(inc, &self.raw, &self.temp)
    }
}
