//! Where an object lies.

ghost use Rattle.std.specs.Prelude.{◌≡◌, IfSome};
ghost use Rattle.pgp_map.specs.Held.{HasGroup};
ghost use Rattle.pgp_map.specs.MapOf.{Says};
ghost use Rattle.pgp_log.specs.Locate.{group_of_object, IsCheckedMap};

use pgp_hash::{mask_of, name_hash, stable_mod};
use pgp_ids::{Membership, ObjectName, PgId, PoolId};
use pgp_map::OsdMap;

/// Where an object lies: its group, and where the map puts the group.
#[derive(Drop)]
pub struct ObjectPlace {
    pub pg: PgId,
    pub members: Membership,
}

/// The group in which the object of this name lies, if the map has the pool.
pub(crate) fn group_of_object(map: &OsdMap, id: PoolId, name: &ObjectName) -> Option<PgId>
    requires { IsCheckedMap map.now }
    ensures group { Says map.now (λ incs. result ≡ group_of_object incs id name.now) }
    ensures there { IfSome result (λ pg. HasGroup map.now pg) }
{
    let Some(pool) = map.pool(id) else {
        return None;
    };
    let groups = u32::from(pool.pg_num);
    let hash = name_hash(name.as_str().as_bytes());
    Some(PgId {
        pool: id,
        pg: stable_mod(hash, groups, mask_of(groups)) as u16,
    })
}
