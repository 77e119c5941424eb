//! Where an object lies, from a session.

ghost use Rattle.std.specs.Prelude.{◌≡◌, ◌<◌, ◌↔◌, ◌⊎◌, length, Err, IsSome, IfSome, IfOk, IfErr};
ghost use Rattle.pgp_c.specs.Locate.{IsPool, IsName, LocatesIn};

use super::place::{PgpPlace, place_of};
use super::status::Status;
use pgp_core::Session;
use pgp_ids::{LocateRefusal, ObjectName, PoolId};
use pgp_text::Reply;
use std::alloc::Global;
use std::str::from_utf8;

/// Puts into `place` where the object of this name lies. With any status except `Done`, `place` stays as it was.
pub fn locate(
    alloc: Global,
    session: &mut Session,
    pool: u32,
    name: &[u8],
    place: &mut PgpPlace,
) -> u32
    ensures same { session.new ≡ session.old }
    ensures place { LocatesIn session.old.log pool name.now place.old place.new result }
{
    let Some(pool) = pool_of(pool) else {
        return Status::BadArgument.number();
    };
    let name = match name_of(alloc, name) {
        Ok(name) => name,
        Err(status) => return status.number(),
    };
    match session.locate(pool, &name) {
        Reply::Located { pg, members, epoch } => {
            *place = place_of(pg, &members, epoch);
            Status::Done.number()
        }
        _ => u32::from(LocateRefusal::UnknownPool.number()),
    }
}

/// The pool with this number, if it is in its range.
pub fn pool_of(pool: u32) -> Option<PoolId>
    ensures in_range { IsSome result ↔ IsPool pool }
    ensures value { IfSome result (λ id. id ≡ pool) }
{
    if pool > 255 {
        return None;
    }
    PoolId::new(pool as u8)
}

/// The object's name that these bytes are, if they are one.
pub fn name_of(alloc: Global, name: &[u8]) -> Result<ObjectName, Status>
    ensures ok { IfOk result (λ object. (object ≡ name.now) × IsName name.now) }
    ensures bad { result ≡ Err Status.BadArgument → IsName name.now → ⊥ }
    ensures memory { result ≡ Err Status.NoMemory → IsName name.now × (24 < length name.now) }
    ensures err { IfErr result (λ status. (status ≡ Status.BadArgument) ⊎ (status ≡ Status.NoMemory)) }
{
    let Ok(text) = from_utf8(name) else {
        return Err(Status::BadArgument);
    };
    match ObjectName::new(alloc, text) {
        Ok(Some(name)) => Ok(name),
        Ok(None) => Err(Status::BadArgument),
        Err(_) => Err(Status::NoMemory),
    }
}
