//! Whole numbers of a range, and the ids and epochs that they stand for.
ghost use Rattle.std.specs.Prelude.{◌≡◌, ◌<◌, ◌≤◌, ◌≤ℤ◌, true, IfSome};
ghost use Rattle.pgp_lines.specs.Value.{view};
ghost use Rattle.pgp_lines.specs.Shapes.{number_in, integer_in};
ghost use Rattle.pgp_lines.specs.Ids.{osd_in, place_in, pool_id_in, slot_in, byte_in, word_in, pg_id_in};

use super::lists::Plain;
use super::trail::Wanted;
use super::value::Value;
use pgp_ids::{Epoch, OsdId, PgId, Place, PoolId};

/// The greatest number of a group in its pool.
const MAX_PG: u64 = 1023;

/// The greatest slot of a member in its group.
const MAX_SLOT: u64 = 15;

/// A whole number from `low` to `high`.
pub(super) fn read_number(value: &Value<'_, '_>, low: u64, high: u64) -> Option<u64>
    ensures value { result ≡ number_in low high (view value.now) }
    ensures within { IfSome result (λ n. n ≤ high) }
{
    value.look(Wanted::Number(low, high));
    let n = value.number()?.as_u64()?;
    (low <= n && n <= high).then_some(n)
}

/// A whole number from `low` to `high`, which may be negative.
pub(super) fn read_integer(value: &Value<'_, '_>, low: i64, high: i64) -> Option<i64>
    ensures value { result ≡ integer_in low high (view value.now) }
    ensures above { IfSome result (λ n. low ≤ℤ n) }
    ensures below { IfSome result (λ n. n ≤ℤ high) }
{
    value.look(Wanted::Integer(low, high));
    let n = value.number()?.as_i64()?;
    (low <= n && n <= high).then_some(n)
}

/// A device, 0 to 4095.
impl Plain for OsdId {
    ghost plain = { osd_in };

    fn from_value(value: &Value<'_, '_>) -> Option<OsdId> {
        let number = read_number(value, 0, u64::from(OsdId::MAX))?;
        OsdId::new(number as u16)
    }
}

/// A device, or null where `nulls` allows an empty place.
pub(super) fn read_place(value: &Value<'_, '_>, nulls: bool) -> Option<Place>
    ensures { result ≡ place_in nulls (view value.now) }
{
    if nulls && value.is_null() {
        return Some(Place::new(None));
    }
    let osd = OsdId::from_value(value)?;
    Some(Place::new(Some(osd)))
}

impl Plain for Place {
    ghost plain = { place_in true };

    fn from_value(value: &Value<'_, '_>) -> Option<Place> {
        read_place(value, true)
    }
}

/// A pool, 1 to 255.
impl Plain for PoolId {
    ghost plain = { pool_id_in };

    fn from_value(value: &Value<'_, '_>) -> Option<PoolId> {
        let number = read_number(value, 1, u64::from(u8::MAX))?;
        PoolId::new(number as u8)
    }
}

/// A group by its pool and its number in the pool, 0 to 1023.
pub(super) fn read_group(pool: &Value<'_, '_>, pg: &Value<'_, '_>) -> Option<PgId>
    ensures { result ≡ pg_id_in (view pool.now) (view pg.now) }
{
    let pool = PoolId::from_value(pool)?;
    let pg = read_number(pg, 0, MAX_PG)?;
    Some(PgId {
        pool,
        pg: pg as u16,
    })
}

/// A slot of a member in its group, 0 to 15.
pub(super) fn read_slot(value: &Value<'_, '_>) -> Option<u8>
    ensures value { result ≡ slot_in (view value.now) }
    ensures within { IfSome result (λ slot. slot < 16) }
{
    let slot = read_number(value, 0, MAX_SLOT)?;
    Some(slot as u8)
}

/// A number of one byte, 0 to 255.
impl Plain for u8 {
    ghost plain = { byte_in };

    fn from_value(value: &Value<'_, '_>) -> Option<u8> {
        let number = read_number(value, 0, u64::from(u8::MAX))?;
        Some(number as u8)
    }
}

/// A number of four bytes, 0 to 4294967295: a weight or a part of a version.
impl Plain for u32 {
    ghost plain = { word_in };

    fn from_value(value: &Value<'_, '_>) -> Option<u32> {
        let number = read_number(value, 0, u64::from(u32::MAX))?;
        Some(number as u32)
    }
}

/// An epoch, 0 to 4294967295.
impl Plain for Epoch {
    ghost plain = { word_in };

    fn from_value(value: &Value<'_, '_>) -> Option<Epoch> {
        let number = u32::from_value(value)?;
        Some(Epoch::new(number))
    }
}
