//! What a map incremental says of pools and groups, as C gives it.

ghost use Rattle.std.specs.Prelude.{◌≡◌, Some, length, slice_get, IfOk, IfErr};
ghost use Rattle.pgp_c.specs.Each.{IsGiven, IsWhy};
ghost use Rattle.pgp_c.specs.Pools.{are_slots, first_items, groups_of, kind_of, given_part, part_with, pg_num_of, given_place, given_parts, pool_of, pool_sizes_of, temp_of};

use super::ask::group_of;
use super::each::{OfC, each_of};
use super::locate::pool_of;
use super::place::NO_DEVICE;
use super::status::Status;
use pgp_ids::{MAX_PARTS, OsdId, Part, Parts, Place, PoolKind, PoolSizes, PoolSpec, TempList};
use std::alloc::Global;
use std::array::from_fn;

/// The greatest slot of a member.
const LAST_SLOT: u8 = 15;

/// A part of a grouped pool's code.
#[repr(C)]
pub struct PgpPart {
    /// How many of its slots have to be at hand.
    pub least: u8,
    /// How many slots it has, 0 to 16.
    pub slots_length: u8,
    /// The slots, 0 to 15.
    pub slots: [u8; 16],
}

/// A pool that is made.
#[repr(C)]
pub struct PgpPool {
    /// 1 to 255.
    pub id: u32,
    /// How many groups it has, 0 to 65,535.
    pub pg_num: u32,
    /// How it keeps objects. 0: replicated; 1: erasure; 2: grouped.
    pub kind: u8,
    /// How many shards of an erasure pool give an object back.
    pub k: u8,
    /// How many members a group wants.
    pub size: u8,
    /// With how many members a group may serve.
    pub min_size: u8,
    /// The type of bucket of which no two members may share one, 0 for devices.
    pub leaf: u8,
    /// How many parts the code of a grouped pool has, 0 to 16.
    pub parts_length: u8,
    pub parts: [PgpPart; 16],
}

/// New sizes of a pool.
#[repr(C)]
pub struct PgpPoolSizes {
    /// 1 to 255.
    pub pool: u32,
    pub size: u8,
    pub min_size: u8,
}

/// The list of devices that stands in for a group's placement.
#[repr(C)]
pub struct PgpTemp {
    /// 1 to 255.
    pub pool: u32,
    /// 0 to 1,023.
    pub pg: u32,
    /// How many places the list has, 0 to 16.
    pub length: u8,
    /// The devices at the places, 0 to 4,095, or 65535 at a place without one.
    pub osds: [u16; 16],
}

impl OfC<PgpPool> for PoolSpec {
    ghost of_c = { pool_of };

    fn of_c(alloc: Global, given: &PgpPool) -> Result<PoolSpec, Status> {
        Ok(PoolSpec {
            id: pool_of(given.id).ok_or(Status::BadArgument)?,
            pg_num: pg_num_of(given.pg_num)?,
            kind: kind_of(alloc, given)?,
            size: given.size,
            min_size: given.min_size,
            leaf: given.leaf,
        })
    }
}

/// How many groups a pool has.
fn pg_num_of(number: u32) -> Result<u16, Status>
    ensures { IsGiven result (pg_num_of number) }
{
    u16::try_from(number).map_err(|_| Status::BadArgument)
}

/// How a pool keeps its objects.
fn kind_of(alloc: Global, given: &PgpPool) -> Result<PoolKind, Status>
    ensures { IsGiven result (kind_of given.now) }
{
    match given.kind {
        0 => Ok(PoolKind::Replicated),
        1 => Ok(PoolKind::Erasure { k: given.k }),
        2 => {
            let groups = groups_of(alloc, given)?;
            Ok(PoolKind::Grouped { groups })
        }
        _ => Err(Status::BadArgument),
    }
}

/// The parts of a grouped pool.
fn groups_of(alloc: Global, given: &PgpPool) -> Result<Parts, Status>
    ensures { IsGiven result (groups_of given.now) }
{
    let given = first_items(&given.parts, given.parts_length)?;
    let parts = each_of(alloc, given)?;
    Ok(Parts::new(places_of(parts.as_slice())))
}

/// The first items of an array with room for 16, as many as C says.
fn first_items<A>(items: &[A], count: u8) -> Result<&[A], Status>
    requires { length items.now ≡ 16 }
    ensures ok { IfOk result (λ first. first_items count items.now ≡ Some first.now) }
    ensures err { IfErr result (λ why. IsWhy why (first_items count items.now)) }
{
    items.get(..usize::from(count)).ok_or(Status::BadArgument)
}

/// The parts in the first places.
fn places_of(parts: &[Part]) -> [Option<Part>; MAX_PARTS]
    ensures { result ≡ given_parts parts.now }
{
    from_fn(|place| part_at(parts, place))
}

/// The part at this place.
fn part_at(parts: &[Part], place: usize) -> Option<Part>
    ensures { result ≡ slice_get parts.now place }
{
    parts.get(place).copied()
}

impl OfC<PgpPart> for Part {
    ghost of_c = { given_part };

    fn of_c(_alloc: Global, given: &PgpPart) -> Result<Part, Status> {
        part_with(given.least, first_items(&given.slots, given.slots_length)?)
    }
}

/// The part of these slots.
fn part_with(least: u8, slots: &[u8]) -> Result<Part, Status>
    ensures { IsGiven result (part_with least slots.now) }
{
    if !are_slots(slots) {
        return Err(Status::BadArgument);
    }
    Ok(Part::new(slots, least))
}

/// Each is a slot.
fn are_slots(slots: &[u8]) -> bool
    ensures { result ≡ are_slots slots.now }
{
    slots.iter().all(|slot| *slot <= LAST_SLOT)
}

impl OfC<PgpPoolSizes> for PoolSizes {
    ghost of_c = { pool_sizes_of };

    fn of_c(_alloc: Global, given: &PgpPoolSizes) -> Result<PoolSizes, Status> {
        Ok(PoolSizes {
            pool: pool_of(given.pool).ok_or(Status::BadArgument)?,
            size: given.size,
            min_size: given.min_size,
        })
    }
}

impl OfC<PgpTemp> for TempList {
    ghost of_c = { temp_of };

    fn of_c(alloc: Global, given: &PgpTemp) -> Result<TempList, Status> {
        let pg = group_of(given.pool, given.pg).ok_or(Status::BadArgument)?;
        let osds = each_of(alloc, first_items(&given.osds, given.length)?)?;
        Ok(TempList { pg, osds })
    }
}

impl OfC<u16> for Place {
    ghost of_c = { given_place };

    fn of_c(_alloc: Global, given: &u16) -> Result<Place, Status> {
        if *given == NO_DEVICE {
            return Ok(Place::new(None));
        }
        let osd = OsdId::new(*given).ok_or(Status::BadArgument)?;
        Ok(Place::new(Some(osd)))
    }
}
