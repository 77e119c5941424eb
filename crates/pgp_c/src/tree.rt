//! The placement tree of a map incremental, as C gives it.

ghost use Rattle.pgp_c.specs.Each.{IsGiven};
ghost use Rattle.pgp_c.specs.Tree.{alg_numbered, given_bucket, item_of, weight_of, weights_of};

use super::each::{OfC, each_of};
use super::status::Status;
use pgp_ids::{BucketAlg, BucketSpec, Seq};
use pgp_lines::bucket_of;
use std::alloc::Global;

const LEAST_ITEM: i32 = -65536;

const GREATEST_ITEM: i32 = 65535;

/// An item of a bucket.
#[repr(C)]
pub struct PgpItem {
    /// A bucket by its id, or a device by its number: -65,536 to 65,535.
    pub id: i32,
    /// Its weight, in units of 1/0x10000. Of a uniform bucket it is no matter.
    pub weight: u32,
}

/// A bucket of the tree.
#[repr(C)]
pub struct PgpBucket<'a> {
    /// -65,536 to -1.
    pub id: i32,
    /// Its type: its level, as host or rack.
    pub kind: u8,
    /// How it chooses one of its items. 0: uniform; 1: list; 2: straw2.
    pub alg: u8,
    pub items: &'a [PgpItem],
}

impl OfC<PgpItem> for i32 {
    ghost of_c = { item_of };

    fn of_c(_alloc: Global, given: &PgpItem) -> Result<i32, Status> {
        if given.id < LEAST_ITEM || given.id > GREATEST_ITEM {
            return Err(Status::BadArgument);
        }
        Ok(given.id)
    }
}

impl OfC<PgpItem> for u32 {
    ghost of_c = { weight_of };

    fn of_c(_alloc: Global, given: &PgpItem) -> Result<u32, Status> {
        Ok(given.weight)
    }
}

impl<'a> OfC<PgpBucket<'a>> for BucketSpec {
    ghost of_c = { given_bucket };

    fn of_c(alloc: Global, given: &PgpBucket<'a>) -> Result<BucketSpec, Status> {
        let alg = alg_of(given.alg)?;
        let items = each_of(alloc, given.items)?;
        let weights = weights_of(alloc, alg, given.items)?;
        bucket_of(given.id, given.kind, alg, items, weights).ok_or(Status::BadArgument)
    }
}

/// How a bucket of this number chooses.
fn alg_of(number: u8) -> Result<BucketAlg, Status>
    ensures { IsGiven result (alg_numbered number) }
{
    match number {
        0 => Ok(BucketAlg::Uniform),
        1 => Ok(BucketAlg::List),
        2 => Ok(BucketAlg::Straw2),
        _ => Err(Status::BadArgument),
    }
}

/// The weights of the items, of which a uniform bucket has none.
fn weights_of(alloc: Global, alg: BucketAlg, items: &[PgpItem]) -> Result<Seq<u32>, Status>
    ensures { IsGiven result (weights_of alg items.now) }
{
    match alg {
        BucketAlg::Uniform => Ok(Seq::new(alloc)),
        BucketAlg::List | BucketAlg::Straw2 => each_of(alloc, items),
    }
}
