//! The buckets of a placement tree.
ghost use Rattle.std.specs.Prelude.{◌≡◌, map, IfOk};
ghost use Rattle.pgp_lines.specs.Value.{view};
ghost use Rattle.pgp_lines.specs.MadeBucket.{bucket_from};
ghost use Rattle.pgp_lines.specs.Buckets.{bucket_item_in, alg_in, bucket_keys, head_in, weights_in, bucket_in};

use super::fields::{read_at, read_field};
use super::lists::{Plain, Shape};
use super::numbers::read_integer;
use super::objects::has_only;
use super::value::Value;
use pgp_ids::{BucketAlg, BucketSpec, Seq};
use std::alloc::{AllocError, Global};

const LEAST_ID: i32 = -65536;

const GREATEST_ITEM: i64 = 65535;

/// A bucket: its head and its lists. It has as many weights as items, or none in a uniform bucket.
impl Shape for BucketSpec {
    ghost shape = { bucket_in };

    fn read(alloc: Global, value: &Value<'_, '_>) -> Result<Option<BucketSpec>, AllocError> {
        let Some(head) = read_head(value) else {
            return Ok(None);
        };
        let Some(items) = read_field(alloc, value, "items")? else {
            return Ok(None);
        };
        match read_weights(alloc, value, head.alg)? {
            Some(weights) => Ok(bucket_of(head.id, head.kind, head.alg, items, weights)),
            None => Ok(None),
        }
    }
}

/// An item of a bucket: a bucket by its id, or a device by its number, -65536 to 65535.
impl Plain for i32 {
    ghost plain = { bucket_item_in };

    fn from_value(value: &Value<'_, '_>) -> Option<i32> {
        let item = read_integer(value, i64::from(LEAST_ID), GREATEST_ITEM)?;
        Some(item as i32)
    }
}

impl Plain for BucketAlg {
    ghost plain = { alg_in };

    fn from_value(value: &Value<'_, '_>) -> Option<BucketAlg> {
        match value.as_str()? {
            "uniform" => Some(BucketAlg::Uniform),
            "list" => Some(BucketAlg::List),
            "straw2" => Some(BucketAlg::Straw2),
            _ => None,
        }
    }
}

/// The keys of a bucket's object, in ascending byte order.
fn bucket_keys(alg: BucketAlg) -> &'static [&'static str]
    ensures { map (λ k. k.now) result.now ≡ bucket_keys alg }
{
    match alg {
        BucketAlg::Uniform => &["alg", "id", "items", "type"],
        BucketAlg::List | BucketAlg::Straw2 => &["alg", "id", "items", "type", "weights"],
    }
}

/// What a bucket is, its lists aside.
#[derive(Clone, Copy)]
struct Head {
    alg: BucketAlg,
    id: i32,
    kind: u8,
}

/// The head of an object with no keys but those of its kind. The id of a bucket is -65536 to -1.
fn read_head(value: &Value<'_, '_>) -> Option<Head>
    ensures { result ≡ head_in (view value.now) }
{
    let alg = read_at(value, "alg")?;
    if !has_only(value, bucket_keys(alg)) {
        return None;
    }
    let id = read_integer(&value.get("id")?, i64::from(LEAST_ID), -1)?;
    let kind = read_at(value, "type")?;
    Some(Head {
        alg,
        id: id as i32,
        kind,
    })
}

/// The weights, of which a uniform bucket has none.
fn read_weights(
    alloc: Global,
    value: &Value<'_, '_>,
    alg: BucketAlg,
) -> Result<Option<Seq<u32>>, AllocError>
    ensures { IfOk result (λ found. found ≡ weights_in alg (view value.now)) }
{
    match alg {
        BucketAlg::Uniform => Ok(Some(Seq::new(alloc))),
        BucketAlg::List | BucketAlg::Straw2 => read_field(alloc, value, "weights"),
    }
}

/// The bucket of these parts, where its id is one of a bucket and it has as many weights as it needs.
pub fn bucket_of(
    id: i32,
    kind: u8,
    alg: BucketAlg,
    items: Seq<i32>,
    weights: Seq<u32>,
) -> Option<BucketSpec>
    ensures { result ≡ bucket_from id kind alg items weights }
{
    let wanted = match alg {
        BucketAlg::Uniform => 0,
        BucketAlg::List | BucketAlg::Straw2 => items.len(),
    };
    if id < LEAST_ID || id >= 0 || weights.len() != wanted {
        return None;
    }
    Some(BucketSpec {
        id,
        kind,
        alg,
        items,
        weights,
    })
}
