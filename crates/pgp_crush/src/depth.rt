//! How many levels of buckets stand above one another.

ghost use Rattle.std.specs.Prelude.{◌≡◌, ℤ, map, filter, IfOk};
ghost use Rattle.std.specs.List.{list_any};
ghost use Rattle.std.specs.Ordering.{int_eq};
ghost use Rattle.std.specs.HashSet as bag;
ghost use Rattle.pgp_crush.specs.Bucket.{bucket_of, is_held};
ghost use Rattle.pgp_crush.specs.TreeFault.{items_of, is_too_deep};

use super::descent::LEVELS;
use super::index::set_of;
use pgp_ids::BucketSpec;
use std::alloc::{AllocError, Global};
use std::collections::HashSet;

/// More than 10 levels of buckets stand above one another. `held` has the items of all buckets.
pub(crate) fn is_too_deep(
    alloc: Global,
    buckets: &[BucketSpec],
    held: HashSet<i32>,
) -> Result<bool, AllocError>
    requires { (q : ℤ) → bag.contains int_eq held q ≡ is_held (map bucket_of buckets.now) q }
    ensures { IfOk result (λ deep. deep ≡ is_too_deep (map bucket_of buckets.now)) }
{
    let mut below = held;
    for _level in 1..LEVELS {
        let items = items_within(alloc, buckets, &below)?;
        if items.is_empty() {
            return Ok(false);
        }
        below = set_of(alloc, &items)?;
    }
    Ok(buckets.iter().any(|bucket| below.contains(&bucket.id)))
}

/// The items of the buckets whose ids are in the set.
fn items_within(
    alloc: Global,
    buckets: &[BucketSpec],
    ids: &HashSet<i32>,
) -> Result<Vec<i32>, AllocError>
    ensures { IfOk result (λ items. items.items ≡ items_of (filter (λ b. bag.contains int_eq ids.now b.id) (map bucket_of buckets.now))) }
{
    let mut items = Vec::new(alloc);
    for bucket in buckets {
        if ids.contains(&bucket.id) {
            items.extend_from_slice(bucket.items.as_slice())?;
        }
    }
    Ok(items)
}
