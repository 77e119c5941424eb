//! Sets of ids, and where each bucket of a list stands.

ghost use Rattle.std.specs.Prelude.{◌≡◌, ◌<◌, ℤ, length, map, IfOk, OnErr};
ghost use Rattle.std.specs.List.{list_any};
ghost use Rattle.std.specs.Ordering.{int_eq};
ghost use Rattle.std.specs.HashSet as bag;
ghost use Rattle.std.specs.HashMap as hash;
ghost use Rattle.std.specs.Option.{option_copied, option_map};
ghost use Rattle.pgp_crush.specs.Bucket.{bucket_of, bucket_at, place_of};

use pgp_ids::BucketSpec;
use std::alloc::{AllocError, Global};
use std::collections::{HashMap, HashSet};

/// The set of these ids.
pub(crate) fn set_of(alloc: Global, ids: &[i32]) -> Result<HashSet<i32>, AllocError>
    ensures value { IfOk result (λ set. (q : ℤ) → bag.contains int_eq set q ≡ list_any (int_eq q) ids.now) }
    ensures wants { OnErr result (0 < length ids.now) }
{
    let mut set = HashSet::new(alloc);
    for id in ids {
        set.insert(*id)?;
    }
    Ok(set)
}

/// Where the first bucket of each id stands.
pub(crate) fn index_of(
    alloc: Global,
    buckets: &[BucketSpec],
) -> Result<HashMap<i32, usize>, AllocError>
    ensures { IfOk result (λ index. (q : ℤ) → hash.get int_eq index q ≡ place_of (map bucket_of buckets.now) q 0) }
{
    let mut index = HashMap::new(alloc);
    let mut place = buckets.len();
    while place > 0 {
        place -= 1;
        let id = buckets[place].id;
        index.insert(id, place)?;
    }
    Ok(index)
}

/// The bucket of this id, by the index of the buckets.
pub(crate) fn find_bucket<'a>(
    buckets: &'a [BucketSpec],
    index: &HashMap<i32, usize>,
    id: i32,
) -> Option<&'a BucketSpec>
    requires { (q : ℤ) → hash.get int_eq index.now q ≡ place_of (map bucket_of buckets.now) q 0 }
    ensures { option_map bucket_of (option_copied result) ≡ bucket_at (map bucket_of buckets.now) id }
{
    let place = *index.get(&id)?;
    buckets.get(place)
}
