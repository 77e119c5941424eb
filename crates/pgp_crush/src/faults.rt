//! The tests that make a list of buckets a tree.

ghost use Rattle.std.specs.Prelude.{◌≡◌, ℤ, ◌<◌, ◌-◌, ◌^◌, None, map, length, sum, nat_lt, slice_get, true, false, IfOk, IfSome, IfNone, OnSome, OnErr, count_by, not};
ghost use Rattle.std.specs.List.{list_any, position_from};
ghost use Rattle.std.specs.Ordering.{int_eq};
ghost use Rattle.std.specs.HashSet as bag;
ghost use Rattle.std.specs.HashMap as hash;
ghost use Rattle.pgp_crush.specs.Bucket.{bucket_of, is_held, root_of, place_of};
ghost use Rattle.pgp_crush.specs.TreeFault.{items_of, fault_below_root, has_no_root, has_twice_held, reaches_kind, has_wrong_type, is_known, has_too_many, has_too_much_weight};

use super::depth::is_too_deep;
use super::fault::TreeFault;
use super::index::find_bucket;
use pgp_ids::{BucketSpec, OsdId};
use pgp_lists::has_repeat;
use std::alloc::{AllocError, Global};
use std::collections::{HashMap, HashSet};

/// How many buckets a tree has at most.
const MAX_BUCKETS: usize = 1024;

/// How many items a bucket has at most.
const MAX_ITEMS: usize = 256;

/// The first fault of a list with one root, if it has one.
///
/// `items` are the items of all buckets, `held` the set of them, and `index` has the place of each bucket.
#[tactic(auto, unfolding(crate::specs::TreeFault::fault_below_root))]
pub(crate) fn fault_below_root(
    alloc: Global,
    buckets: &[BucketSpec],
    items: &[i32],
    held: HashSet<i32>,
    index: &HashMap<i32, usize>,
) -> Result<Option<TreeFault>, AllocError>
    requires items_of { items.now ≡ items_of (map bucket_of buckets.now) }
    requires held_is { (q : ℤ) → bag.contains int_eq held q ≡ is_held (map bucket_of buckets.now) q }
    requires index_is { (q : ℤ) → hash.get int_eq index.now q ≡ place_of (map bucket_of buckets.now) q 0 }
    ensures { IfOk result (λ fault. fault ≡ fault_below_root (map bucket_of buckets.now)) }
{
    if has_twice_held(alloc, buckets, items)? {
        return Ok(Some(TreeFault::TwiceHeld));
    }
    if has_wrong_type(buckets, index) {
        return Ok(Some(TreeFault::WrongType));
    }
    if has_unknown(buckets, index, items) {
        return Ok(Some(TreeFault::Unknown));
    }
    if is_too_deep(alloc, buckets, held)? {
        return Ok(Some(TreeFault::TooDeep));
    }
    if has_too_many(buckets) {
        return Ok(Some(TreeFault::TooMany));
    }
    if has_too_much_weight(buckets) {
        return Ok(Some(TreeFault::WeightSum));
    }
    Ok(None)
}

/// A bucket's id is twice in the list, or an item in two places.
fn has_twice_held(alloc: Global, buckets: &[BucketSpec], items: &[i32]) -> Result<bool, AllocError>
    requires { items.now ≡ items_of (map bucket_of buckets.now) }
    ensures { IfOk result (λ twice. twice ≡ has_twice_held (map bucket_of buckets.now)) }
{
    let ids = ids_of(alloc, buckets)?;
    Ok(has_repeat(alloc, &ids)? || has_repeat(alloc, items)?)
}

/// The items of all buckets.
pub(crate) fn items_of(alloc: Global, buckets: &[BucketSpec]) -> Result<Vec<i32>, AllocError>
    ensures value { IfOk result (λ items. items.items ≡ items_of (map bucket_of buckets.now)) }
    ensures wants { OnErr result (0 < length (items_of (map bucket_of buckets.now))) }
{
    let mut items = Vec::new(alloc);
    for bucket in buckets {
        items.extend_from_slice(bucket.items.as_slice())?;
    }
    Ok(items)
}

/// The ids of the buckets.
fn ids_of(alloc: Global, buckets: &[BucketSpec]) -> Result<Vec<i32>, AllocError>
    ensures { IfOk result (λ ids. ids.items ≡ map (λ b. b.id) (map bucket_of buckets.now)) }
{
    let mut ids = Vec::new(alloc);
    for bucket in buckets {
        ids.push(bucket.id)?;
    }
    Ok(ids)
}

/// The place of the one bucket that isn't held, where there is just one.
#[tactic(auto, using(crate::proofs::TreeLemmas::root_steps))]
pub(crate) fn find_root(buckets: &[BucketSpec], held: &HashSet<i32>) -> Option<usize>
    requires { (q : ℤ) → bag.contains int_eq held.now q ≡ is_held (map bucket_of buckets.now) q }
    ensures none { IfNone result (has_no_root (map bucket_of buckets.now) ≡ true) }
    ensures one { OnSome result (has_no_root (map bucket_of buckets.now) ≡ false) }
    ensures place { IfSome result (λ place. root_of (map bucket_of buckets.now) ≡ slice_get (map bucket_of buckets.now) place) }
    ensures within { IfSome result (λ place. place < length buckets.now) }
{
    let root = root_place(buckets, held)?;
    (root_count(buckets, held) == 1).then_some(root)
}

/// The place of the first bucket that isn't held.
fn root_place(buckets: &[BucketSpec], held: &HashSet<i32>) -> Option<usize>
    requires { (q : ℤ) → bag.contains int_eq held.now q ≡ is_held (map bucket_of buckets.now) q }
    ensures first { result ≡ position_from (λ b. not (is_held (map bucket_of buckets.now) b.id)) 0 buckets.now }
    ensures within { IfSome result (λ place. place < length buckets.now) }
{
    buckets.iter().position(|bucket| !held.contains(&bucket.id))
}

/// How many buckets aren't held.
fn root_count(buckets: &[BucketSpec], held: &HashSet<i32>) -> usize
    requires { (q : ℤ) → bag.contains int_eq held.now q ≡ is_held (map bucket_of buckets.now) q }
    ensures { result ≡ count_by (λ b. not (is_held (map bucket_of buckets.now) b.id)) (map bucket_of buckets.now) }
{
    buckets
        .iter()
        .filter(|bucket| !held.contains(&bucket.id))
        .count()
}

/// A bucket's type is 0, or not above that of each bucket in it.
fn has_wrong_type(buckets: &[BucketSpec], index: &HashMap<i32, usize>) -> bool
    requires { (q : ℤ) → hash.get int_eq index.now q ≡ place_of (map bucket_of buckets.now) q 0 }
    ensures { result ≡ has_wrong_type (map bucket_of buckets.now) }
{
    buckets.iter().any(|bucket| {
        bucket.kind == 0 || any_reaches(buckets, index, bucket.kind, bucket.items.as_slice())
    })
}

/// Some item is a bucket of this type or of one above it.
fn any_reaches(buckets: &[BucketSpec], index: &HashMap<i32, usize>, kind: u8, items: &[i32]) -> bool
    requires { (q : ℤ) → hash.get int_eq index.now q ≡ place_of (map bucket_of buckets.now) q 0 }
    ensures { result ≡ list_any (reaches_kind (map bucket_of buckets.now) kind) items.now }
{
    items
        .iter()
        .any(|item| reaches_kind(buckets, index, kind, *item))
}

/// The item is a bucket of this type or of one above it.
fn reaches_kind(buckets: &[BucketSpec], index: &HashMap<i32, usize>, kind: u8, item: i32) -> bool
    requires { (q : ℤ) → hash.get int_eq index.now q ≡ place_of (map bucket_of buckets.now) q 0 }
    ensures { result ≡ reaches_kind (map bucket_of buckets.now) kind item }
{
    match find_bucket(buckets, index, item) {
        Some(bucket) => bucket.kind >= kind,
        None => false,
    }
}

/// Some item is neither a bucket of the list nor a device.
fn has_unknown(buckets: &[BucketSpec], index: &HashMap<i32, usize>, items: &[i32]) -> bool
    requires { (q : ℤ) → hash.get int_eq index.now q ≡ place_of (map bucket_of buckets.now) q 0 }
    ensures { result ≡ list_any (λ item. not (is_known (map bucket_of buckets.now) item)) items.now }
{
    items.iter().any(|item| !is_known(buckets, index, *item))
}

/// The item is a bucket of the list, or a device.
fn is_known(buckets: &[BucketSpec], index: &HashMap<i32, usize>, item: i32) -> bool
    requires { (q : ℤ) → hash.get int_eq index.now q ≡ place_of (map bucket_of buckets.now) q 0 }
    ensures { result ≡ is_known (map bucket_of buckets.now) item }
{
    if item >= 0 {
        item <= i32::from(OsdId::MAX)
    } else {
        find_bucket(buckets, index, item).is_some()
    }
}

/// There are more than 1,024 buckets, or more than 256 items in one.
fn has_too_many(buckets: &[BucketSpec]) -> bool
    ensures { result ≡ has_too_many (map bucket_of buckets.now) }
{
    buckets.len() > MAX_BUCKETS || buckets.iter().any(|bucket| bucket.items.len() > MAX_ITEMS)
}

/// The weights of a bucket make more than 2^32 - 1.
fn has_too_much_weight(buckets: &[BucketSpec]) -> bool
    ensures { result ≡ has_too_much_weight (map bucket_of buckets.now) }
{
    buckets
        .iter()
        .any(|bucket| exceeds_word(bucket.weights.as_slice()))
}

/// The weights make more than 2^32 - 1.
#[tactic(auto, using(std::proofs::lemmas::Grind::common_steps, std::proofs::lemmas::Bool::Decides::nat_tests))]
fn exceeds_word(weights: &[u32]) -> bool
    ensures { result ≡ nat_lt (2 ^ 32 - 1) (sum weights.now) }
{
    let mut total: u32 = 0;
    for weight in weights {
        match total.checked_add(*weight) {
            Some(more) => total = more,
            None => return true,
        }
    }
    false
}
