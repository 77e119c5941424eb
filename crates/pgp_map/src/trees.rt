//! Placement trees that incrementals give.

ghost use Rattle.std.specs.Prelude.{◌≡◌, ◌⊎◌, map, option_map, true, Some, None, Err, IfOk, IfErr, OnOk, OnErr};
ghost use Rattle.pgp_crush.specs.Bucket.{bucket_of};
ghost use Rattle.pgp_crush.specs.TreeFault.{tree_fault};
ghost use Rattle.pgp_map.specs.MapFault.{given_fault};
ghost use Rattle.pgp_map.specs.Memory.{is_filled, has_bucket};

use super::fault::MapFault;
use pgp_crush::{Tree, TreeFault};
use pgp_ids::{BucketSpec, Seq};
use std::alloc::{AllocError, Global};

/// The tree of these buckets, or the first fault of the list.
pub(crate) fn tree_of(alloc: Global, buckets: &[BucketSpec]) -> Result<Tree, TreeFault>
    ensures ok { IfOk result (λ tree. tree ≡ map bucket_of buckets.now) }
    ensures faultless { OnOk result (tree_fault (map bucket_of buckets.now) ≡ None) }
    ensures fault { IfErr result (λ fault. (fault ≡ TreeFault.Memory) ⊎ (tree_fault (map bucket_of buckets.now) ≡ Some fault)) }
    ensures wants { result ≡ Err TreeFault.Memory → is_filled buckets.now ≡ true }
{
    let copies = copied_buckets(alloc, buckets)?;
    Tree::check(alloc, copies)
}

/// The first fault of the tree that an incremental gives, if it gives one.
#[tactic(auto, using(std::proofs::lemmas::Bool::Decides::nat_tests))]
pub(crate) fn check_tree(alloc: Global, crush: &Option<Seq<BucketSpec>>) -> Result<(), MapFault>
    ensures ok { OnOk result (given_fault crush.now ≡ None) }
    ensures fault { IfErr result (λ fault. (fault ≡ MapFault.Memory) ⊎ (given_fault crush.now ≡ Some fault)) }
    ensures wants { result ≡ Err MapFault.Memory → has_bucket crush.now ≡ true }
{
    match crush {
        None => Ok(()),
        Some(buckets) => match tree_of(alloc, buckets.as_slice()) {
            Ok(_tree) => Ok(()),
            Err(TreeFault::Memory) => Err(MapFault::Memory),
            Err(fault) => Err(MapFault::TreeFault(fault)),
        },
    }
}

/// The tree that an incremental gives, if it gives one. It is one without fault.
#[tactic(auto, using(std::proofs::lemmas::Bool::Decides::nat_tests))]
pub(crate) fn given_tree(
    alloc: Global,
    crush: &Option<Seq<BucketSpec>>,
) -> Result<Option<Tree>, AllocError>
    requires { given_fault crush.now ≡ None }
    ensures ok { IfOk result (λ tree. tree ≡ option_map (map bucket_of) crush.now) }
    ensures wants { OnErr result (has_bucket crush.now ≡ true) }
{
    match crush {
        None => Ok(None),
        Some(buckets) => match tree_of(alloc, buckets.as_slice()) {
            Ok(tree) => Ok(Some(tree)),
            Err(TreeFault::Memory) => Err(AllocError),
            Err(_fault) => unreachable!(),
        },
    }
}

/// Copies of these buckets.
#[tactic(auto, using(std::proofs::lemmas::Bool::Decides::nat_tests))]
pub fn copied_buckets(alloc: Global, buckets: &[BucketSpec]) -> Result<Vec<BucketSpec>, AllocError>
    ensures ok { IfOk result (λ copies. map bucket_of copies.items ≡ map bucket_of buckets.now) }
    ensures wants { OnErr result (is_filled buckets.now ≡ true) }
{
    let mut copies = Vec::new(alloc);
    for bucket in buckets {
        let copy = copy_of(alloc, bucket)?;
        copies.push(copy)?;
    }
    Ok(copies)
}

/// A copy of the bucket.
fn copy_of(alloc: Global, bucket: &BucketSpec) -> Result<BucketSpec, AllocError>
    ensures { IfOk result (λ copy. bucket_of copy ≡ bucket_of bucket.now) }
{
    let items = Vec::from_slice(alloc, bucket.items.as_slice())?;
    let weights = Vec::from_slice(alloc, bucket.weights.as_slice())?;
    Ok(BucketSpec {
        id: bucket.id,
        kind: bucket.kind,
        alg: bucket.alg,
        items: Seq::from_vec(items),
        weights: Seq::from_vec(weights),
    })
}
