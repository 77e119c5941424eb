//! Checked placement trees.

ghost use Rattle.std.specs.Prelude.{◌≡◌, ◌<◌, ◌^◌, ◌⊎◌, map, sum, true, Some, None, Err, IfSome, IfOk, IfErr, OnOk};
ghost use Rattle.std.specs.Option.{option_copied, option_map};
ghost use Rattle.pgp_crush.specs.Bucket.{bucket_of, bucket_at, root_of};
ghost use Rattle.pgp_crush.specs.kept.Indexed.{IsIndexed};
ghost use Rattle.pgp_crush.specs.TreeFault.{tree_fault, may_lack_memory};

use super::fault::TreeFault;
use super::faults::{fault_below_root, find_root, items_of};
use super::index::{find_bucket, index_of, set_of};
use pgp_ids::BucketSpec;
use std::alloc::Global;
use std::collections::HashMap;
use std::marker::Model;

/// A placement tree without fault.
///
/// It is seen as the list of its buckets, in the order in which they were given.
pub struct Tree {
    buckets: Vec<BucketSpec>,
    /// The place of the bucket of each id.
    index: HashMap<i32, usize>,
    /// The place of the root.
    root: usize,
}

// Written out, so that a crate which lets one go has nothing to prove of what lies within.
impl Drop for Tree {
    fn drop(self) {
        let Tree {
            buckets: _,
            index: _,
            root: _,
        } = self;
    }
}

impl Model for Tree {
    ghost use Rattle.std.specs.Prelude.{List};
    ghost use Rattle.pgp_crush.specs.Bucket.{Bucket};

    ghost Value = { List Bucket };

    ghost use Rattle.pgp_crush.specs.Tree.{buckets_of, IsChecked};

    ghost view = { buckets_of };

    ghost invariant = { IsChecked };
}

impl Tree {
    /// The tree of these buckets, or the first fault of the list in the order of [`TreeFault`]. A list without items and without
    /// one root has its fault answered without memory.
    pub fn check(alloc: Global, buckets: Vec<BucketSpec>) -> Result<Tree, TreeFault>
        ensures ok { IfOk result (λ tree. tree ≡ map bucket_of buckets.items) }
        ensures faultless { OnOk result (tree_fault (map bucket_of buckets.items) ≡ None) }
        ensures fault { IfErr result (λ fault. (fault ≡ TreeFault.Memory) ⊎ (tree_fault (map bucket_of buckets.items) ≡ Some fault)) }
        ensures wants { result ≡ Err TreeFault.Memory → may_lack_memory (map bucket_of buckets.items) ≡ true }
    {
        let (root, index) = root_and_index(alloc, &buckets)?;
        Ok(Tree {
            buckets,
            index,
            root,
        })
    }

    /// Its buckets, in the order in which they were given.
    pub fn buckets(&self) -> &[BucketSpec]
        ensures { map bucket_of result.now ≡ self.now }
    {
        &self.buckets
    }

    /// The bucket that none holds.
    pub(crate) fn root(&self) -> &BucketSpec
        ensures value { Some (bucket_of result.now) ≡ root_of self.now }
        ensures weighed { sum result.now.weights < 2 ^ 32 }
    {
        &self.buckets[self.root]
    }

    /// The bucket of this id.
    pub(crate) fn bucket(&self, id: i32) -> Option<&BucketSpec>
        ensures value { option_map bucket_of (option_copied result) ≡ bucket_at self.now id }
        ensures weighed { IfSome result (λ b. sum b.now.weights < 2 ^ 32) }
    {
        find_bucket(&self.buckets, &self.index, id)
    }
}

/// The place of the root, and that of each bucket by its id; or the first fault of the list.
fn root_and_index(
    alloc: Global,
    buckets: &[BucketSpec],
) -> Result<(usize, HashMap<i32, usize>), TreeFault>
    ensures ok { IfOk result (λ found. IsIndexed buckets.now found.0 found.1) }
    ensures fault { IfErr result (λ fault. (fault ≡ TreeFault.Memory) ⊎ (tree_fault (map bucket_of buckets.now) ≡ Some fault)) }
    ensures wants { result ≡ Err TreeFault.Memory → may_lack_memory (map bucket_of buckets.now) ≡ true }
{
    let items = items_of(alloc, buckets)?;
    let held = set_of(alloc, &items)?;
    let Some(root) = find_root(buckets, &held) else {
        return Err(TreeFault::NoRoot);
    };
    let index = index_of(alloc, buckets)?;
    match fault_below_root(alloc, buckets, &items, held, &index)? {
        Some(fault) => Err(fault),
        None => Ok((root, index)),
    }
}
