//! The way down from a bucket to an item of a type.

ghost use Rattle.std.specs.Prelude.{◌≡◌, ◌<◌, ◌≤◌, ◌^◌, sum, Some};
ghost use Rattle.pgp_crush.specs.declared.descent.Step.{Step};
ghost use Rattle.pgp_crush.specs.declared.descent.Descent.TheVariants.{Found};
ghost use Rattle.pgp_crush.specs.Bucket.{bucket_of};
ghost use Rattle.pgp_crush.specs.Descent.{rank_at, rank_limit, descent};

use super::level::{Level, level_at};
use super::tree::Tree;
use pgp_ids::{BucketAlg, BucketSpec};

/// With which number `r` each bucket on a way down chooses.
#[derive(Clone, Copy)]
pub enum Rank {
    /// Each with this number.
    Same(u32),
    /// As position `.0` in round `.1` of `.2` positions.
    Spread(u8, u8, u8),
}

/// An item on a way down, and the number with which its bucket chose it.
#[derive(Clone, Copy)]
pub struct Step {
    pub item: i32,
    pub r: u32,
}

/// What a way down came to first.
#[derive(Clone, Copy)]
pub enum Descent {
    /// An item of the type sought.
    Found(Step),
    /// A device, where a bucket was sought.
    Early,
    /// An empty bucket.
    Empty,
}

/// How many levels of buckets a tree has at most.
pub(crate) const LEVELS: u8 = 10;

impl Rank {
    /// The number with which a bucket of this kind and number of items chooses.
    pub(crate) fn number_at(self, bucket: &BucketSpec) -> u32
        ensures value { result ≡ rank_at self (bucket_of bucket.now) }
        ensures within { result ≤ rank_limit self }
    {
        match self {
            Rank::Same(r) => r,
            Rank::Spread(position, round, n) => {
                let is_multiple = bucket.alg == BucketAlg::Uniform
                    && bucket.items.len().is_multiple_of(usize::from(n));
                let stride = u32::from(n) + u32::from(is_multiple);
                u32::from(position) + stride * u32::from(round)
            }
        }
    }
}

/// What the way down from the bucket `from` comes to first: an item of type `kind`, a device before it, or its end.
///
/// `x` is the input of the placement.
#[tactic(auto, using(crate::proofs::DescentLemmas::down_end))]
pub(crate) fn descend(tree: &Tree, x: u32, rank: Rank, kind: u8, from: &BucketSpec) -> Descent
    requires { sum from.now.weights < 2 ^ 32 }
    ensures value { result ≡ descent tree.now x rank kind (Some (bucket_of from.now)) }
    ensures within { (step : Step) → result ≡ Found step → step.r ≤ rank_limit rank }
{
    let mut bucket = from;
    for _level in 0..LEVELS {
        match level_at(tree, x, rank, kind, bucket) {
            Level::End(descent) => return descent,
            Level::On(next) => bucket = next,
        }
    }
    Descent::Empty
}
