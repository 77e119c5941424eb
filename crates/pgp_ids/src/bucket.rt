ghost use Rattle.std.specs.Prelude.{◌≡◌, pos, negsuc, ◌≤ℤ◌, ◌<ℤ◌, length};
ghost use Rattle.pgp_ids.specs.Bucket.{weight_count};

use super::seq::Seq;

/// How a bucket chooses one of its items (CRUSH's bucket types).
#[derive(Clone, Copy, Debug, PartialEq, Eq)]
pub enum BucketAlg {
    /// All items are equally likely.
    Uniform,
    /// Each item has a weight, and the last ones are tried first.
    List,
    /// Each item has a weight, and draws by itself.
    Straw2,
}

/// One bucket of a placement tree, as a map incremental gives it.
#[derive(Debug, PartialEq, Eq, Drop)]
pub struct BucketSpec {
    /// -65536 to -1.
    pub id: i32,
    /// The level of the bucket, as host or rack: 1 to 255, above that of each bucket in it. A device has 0.
    pub kind: u8,
    pub alg: BucketAlg,
    /// The items in order: a bucket by its id, or a device by its number, which isn't negative.
    pub items: Seq<i32>,
    /// The weights of the items in units of 1/0x10000; a uniform bucket has none.
    pub weights: Seq<u32>,
    ghost low: { negsuc 65535 ≤ℤ id },
    ghost negative: { id <ℤ pos 0 },
    ghost weighed: { length weights ≡ weight_count alg (length items) },
}
