//! The versions of the format, and what each has.
ghost use Rattle.std.specs.Prelude.{◌≡◌};
ghost use Rattle.pgp_lines.specs.Value.{view};
ghost use Rattle.pgp_lines.specs.LineFault.{IsRead};
ghost use Rattle.pgp_lines.specs.Format.{format_number, format_of, read_in, judged, has_pool_kind, has_alg, has_after, has_pools, has_tree, judged_at};
ghost use Rattle.std.specs.List.{list_all};

use super::fields::or_bad_field;
use super::numbers::read_number;
use super::trail::Wanted;
use super::value::Value;
use pgp_ids::{BucketAlg, BucketSpec, PoolKind, PoolSpec, Seq, TextFault};
use std::alloc::Global;

/// A version of the format. A line names its version at `v`, by its number, and lines are read up to some version: each has
/// what the ones before it have.
#[derive(Clone, Copy, Debug, PartialEq, Eq)]
pub enum Format {
    /// What a line is of that names no version.
    One,
    /// It has grouped pools too. Lines are read up to it where nobody asks for a later one.
    Two,
    /// It has straw2 buckets too, and the key `after` of an incremental. It is read on request.
    Three,
}

/// The version that a line names, or `None` where its `v` is no number from 1 to that of the last version.
pub(super) fn read_format(value: &Value<'_, '_>, last: Format) -> Option<Format>
    ensures { result ≡ format_of last (view value.now) }
{
    let Some(v) = value.get("v") else {
        return Some(Format::One);
    };
    Some(match read_number(&v, 1, u64::from(last.number()))? {
        1 => Format::One,
        2 => Format::Two,
        _ => Format::Three,
    })
}

/// The version in which the other keys of a line are read: a line whose `v` is bad is read in the last.
pub(super) fn read_in(last: Format, format: Option<Format>) -> Format
    ensures { result ≡ read_in last format }
{
    format.unwrap_or(last)
}

/// The version that a line names, or `BadField` of `v`.
pub(super) fn judge_format(
    alloc: Global,
    value: &Value<'_, '_>,
    format: Option<Format>,
) -> Result<Format, TextFault>
    ensures { IsRead result (judged format) }
{
    value.look_at("v", Wanted::Words("a version in which lines are read"));
    or_bad_field(alloc, format, "v")
}

/// `BadField` of a key whose value the version of its line hasn't.
pub(super) fn judge_at(
    alloc: Global,
    value: &Value<'_, '_>,
    key: &'static str,
    has: bool,
) -> Result<(), TextFault>
    ensures { IsRead result (judged_at key.now has) }
{
    value.look_at(key, Wanted::Words("what a line of its version can have"));
    or_bad_field(alloc, has.then_some(()), key)
}

impl Format {
    /// Its number.
    pub fn number(self) -> u8
        ensures { result ≡ format_number self }
    {
        match self {
            Format::One => 1,
            Format::Two => 2,
            Format::Three => 3,
        }
    }

    /// Whether it has pools, and codes of traces, of this kind.
    pub(super) fn has_kind(self, kind: &PoolKind) -> bool
        ensures { result ≡ has_pool_kind self kind.now }
    {
        match kind {
            PoolKind::Replicated | PoolKind::Erasure { .. } => true,
            PoolKind::Grouped { .. } => self.number() >= 2,
        }
    }

    /// Whether it has buckets that choose so.
    fn has_alg(self, alg: BucketAlg) -> bool
        ensures { result ≡ has_alg self alg }
    {
        match alg {
            BucketAlg::Uniform | BucketAlg::List => true,
            BucketAlg::Straw2 => self.number() >= 3,
        }
    }

    /// Whether it has the key `after` of an incremental.
    pub fn has_after(self) -> bool
        ensures { result ≡ has_after self }
    {
        matches!(self, Format::Three)
    }

    /// Whether it has each of these pools.
    pub(super) fn has_pools(self, pools: &[PoolSpec]) -> bool
        ensures { result ≡ has_pools self pools.now }
    {
        pools.iter().all(|pool| self.has_kind(&pool.kind))
    }

    /// Whether it has each bucket of the tree, where there is one.
    pub fn has_tree(self, tree: &Option<Seq<BucketSpec>>) -> bool
        ensures { result ≡ has_tree self tree.now }
    {
        match tree {
            Some(buckets) => self.has_buckets(buckets.as_slice()),
            None => true,
        }
    }

    fn has_buckets(self, buckets: &[BucketSpec]) -> bool
        ensures { result ≡ list_all (λ bucket. has_alg self bucket.alg) buckets.now }
    {
        buckets.iter().all(|bucket| self.has_alg(bucket.alg))
    }
}
