//! One level of a way down.

ghost use Rattle.std.specs.Prelude.{◌≡◌, ℕ, ◌+◌, ◌<◌, ◌≤◌, ◌^◌, Contains, length, sum, Some};
ghost use Rattle.pgp_crush.specs.declared.descent.Step.{Step};
ghost use Rattle.pgp_crush.specs.declared.descent.Descent.{Descent};
ghost use Rattle.pgp_crush.specs.declared.descent.Descent.TheVariants.{Found};
ghost use Rattle.pgp_crush.specs.declared.level.Level.TheVariants.{End, On};
ghost use Rattle.pgp_crush.specs.Bucket.{Bucket, bucket_of};
ghost use Rattle.pgp_crush.specs.Descent.{rank_limit, path, step_of, first_stop, at_step, end_of};

use super::chooser::Chooser;
use super::descent::{Descent, Rank, Step};
use super::list::List;
use super::straw2::Straw2;
use super::tree::Tree;
use super::uniform::Uniform;
use pgp_ids::{BucketAlg, BucketSpec};

/// What one level of a way down comes to.
#[derive(Clone, Copy)]
pub enum Level<'a> {
    /// The way down ends.
    End(Descent),
    /// It leads on into this bucket.
    On(&'a BucketSpec),
}

/// The level at this bucket of a way down that seeks an item of type `kind`.
#[tactic(auto, using(crate::proofs::DescentLemmas::level_steps))]
pub(crate) fn level_at<'a>(
    tree: &'a Tree,
    x: u32,
    rank: Rank,
    kind: u8,
    bucket: &BucketSpec,
) -> Level<'a>
    requires { sum bucket.now.weights < 2 ^ 32 }
    ensures value { (m : ℕ) → first_stop tree.now kind (path tree.now x rank (m + 1) (Some (bucket_of bucket.now)))
        ≡ end_of (λ b. first_stop tree.now kind (path tree.now x rank m (Some b))) result }
    ensures within { (step : Step) → result ≡ End (Found step) → step.r ≤ rank_limit rank }
    ensures weighed { (next : _) → result ≡ On next → sum next.now.weights < 2 ^ 32 }
{
    if bucket.items.is_empty() {
        return Level::End(Descent::Empty);
    }
    let r = rank.number_at(bucket);
    let id = bucket.id;
    let items = bucket.items.as_slice();
    let weights = bucket.weights.as_slice();
    match bucket.alg {
        BucketAlg::Uniform => level_by(tree, &Uniform { id, items }, x, r, kind),
        BucketAlg::List => level_by(tree, &List { id, items, weights }, x, r, kind),
        BucketAlg::Straw2 => level_by(tree, &Straw2 { items, weights }, x, r, kind),
    }
}

/// The level at a bucket that has items and chooses one of them as `chooser` does, with the number `r`.
fn level_by<'a, C: Chooser>(tree: &'a Tree, chooser: &C, x: u32, r: u32, kind: u8) -> Level<'a>
    requires { 0 < length (C.items chooser.now) }
    ensures value { (below : Bucket → Descent) → at_step tree.now kind (step_of (C.choice chooser.now x r) r) below ≡ end_of below result }
    ensures found { (step : Step) → result ≡ End (Found step) → step.r ≡ r }
    ensures item { (step : Step) → result ≡ End (Found step) → Contains (C.items chooser.now) step.item }
    ensures next { (next : _) → result ≡ On next → Contains (C.items chooser.now) next.now.id }
    ensures weighed { (next : _) → result ≡ On next → sum next.now.weights < 2 ^ 32 }
{
    let item = chooser.choose(x, r);
    let found = Level::End(Descent::Found(Step { item, r }));
    if item >= 0 {
        return if kind == 0 {
            found
        } else {
            Level::End(Descent::Early)
        };
    }
    match tree.bucket(item) {
        None => Level::End(Descent::Empty),
        Some(next) if next.kind == kind => found,
        Some(next) => Level::On(next),
    }
}
