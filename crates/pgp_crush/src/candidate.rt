//! What one try of a placement comes to.

ghost use Rattle.std.specs.Prelude.{◌≡◌, ◌+◌, ◌<◌, ◌^◌, length};
ghost use Rattle.pgp_crush.specs.declared.out.TheConstants.{DEVICES};
ghost use Rattle.pgp_crush.specs.Descent.{rank_limit};
ghost use Rattle.pgp_crush.specs.Candidate.{input_of, device_of, leaf_of, candidate};

use super::descent::{Descent, Rank, descend};
use super::out::is_in_by;
use super::tree::Tree;
use pgp_ids::OsdId;

/// An item with the device below it, or that it is.
#[derive(Clone, Copy)]
pub struct Pick {
    pub item: i32,
    pub leaf: OsdId,
}

/// What one try came to.
#[derive(Clone, Copy)]
pub enum Candidate {
    /// A device, where a bucket was sought.
    Early,
    /// No item, or none with a device below it that is in.
    Unfit,
    /// An item with a device that is in.
    Fit(Pick),
}

/// What every try of a placement is given.
#[derive(Clone, Copy)]
pub(crate) struct Input<'a> {
    pub tree: &'a Tree,
    /// The weight of each device, in units of 1/0x10000.
    pub weights: &'a [u32],
    /// The input of the placement, as its group hashes.
    pub x: u32,
    /// The type of the items sought.
    pub kind: u8,
    ghost weighed: { length weights.now ≡ DEVICES },
}

impl Input<'_> {
    /// What one try comes to, each bucket choosing with its number by `rank`, and below the item found with the number
    /// with which that was chosen, raised by `more`.
    #[tactic(auto, unfolding(crate::specs::Candidate::candidate))]
    pub(crate) fn candidate(&self, rank: Rank, more: u8) -> Candidate
        requires { rank_limit rank + more < 2 ^ 32 }
        ensures { result ≡ candidate (input_of self.now.tree.now self.now.weights.now self.now.x self.now.kind) rank more }
    {
        let step = match descend(self.tree, self.x, rank, self.kind, self.tree.root()) {
            Descent::Early => return Candidate::Early,
            Descent::Empty => return Candidate::Unfit,
            Descent::Found(step) => step,
        };
        match leaf_of(self.tree, self.x, step.r + u32::from(more), step.item) {
            Some(leaf) if is_in_by(self.weights[usize::from(leaf.number())], self.x, leaf) =>
                Candidate::Fit(Pick {
                    item: step.item,
                    leaf,
                }),
            _ => Candidate::Unfit,
        }
    }
}

/// The device that the item is, or to which the way down from it leads if each bucket chooses with `r`.
#[tactic(auto, unfolding(crate::specs::Candidate::leaf_of), using(crate::proofs::DescentLemmas::descent_from_none))]
fn leaf_of(tree: &Tree, x: u32, r: u32, item: i32) -> Option<OsdId>
    ensures { result ≡ leaf_of tree.now x r item }
{
    if item >= 0 {
        return device_of(item);
    }
    let bucket = tree.bucket(item)?;
    match descend(tree, x, Rank::Same(r), 0, bucket) {
        Descent::Found(step) => device_of(step.item),
        _ => None,
    }
}

/// The device of this number, where it is one.
fn device_of(item: i32) -> Option<OsdId>
    ensures { result ≡ device_of item }
{
    OsdId::new(u16::try_from(item).ok()?)
}
