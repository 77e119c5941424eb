ghost use Rattle.pgp_code.specs.Enough.{enough_shards, enough_shards-mono, enough_shards-nil};
ghost use Rattle.std.specs.Prelude.{◌≡◌, ◌≤◌, max, true};

use super::recoverable::Recoverable;
use pgp_ids::SlotSet;

/// An erasure code: each member holds the shard of its place, and any `k` shards are enough.
#[derive(Clone, Copy, Debug, PartialEq, Eq)]
pub struct Erasure {
    pub k: u8,
    ghost at_least_one: { 1 ≤ k },
}

impl Erasure {
    /// The code of `k` data shards, or of one where `k` is 0.
    pub fn with_shards(k: u8) -> Self
        ensures { result.k ≡ max k 1 }
    {
        Erasure { k: k.max(1) }
    }
}

impl Recoverable for Erasure {
    ghost enough = { λ code slots. enough_shards code.k slots };

    ghost by_place = { λ _. true };

    ghost monotone = { λ code a b. enough_shards-mono code.k a b };

    ghost empty_is_short = { λ code. enough_shards-nil code.k code.at_least_one };

    fn enough(&self, have: SlotSet) -> bool {
        have.count() >= u32::from(self.k)
    }

    fn by_place(&self) -> bool {
        true
    }
}
