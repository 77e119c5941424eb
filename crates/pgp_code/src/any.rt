ghost use Rattle.std.specs.Prelude.{◌≡◌};
ghost use Rattle.pgp_code.specs.Pool.{code_of};

use super::erasure::Erasure;
use super::grouped::Grouped;
use super::recoverable::Recoverable;
use super::replicated::Replicated;
use pgp_ids::{PoolKind, SlotSet};

/// The code of any pool.
#[derive(Clone, Copy, Debug)]
pub enum AnyCode {
    Replicated(Replicated),
    Erasure(Erasure),
    Grouped(Grouped),
}

impl AnyCode {
    /// The code of a pool of this kind. An erasure pool without data shards counts as one with one, and so does a grouped
    /// pool without parts or with a least number of 0. No map takes such a pool.
    pub fn of_pool(kind: PoolKind) -> Self
        ensures { result ≡ code_of kind }
    {
        match kind {
            PoolKind::Replicated => AnyCode::Replicated(Replicated),
            PoolKind::Erasure { k } => AnyCode::Erasure(Erasure::with_shards(k)),
            PoolKind::Grouped { groups } => match Grouped::new(groups) {
                Some(code) => AnyCode::Grouped(code),
                None => AnyCode::Erasure(Erasure::with_shards(1)),
            },
        }
    }
}

impl Recoverable for AnyCode {
    ghost use Rattle.pgp_code.specs.AnyCode.{enough_of, is_by_place, enough_of-mono, enough_of-nil};

    ghost enough = { enough_of };

    ghost by_place = { is_by_place };

    ghost monotone = { enough_of-mono };

    ghost empty_is_short = { enough_of-nil };

    fn enough(&self, have: SlotSet) -> bool {
        match self {
            AnyCode::Replicated(code) => code.enough(have),
            AnyCode::Erasure(code) => code.enough(have),
            AnyCode::Grouped(code) => code.enough(have),
        }
    }

    fn by_place(&self) -> bool {
        match self {
            AnyCode::Replicated(code) => code.by_place(),
            AnyCode::Erasure(code) => code.by_place(),
            AnyCode::Grouped(code) => code.by_place(),
        }
    }
}
