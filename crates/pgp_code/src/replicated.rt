ghost use Rattle.pgp_code.specs.Enough.{enough_copies, enough_copies-mono, enough_copies-nil};
ghost use Rattle.std.specs.Prelude.{false};

use super::recoverable::Recoverable;
use pgp_ids::SlotSet;

/// Whole copies: every member has slot 0, and one copy is enough.
#[derive(Clone, Copy, Debug, PartialEq, Eq)]
pub struct Replicated;

impl Recoverable for Replicated {
    ghost enough = { λ _ slots. enough_copies slots };

    ghost by_place = { λ _. false };

    ghost monotone = { λ _ a b. enough_copies-mono a b };

    ghost empty_is_short = { λ _. enough_copies-nil };

    fn enough(&self, have: SlotSet) -> bool {
        have.count() > 0
    }

    fn by_place(&self) -> bool {
        false
    }
}
