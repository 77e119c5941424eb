//! Laws of the codes, as functions with nothing to do: what each says is its contract.

ghost use Rattle.std.specs.Prelude.{◌≡◌, ℕ, List, [], ◌∷◌, Option, true, false};
ghost use Rattle.pgp_ids.specs.SlotSet.{IsSlotSet, is_within};
ghost use Rattle.pgp_ids.specs.Parts.{are_parts};
ghost use Rattle.pgp_ids.specs.Pool as pool;
ghost use Rattle.pgp_ids.specs.declared.part.Part.{Part};
ghost use Rattle.pgp_ids.specs.declared.pool.PoolKind.{PoolKind};
ghost use Rattle.pgp_ids.specs.declared.pool.PoolKind.TheVariants.{Grouped};
ghost use Rattle.pgp_code.specs.AnyCode.{enough_of, is_by_place};
ghost use Rattle.pgp_code.specs.Enough.{enough_copies, enough_shards};
ghost use Rattle.pgp_code.specs.Parts.{enough_parts, pair_and_one};
ghost use Rattle.pgp_code.specs.Pool.{code_of};

use super::recoverable::Recoverable;

/// A replicated pool is served by one copy, and by no fewer.
pub fn copies()
    ensures one { enough_copies (0 ∷ []) ≡ true }
    ensures none { enough_copies [] ≡ false }
{}

/// Of a code with two data shards any two serve, also where a place between them is empty; one is too few.
pub fn shards()
    ensures apart { enough_shards 2 (0 ∷ 2 ∷ []) ≡ true }
    ensures more { enough_shards 2 (0 ∷ 1 ∷ 2 ∷ []) ≡ true }
    ensures one { enough_shards 2 (1 ∷ []) ≡ false }
{}

/// Of the slots 0 and 1 one has to be there, and slot 2: neither both of the first part nor the second alone are enough.
/// A slot of no part counts for nothing.
pub fn parts()
    ensures each { enough_parts pair_and_one (0 ∷ 2 ∷ []) ≡ true }
    ensures more { enough_parts pair_and_one (0 ∷ 1 ∷ 2 ∷ 3 ∷ []) ≡ true }
    ensures first_alone { enough_parts pair_and_one (0 ∷ 1 ∷ []) ≡ false }
    ensures second_alone { enough_parts pair_and_one (2 ∷ []) ≡ false }
    ensures of_no_part { enough_parts pair_and_one (2 ∷ 3 ∷ []) ≡ false }
{}

/// Parts that a grouped pool can have are a code of their own: slots are enough where they are for the parts.
#[tactic(auto, using(crate::proofs::PoolLemmas::pool_laws))]
pub fn pools_have_their_parts()
    ensures { (size : ℕ) (groups : List (Option Part)) (slots : List ℕ) → are_parts size groups ≡ true
        → enough_of (code_of (Grouped groups)) slots ≡ enough_parts groups slots }
{}

/// A pool's code places members as the pool does.
#[tactic(auto, using(crate::proofs::PoolLemmas::pool_laws))]
pub fn codes_place_as_pools()
    ensures { (kind : PoolKind) → is_by_place (code_of kind) ≡ pool.is_kind_by_place kind }
{}

/// Where slots aren't enough, no part of them is, by any code.
pub fn fewer_are_short<R: Recoverable>(code: &R)
    ensures { (a b : List ℕ) → IsSlotSet a → IsSlotSet b → is_within a b ≡ true
        → R.enough code.now b ≡ false → R.enough code.now a ≡ false }
{}
