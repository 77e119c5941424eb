ghost use Rattle.std.specs.Prelude.{◌≡◌, ◌<◌, ℕ, [], ◌∷◌, length, map, slice_get, slice_index_or, IfSome, IsSomeAnd, MatchOption, Some, true, false};
ghost use Rattle.pgp_ids.specs.declared.past.Past.{Past as PastInterval};
ghost use Rattle.pgp_interval.specs.InOrder.{AreInOrder, holds_epoch};
ghost use Rattle.pgp_ids.specs.Past.{raised_at};
ghost use Rattle.pgp_interval.specs.Raised.{raised};

use super::acting::can_write;
use pgp_code::Recoverable;
use pgp_ids::{Epoch, Past};

/// The place of the past interval whose flag rises as the group turns out to have been clean in this epoch.
pub fn place_to_raise<R: Recoverable>(code: &R, past: &[Past], epoch: Epoch) -> Option<usize>
    ensures within { IfSome result (λ place. place < length past.now) }
    ensures was { IfSome result (λ place. IsSomeAnd (slice_get past.now place) (λ p. p.rw ≡ false)) }
    ensures raised { AreInOrder past.now → MatchOption result
        (map (raised (R.enough code.now) (R.by_place code.now) (epoch ∷ [])) past.now ≡ past.now)
        (λ place. map (raised (R.enough code.now) (R.by_place code.now) (epoch ∷ [])) past.now
        ≡ raised_at place past.now) }
{
    let place = place_of(past, epoch)?;
    let interval = &past[place];
    if !interval.rw && can_write(code, &interval.members) {
        Some(place)
    } else {
        None
    }
}

/// The place of the past interval that holds the epoch, where one does.
fn place_of(past: &[Past], epoch: Epoch) -> Option<usize>
    ensures within { IfSome result (λ place. place < length past.now) }
    ensures here { AreInOrder past.now → IfSome result
        (λ place. (d : PastInterval) → holds_epoch epoch (slice_index_or past.now place d) ≡ true) }
    ensures others { AreInOrder past.now → (place : ℕ) (d : PastInterval) → place < length past.now
        → (result ≡ Some place → ⊥) → holds_epoch epoch (slice_index_or past.now place d) ≡ false }
{
    let place = past.partition_point(|interval| interval.last < epoch);
    if place < past.len() && past[place].first <= epoch {
        Some(place)
    } else {
        None
    }
}
