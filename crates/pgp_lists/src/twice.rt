//! Lists in which an item is twice.

ghost use Rattle.std.specs.Prelude.{◌≡◌, IfOk};
ghost use Rattle.pgp_lists.specs.Repeats.{has_repeat};

use std::alloc::{AllocError, Global};
use std::collections::HashSet;
use std::hash::Hash;

/// Some item is twice in the list.
pub fn has_repeat<T: Copy + Eq + Hash>(alloc: Global, items: &[T]) -> Result<bool, AllocError>
    ensures { IfOk result (λ repeated. repeated ≡ has_repeat T.eq items.now) }
{
    let mut seen = HashSet::new(alloc);
    for item in items {
        if !seen.insert(*item)? {
            return Ok(true);
        }
    }
    Ok(false)
}
