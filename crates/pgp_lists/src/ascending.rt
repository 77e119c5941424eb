ghost use Rattle.std.specs.Prelude.{◌≡◌, OnOk, OnErr};
ghost use Rattle.std.specs.Ordering.{is_lt};
ghost use Rattle.pgp_lists.specs.Ordered.{IsAscending, with_item};

use std::alloc::AllocError;

/// Puts the item into an ascending list, unless it is there. After an error the list is as before.
///
/// It finds the place by binary search, and moves what stands behind it by one.
pub fn insert_in_order<T: Ord + Drop>(list: &mut Vec<T>, item: T) -> Result<(), AllocError>
    requires { IsAscending (λ a b. is_lt (T.cmp a b)) list.old.items }
    ensures ok { OnOk result (list.new.items ≡ with_item (λ a b. is_lt (T.cmp a b)) item list.old.items) }
    ensures err { OnErr result (list.new.items ≡ list.old.items) }
{
    match list.binary_search(&item) {
        Ok(_) => Ok(()),
        Err(place) => Ok(list.insert(place, item)?),
    }
}
