//! The greatest number that was noted for each key.

ghost use Rattle.std.specs.Prelude.{◌≡◌, ◌+◌, [], ◌∷◌, List, ℕ, OnOk};
ghost use Rattle.pgp_compact.specs.kept.Greatest.{IsGreatestOf, reaches};

use std::alloc::{AllocError, Global};
use std::collections::HashMap;
use std::hash::Hash;

/// The greatest number that was noted for each key.
#[derive(Drop)]
pub(crate) struct Greatest<K: Eq + Hash> {
    table: HashMap<K, u32>,
}

impl<K: Eq + Hash + Drop> Greatest<K> {
    /// Nothing was noted.
    pub(crate) fn new(alloc: Global) -> Self
        ensures { IsGreatestOf K.eq [] result.table }
    {
        Greatest {
            table: HashMap::new(alloc),
        }
    }

    /// This number or a greater one was noted for the key.
    pub(crate) fn reaches(&self, key: &K, number: u32) -> bool
        ensures { (noted : List (K × ℕ)) → IsGreatestOf K.eq noted self.now.table → result ≡ reaches K.eq noted key.now number }
    {
        self.table.get(key).is_some_and(|most| number <= *most)
    }

    /// A greater number was noted for the key.
    pub(crate) fn exceeds(&self, key: &K, number: u32) -> bool
        ensures { (noted : List (K × ℕ)) → IsGreatestOf K.eq noted self.now.table → result ≡ reaches K.eq noted key.now (number + 1) }
    {
        self.table.get(key).is_some_and(|most| number < *most)
    }

    /// Notes a number for the key.
    pub(crate) fn note(&mut self, key: K, number: u32) -> Result<(), AllocError>
        ensures { OnOk result ((noted : List (K × ℕ)) → IsGreatestOf K.eq noted self.old.table → IsGreatestOf K.eq ((key, number) ∷ noted) self.new.table) }
    {
        let most = match self.table.get(&key) {
            Some(most) => number.max(*most),
            None => number,
        };
        self.table.insert(key, most)?;
        Ok(())
    }
}
