ghost use Rattle.std.specs.Prelude.{◌≡◌, ℕ, ◌==◌, ◌≤◌, ◌<◌, ◌↔◌, List, length, Some, IsSome, IfSome, IfOk, OnErr, refl};
ghost use Rattle.pgp_ids.specs.ObjectName.{name_bytes, IsInPlace};
ghost use Rattle.std.specs.Cmp.{partial_equiv_from_equiv};
ghost use Rattle.std.specs.Cmp.Lexicographic.{pointwise, slice_cmp, nat_list_eq_equiv, nat_list_cmp_total, texts_po, texts_ties};
ghost use Rattle.std.specs.Ordering.{nat_cmp};

use arrayvec::ArrayString;
use std::alloc::{AllocError, Global};
use std::cmp::Ordering;
use std::fmt;
use std::marker::Model;

/// The name of an object: 1 to [`ObjectName::MAX_LEN`] bytes of UTF-8, which contracts see as the list of its bytes.
/// Names are ordered by their bytes. One of at most [`ObjectName::SHORT_LEN`] bytes lies in the value itself: to make it and
/// to copy it takes no memory.
#[derive(Debug)]
pub struct ObjectName {
    text: Repr,
}

/// The text of a name, in place or in memory of its own.
#[derive(Drop)]
enum Repr {
    Short(ArrayString<SHORT_LEN>),
    Long(String),
}

const SHORT_LEN: usize = 24;

impl Repr {
    fn as_str(&self) -> &str
        ensures { result.now ≡ name_bytes self.now }
    {
        match self {
            Repr::Short(short) => short.as_str(),
            Repr::Long(string) => string.as_str(),
        }
    }
}

impl fmt::Debug for Repr {
    fn fmt<W: fmt::Write>(&self, f: &mut fmt::Formatter<W>) -> fmt::Result {
        fmt::Debug::fmt(self.as_str(), f)
    }
}

// Written out, so that a crate which lets one go has nothing to prove of what lies within.
impl Drop for ObjectName {
    fn drop(self) {
        let ObjectName { text: _ } = self;
    }
}

impl Model for ObjectName {
    ghost Value = { List ℕ };

    ghost view = { λ n. name_bytes n.text };

    ghost invariant = { λ n. (1 ≤ length (name_bytes n.text)) × (length (name_bytes n.text) ≤ 255) × IsInPlace n.text };
}

impl ObjectName {
    /// How many bytes a name has at most.
    pub const MAX_LEN: usize = 255;

    /// How many bytes a name has at most that takes no memory.
    pub const SHORT_LEN: usize = SHORT_LEN;

    /// The name that is this text, where that is neither empty nor too long.
    pub fn new(alloc: Global, text: &str) -> Result<Option<Self>, AllocError>
        ensures in_range { IfOk result (λ name. IsSome name ↔ ((1 ≤ length text.now) × (length text.now ≤ Self.MAX_LEN))) }
        ensures value { IfOk result (λ name. IfSome name (λ n. n ≡ text.now)) }
        ensures memory { OnErr result ((Self.SHORT_LEN < length text.now) × (length text.now ≤ Self.MAX_LEN)) }
    {
        if text.is_empty() || text.len() > Self::MAX_LEN {
            return Ok(None);
        }
        let text = match ArrayString::from(text) {
            Ok(short) => Repr::Short(short),
            Err(_) => Repr::Long(String::from_str(alloc, text)?),
        };
        Ok(Some(ObjectName { text }))
    }

    /// The text of the name.
    pub fn as_str(&self) -> &str
        ensures value { result.now ≡ self.now }
        ensures some { 1 ≤ length result.now }
        ensures within { length result.now ≤ Self.MAX_LEN }
    {
        self.text.as_str()
    }
}

impl Clone for ObjectName {
    fn clone(&self) -> Result<Self, AllocError>
        ensures value { IfOk result (λ name. name ≡ self.now) }
        ensures memory { OnErr result (ObjectName.SHORT_LEN < length self.now) }
    {
        let text = match &self.text {
            Repr::Short(short) => Repr::Short(*short),
            Repr::Long(string) => Repr::Long(string.clone()?),
        };
        Ok(ObjectName { text })
    }
}

impl PartialEq for ObjectName {
    ghost eq = { pointwise ◌==◌ };

    ghost laws = { partial_equiv_from_equiv nat_list_eq_equiv };

    fn eq(&self, other: &ObjectName) -> bool {
        self.as_str() == other.as_str()
    }
}

impl Eq for ObjectName {
    ghost laws = { nat_list_eq_equiv };
}

impl PartialOrd for ObjectName {
    ghost partial_cmp = { λ a b. Some (slice_cmp nat_cmp a b) };

    ghost laws = { texts_po };

    fn partial_cmp(&self, other: &ObjectName) -> Option<Ordering> {
        Some(self.cmp(other))
    }
}

impl Ord for ObjectName {
    ghost cmp = { slice_cmp nat_cmp };

    ghost total = { nat_list_cmp_total };

    ghost matches_partial_cmp = { λ a b. refl };

    ghost matches_eq = { λ a b. texts_ties a b };

    fn cmp(&self, other: &ObjectName) -> Ordering {
        self.as_str().cmp(&other.as_str())
    }
}
