ghost use Rattle.std.specs.Prelude.{◌≡◌, ℕ, ◌+◌, ◌<◌, ◌≤◌, ◌==◌, List, [], ◌∷◌, ◌++◌, Option, Some, None, length, is_some};
ghost use Rattle.pgp_ids.specs.Osds.{first_osd, osd_count};

use super::osd::OsdId;
use super::place::Place;
use arrayvec::ArrayVec;
use std::marker::Model;

/// How many places a list of devices has at most.
pub const MAX_OSDS: usize = 16;

/// A list of at most [`MAX_OSDS`] places, each of which holds a device or is empty (NONE).
///
/// In a replicated pool the places have no meaning beyond their order; in an erasure pool place `i` holds shard `i`.
#[derive(Debug, PartialEq, Eq, Drop)]
pub struct Osds {
    places: ArrayVec<Place, 16>,
}

impl Model for Osds {
    ghost Value = { List (Option ℕ) };

    ghost view = { λ o. o.places.items };

    ghost invariant = { λ o. length o.places.items ≤ 16 };

    ghost inverse = { λ xs. record { places = record { items = xs } } };
}

impl Osds {
    /// The list without a place.
    pub fn new() -> Self
        ensures { result ≡ [] }
    {
        Osds {
            places: ArrayVec::new(),
        }
    }

    /// How many places it has, empty ones among them.
    pub fn len(&self) -> usize
        ensures value { result ≡ length self.now }
        ensures within { result ≤ MAX_OSDS }
    {
        self.places.len()
    }

    /// Whether it has no place.
    pub fn is_empty(&self) -> bool
        ensures { result ≡ (length self.now == 0) }
    {
        self.places.is_empty()
    }

    /// Whether it has as many places as it can have.
    pub fn is_full(&self) -> bool
        ensures { result ≡ (length self.now == MAX_OSDS) }
    {
        self.places.is_full()
    }

    /// Appends a place.
    pub fn push(&mut self, place: Place)
        requires { length self.old < MAX_OSDS }
        ensures { self.new ≡ self.old ++ place ∷ [] }
    {
        self.places.push(place);
    }

    /// The places in order.
    pub fn as_slice(&self) -> &[Place]
        ensures value { result.now ≡ self.now }
        ensures within { length result.now ≤ MAX_OSDS }
    {
        self.places.as_slice()
    }

    /// A copy, which takes no memory.
    pub fn copy(&self) -> Osds
        ensures { result ≡ self.now }
    {
        let mut copy = Osds::new();
        for place in self.as_slice() {
            copy.push(*place);
        }
        copy
    }

    /// The first device, past the empty places.
    pub fn first(&self) -> Option<OsdId>
        ensures { result ≡ first_osd self.now }
    {
        for place in self.as_slice() {
            if let Some(osd) = place.osd() {
                return Some(osd);
            }
        }
        None
    }

    /// How many places hold a device.
    pub fn osd_count(&self) -> usize
        ensures { result ≡ osd_count self.now }
    {
        self.places
            .as_slice()
            .iter()
            .filter(|place| place.osd().is_some())
            .count()
    }
}
