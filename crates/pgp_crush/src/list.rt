//! List buckets, whose items have weights.

ghost use Rattle.std.specs.Prelude.{◌≡◌, ◌*◌, ◌/◌, ◌%◌, ◌<◌, ◌^◌, nat_lt, pos, length, sum, slice_index_or};
ghost use Rattle.pgp_crush.specs.Choice.{list_place, word_of};
ghost use Rattle.pgp_crush.specs.Chosen.{list_chooses_item};

use super::chooser::Chooser;
use pgp_hash::hash4;

/// A list bucket.
#[derive(Clone, Copy)]
pub struct List<'a> {
    /// The bucket's own id.
    pub id: i32,
    /// Its items in order.
    pub items: &'a [i32],
    /// The weight of each, in units of 1/0x10000.
    pub weights: &'a [u32],
    ghost weighed: { length weights.now ≡ length items.now },
    ghost fits: { sum weights.now < 2 ^ 32 },
}

impl Chooser for List<'_> {
    ghost items = { λ c. c.items.now };

    ghost choice = { λ c x r. slice_index_or c.items.now (list_place x r (word_of c.id) c.items.now c.weights.now) (pos 0) };

    ghost chooses_item = { λ c x r h. list_chooses_item x r (word_of c.id) c.items.now c.weights.now h };

    fn choose(&self, x: u32, r: u32) -> i32 {
        self.items[list_place(x, r, self.id.cast_unsigned(), self.items, self.weights)]
    }
}

/// In how many parts a hash divides a weight.
const PARTS: u32 = 0x1_0000;

/// The place of the last item whose weight is above a hashed share of the weights up to its own, else the first.
#[tactic(auto, using(crate::proofs::ChoiceLemmas::place_steps))]
fn list_place(x: u32, r: u32, id: u32, items: &[i32], weights: &[u32]) -> usize
    requires some { 0 < length items.now }
    requires weighed { length weights.now ≡ length items.now }
    requires fits { sum weights.now < 2 ^ 32 }
    ensures value { result ≡ list_place x r id items.now weights.now }
    ensures within { result < length items.now }
{
    let mut total: u32 = weights.iter().sum();
    let mut i = items.len();
    while i > 0 {
        i -= 1;
        let hash = hash4(x, items[i].cast_unsigned(), r, id);
        let share = u64::from(hash % PARTS) * u64::from(total) / u64::from(PARTS);
        if share < u64::from(weights[i]) {
            return i;
        }
        total -= weights[i];
    }
    0
}
