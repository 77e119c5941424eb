//! Straw2 buckets, in which each item draws by itself.

ghost use Rattle.std.specs.Prelude.{◌≡◌, ℕ, ◌+◌, ◌-◌, ◌%◌, ◌^◌, ◌<◌, ◌≤◌, pos, length, slice_index, slice_index_or, IfSome, IfNone};
ghost use Rattle.pgp_crush.specs.Logarithm.{logarithm};
ghost use Rattle.pgp_crush.specs.Choice.{word_of, hash_at, draw, straw2_place};
ghost use Rattle.pgp_crush.specs.Chosen.{straw2_chooses_item};

use super::chooser::Chooser;
use super::logarithms::logarithm;
use pgp_hash::hash3;

/// A straw2 bucket.
#[derive(Clone, Copy)]
pub struct Straw2<'a> {
    /// Its items in order.
    pub items: &'a [i32],
    /// The weight of each, in units of 1/0x10000.
    pub weights: &'a [u32],
    ghost weighed: { length weights.now ≡ length items.now },
}

impl Chooser for Straw2<'_> {
    ghost items = { λ c. c.items.now };

    ghost choice = { λ c x r. slice_index_or c.items.now (straw2_place x r c.items.now c.weights.now) (pos 0) };

    ghost chooses_item = { λ c x r h. straw2_chooses_item x r c.items.now c.weights.now h };

    fn choose(&self, x: u32, r: u32) -> i32 {
        self.items[straw2_place(x, r, self.items, self.weights)]
    }
}

/// The place of the first item whose draw is the least.
fn straw2_place(x: u32, r: u32, items: &[i32], weights: &[u32]) -> usize
    requires some { 0 < length items.now }
    requires weighed { length weights.now ≡ length items.now }
    ensures value { result ≡ straw2_place x r items.now weights.now }
    ensures within { result < length items.now }
{
    let mut place = 0;
    let mut least = WEIGHTLESS;
    let mut hashes = [0; LANES];
    for i in 0..items.len() {
        if i % LANES == 0 {
            hashes = hashes_from(x, r, items, i);
        }
        if let Some(draw) = draw_below(least, hashes[i % LANES], weights[i]) {
            least = draw;
            place = i;
        }
    }
    place
}

/// How many items are hashed side by side.
const LANES: usize = 8;

/// The hashes of the items from this place on, up to as many as are hashed side by side; past the end any.
fn hashes_from(x: u32, r: u32, items: &[i32], first: usize) -> [u32; LANES]
    requires { first < length items.now }
    ensures { (k : ℕ) → k < 8 → first + k < length items.now → slice_index result k ≡ hash_at x r items.now (first + k) }
{
    let ids = ids_from(items, first);
    let mut hashes = [0; LANES];
    for k in 0..LANES {
        hashes[k] = hash3(x, ids[k], r);
    }
    hashes
}

/// The ids of these items as words; past the end 0.
fn ids_from(items: &[i32], first: usize) -> [u32; LANES]
    requires { first < length items.now }
    ensures { (k : ℕ) → k < 8 → first + k < length items.now → slice_index result k ≡ word_of (slice_index_or items.now (first + k) (pos 0)) }
{
    let mut ids = [0; LANES];
    for k in 0..LANES.min(items.len() - first) {
        ids[k] = items[first + k].cast_unsigned();
    }
    ids
}

/// What an item of weight 0 draws.
const WEIGHTLESS: u64 = 1 << 63;

/// What an item of this weight draws by the lowest 16 bits of a hash, if that is below `limit`.
///
/// A quotient is below a whole number before it is rounded down just if it is after, so only a draw that is wanted is divided.
fn draw_below(limit: u64, hash: u32, weight: u32) -> Option<u64>
    requires { limit ≤ 2 ^ 63 }
    ensures below { IfSome result (λ d. (d ≡ draw (hash % 2 ^ 16) weight) × (d < limit)) }
    ensures not_below { IfNone result (limit ≤ draw (hash % 2 ^ 16) weight) }
{
    let left = 0x1_0000_0000_0000_u64.saturating_sub(logarithm((hash % 0x1_0000) as u16));
    if u128::from(left) < u128::from(limit) * u128::from(weight) {
        Some(left / u64::from(weight))
    } else {
        None
    }
}
