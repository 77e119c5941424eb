//! Uniform buckets, whose items are all equally likely.

ghost use Rattle.std.specs.Prelude.{◌≡◌, ◌<◌, ◌^◌, pos, length, slice_index_or};
ghost use Rattle.pgp_crush.specs.Choice.{uniform_place, place_before, word_of};
ghost use Rattle.pgp_crush.specs.Chosen.{uniform_chooses_item};

use super::chooser::Chooser;
use pgp_hash::hash3;

/// A uniform bucket.
#[derive(Clone, Copy)]
pub struct Uniform<'a> {
    /// The bucket's own id.
    pub id: i32,
    /// Its items in order.
    pub items: &'a [i32],
}

impl Chooser for Uniform<'_> {
    ghost items = { λ c. c.items.now };

    ghost choice = { λ c x r. slice_index_or c.items.now (uniform_place x r (word_of c.id) (length c.items.now)) (pos 0) };

    ghost chooses_item = { λ c x r h. uniform_chooses_item x r (word_of c.id) c.items.now h };

    fn choose(&self, x: u32, r: u32) -> i32 {
        self.items[uniform_place(x, r, self.id.cast_unsigned(), self.items.len())]
    }
}

/// The place, of `count` in the bucket whose id is this word, of the item that a full shuffle brings to place `r` modulo `count`.
///
/// No list is shuffled: that one place is traced back through the exchanges.
#[tactic(auto, unfolding(crate::specs::Choice::uniform_place), using(crate::proofs::ChoiceLemmas::shuffle_steps))]
fn uniform_place(x: u32, r: u32, id: u32, count: usize) -> usize
    requires { 0 < count }
    ensures value { result ≡ uniform_place x r id count }
    ensures within { result < count }
{
    let last = r as usize % count;
    let mut place = last;
    let mut exchanges = last + 1;
    while exchanges > 0 {
        exchanges -= 1;
        place = place_before(x, id, count, exchanges, place);
    }
    place
}

/// Where the item stood, before place `p` was exchanged with its partner, that stands at `place` after.
fn place_before(x: u32, id: u32, count: usize, p: usize, place: usize) -> usize
    requires word { p < 2 ^ 32 }
    requires p_within { p < count }
    requires within { place < count }
    ensures value { result ≡ place_before x id count p place }
    ensures still_within { result < count }
{
    let partner = p + hash3(x, id, p as u32) as usize % (count - p);
    if place == p {
        partner
    } else if place == partner {
        p
    } else {
        place
    }
}
