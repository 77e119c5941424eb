//! The mixing of three words.

ghost use Rattle.std.specs.Prelude.{◌≡◌, ◌<◌};
ghost use Rattle.pgp_hash.specs.Mix.{mix_a, mix_b, mix_c, mix, triple_sum};

/// Three words of 32 bits that are mixed together.
#[derive(Debug, Clone, Copy, PartialEq, Eq)]
pub struct Triple {
    pub a: u32,
    pub b: u32,
    pub c: u32,
}

/// Mixes three words, so that a bit of any of them changes about half of the bits of the last.
///
/// This is `mix` of Robert Jenkins' hash of 1996, and `crush_hashmix` of Ceph's `crush/hash.c`.
#[inline]
#[tactic(auto, unfolding(crate::specs::Mix::mix))]
pub fn mix(words: Triple) -> Triple
    ensures { result ≡ mix words }
{
    mix_round(mix_round(mix_round(words, 13, 8, 13), 12, 16, 5), 3, 10, 15)
}

/// The sum of two triples, word by word, modulo 2^32.
#[inline]
#[tactic(auto, unfolding(crate::specs::Mix::triple_sum))]
pub(crate) fn triple_sum(left: Triple, right: Triple) -> Triple
    ensures { result ≡ triple_sum left right }
{
    Triple {
        a: left.a.wrapping_add(right.a),
        b: left.b.wrapping_add(right.b),
        c: left.c.wrapping_add(right.c),
    }
}

/// Three lines of the mixing, of which each changes a word, by shifts of `p`, `q` and `r` places.
#[inline]
#[tactic(auto, unfolding(crate::specs::Mix::mix_a, crate::specs::Mix::mix_b, crate::specs::Mix::mix_c))]
fn mix_round(t: Triple, p: u32, q: u32, r: u32) -> Triple
    requires p { p < 32 }
    requires q { q < 32 }
    requires r { r < 32 }
    ensures { result ≡ mix_c r (mix_b q (mix_a p t)) }
{
    let a = t.a.wrapping_sub(t.b).wrapping_sub(t.c) ^ (t.c >> p);
    let b = t.b.wrapping_sub(t.c).wrapping_sub(a) ^ (a << q);
    let c = t.c.wrapping_sub(a).wrapping_sub(b) ^ (b >> r);
    Triple { a, b, c }
}
