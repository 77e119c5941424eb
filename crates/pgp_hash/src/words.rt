//! Hashes of two, three and four words.
//!
//! A negative id, as a bucket's, enters as its two's complement.

ghost use Rattle.std.specs.Prelude.{◌≡◌};
ghost use Rattle.pgp_hash.specs.Hash.{hash2, hash3, hash4};
ghost use Rattle.pgp_hash.specs.Mix.{mixed};

use crate::mixing::{Triple, mix};

/// What each hash starts from.
const SEED: u32 = 1_315_423_911;

/// The first of two words that each hash mixes in beside its own.
const X: u32 = 231_232;

/// The second of them.
const Y: u32 = 1232;

/// The hash of two words: `crush_hash32_2` of Ceph, in its kind `rjenkins1`.
#[tactic(auto, unfolding(crate::specs::Hash::hash2))]
pub fn hash2(a: u32, b: u32) -> u32
    ensures { result ≡ hash2 a b }
{
    let ab = mixed(a, b, SEED ^ a ^ b);
    let xa = mixed(X, ab.a, ab.c);
    mixed(ab.b, Y, xa.c).c
}

/// The hash of three words: `crush_hash32_3` of Ceph, in its kind `rjenkins1`.
#[tactic(auto, unfolding(crate::specs::Hash::hash3))]
pub fn hash3(a: u32, b: u32, c: u32) -> u32
    ensures { result ≡ hash3 a b c }
{
    let ab = mixed(a, b, SEED ^ a ^ b ^ c);
    let cx = mixed(c, X, ab.c);
    let ya = mixed(Y, ab.a, cx.c);
    let bx = mixed(ab.b, cx.b, ya.c);
    mixed(ya.a, cx.a, bx.c).c
}

/// The hash of four words: `crush_hash32_4` of Ceph, in its kind `rjenkins1`.
#[tactic(auto, unfolding(crate::specs::Hash::hash4))]
pub fn hash4(a: u32, b: u32, c: u32, d: u32) -> u32
    ensures { result ≡ hash4 a b c d }
{
    let ab = mixed(a, b, SEED ^ a ^ b ^ c ^ d);
    let cd = mixed(c, d, ab.c);
    let ax = mixed(ab.a, X, cd.c);
    let yb = mixed(Y, ab.b, ax.c);
    let cx = mixed(cd.a, ax.b, yb.c);
    mixed(yb.a, cd.b, cx.c).c
}

/// The mixing of three words.
#[inline]
fn mixed(a: u32, b: u32, c: u32) -> Triple
    ensures { result ≡ mixed a b c }
{
    mix(Triple { a, b, c })
}
