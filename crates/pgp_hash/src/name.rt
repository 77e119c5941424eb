//! The hash of an object's name.

ghost use Rattle.std.specs.Prelude.{◌≡◌, ◌<◌, length};
ghost use Rattle.pgp_hash.specs.NameHash.{whole_block, last_block, name_hash};

use crate::mixing::{Triple, mix, triple_sum};

/// The fraction of the golden ratio, in units of 2^-32.
const GOLDEN_RATIO: u32 = 0x9e37_79b9;

/// The hash of a name: Robert Jenkins' hash of 1996, as `ceph_str_hash_rjenkins` of Ceph.
///
/// Of a name of 2^32 bytes or more the length enters modulo 2^32.
pub fn name_hash(name: &[u8]) -> u32
    ensures { result ≡ name_hash name.now }
{
    let mut words = Triple {
        a: GOLDEN_RATIO,
        b: GOLDEN_RATIO,
        c: 0,
    };
    let (blocks, rest) = name.as_chunks::<12>();
    for block in blocks {
        words = mix(triple_sum(words, whole_block(block)));
    }
    mix(triple_sum(words, last_block(rest, name.len()))).c
}

/// A whole block's twelve bytes as three words.
#[inline]
fn whole_block(block: &[u8; 12]) -> Triple
    ensures { result ≡ whole_block block.now }
{
    let [a0, a1, a2, a3, b0, b1, b2, b3, c0, c1, c2, c3] = *block;
    Triple {
        a: u32::from_le_bytes([a0, a1, a2, a3]),
        b: u32::from_le_bytes([b0, b1, b2, b3]),
        c: u32::from_le_bytes([c0, c1, c2, c3]),
    }
}

/// The rest of a name of `name_len` bytes as three words. The bytes of the last stand one place
/// higher than in a whole block, and the length is added to it.
fn last_block(rest: &[u8], name_len: usize) -> Triple
    requires { length rest.now < 12 }
    ensures { result ≡ last_block rest.now name_len }
{
    let mut block = [0; 12];
    block[..rest.len()].copy_from_slice(rest);
    let Triple { a, b, c } = whole_block(&block);
    let low_length = (name_len & 0xffff_ffff) as u32;
    let c = (c << 8).wrapping_add(low_length);
    Triple { a, b, c }
}
