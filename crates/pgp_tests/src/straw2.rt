//! The draws of straw2 buckets against values of Ceph 16.2.15 (pacific): choices of its library, and the digest of its logarithms.

use pgp_crush::{Chooser, Straw2, logarithm};
use sha2::{Digest, Sha256};
use std::alloc::{AllocError, Global};
use std::test::Fail;

/// Inputs, the weights of devices 0 and 1, and the device that is chosen with the number 0: two rows for each input, on both sides
/// of the weight where the choice turns.
const CHOICES: &str = "
    50653 44349 33793 1, 50653 47563 36242 0, 72227 26242 41981 1, 72227 34707 55523 0, 27775 36607 49321 1,
    27775 44620 60117 0, 5423 51752 52661 1, 5423 43269 44029 0, 123035 22905 50563 1, 123035 29377 64850 0,
    2108 49627 43048 1, 2108 52418 45469 0, 141112 45113 51253 1, 141112 48074 54617 0, 40286 42168 29581 1,
    40286 57133 40079 0, 18267 56228 58777 1, 18267 55853 58385 0, 22351 36107 58330 1, 22351 36947 59687 0,
    66596 57923 38908 1, 66596 55614 37357 0, 85636 46663 37952 1, 85636 51002 41481 0, 51776 30336 33875 1,
    51776 42971 47984 0, 56981 33755 37794 1, 56981 57849 64771 0, 97276 50852 60615 1, 97276 28559 34042 0,
    44149 34086 43195 1, 44149 48025 60859 0, 60223 45941 53008 1, 60223 29234 33731 0, 94257 33039 51503 1,
    94257 32096 50033 0, 89320 48072 27469 1, 89320 57685 32962 0, 723 44929 40254 1, 723 38144 34175 0
";

#[test]
fn draws_decide_as_in_ceph(rt: HostRuntime) {
    let mut rows: u32 = 0;
    for row in CHOICES.split(',') {
        let mut numbers = [0u32; 4];
        for (number, word) in numbers.iter_mut().zip(row.split_whitespace()) {
            *number = word.parse().expect(&rt, "a number");
        }
        let [x, first, second, chosen] = numbers;
        let bucket = Straw2 {
            items: &[0, 1],
            weights: &[first, second],
        };
        assert!(rt;
            bucket.choose(x, 0).cast_unsigned() == chosen,
            "of {x} with {first} and {second}"
        );
        rows = rows.wrapping_add(1);
    }
    assert!(rt; rows == 40);
}

/// The logarithms of all hashes, as words of 64 bits, the least significant byte first.
fn logarithms(alloc: Global) -> Result<Vec<u8>, AllocError> {
    let mut bytes = Vec::new(alloc);
    for hash in 0..=u16::MAX {
        bytes.extend_from_slice(&logarithm(hash).to_le_bytes())?;
    }
    Ok(bytes)
}

#[test]
fn the_logarithms_are_those_of_ceph(rt: HostRuntime) -> Result<(), Fail> {
    let logarithms = logarithms(rt.alloc())?;
    let digest = Sha256::digest(logarithms.as_slice());
    assert!(rt; digest == DIGEST);
    Ok(())
}

/// The digest of the same words of Ceph's library.
const DIGEST: [u8; 32] = [
    0x7e, 0x86, 0xf3, 0x4e, 0x8f, 0xed, 0xc3, 0x6c, 0x3b, 0x62, 0x52, 0xe5, 0xa6, 0xe4, 0xfe, 0x3f,
    0xa4, 0xe1, 0x15, 0xed, 0x44, 0xe1, 0x6f, 0x58, 0xf7, 0xfe, 0xd6, 0x54, 0x3a, 0xa1, 0xbd, 0x20,
];
