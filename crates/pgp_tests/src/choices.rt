//! Buckets of 16 items of equal weight choose each of them about as often. bench/measure_choices.py measures how long that takes.

ghost use Rattle.std.specs.Prelude.{◌<◌, length};

use pgp_crush::{Chooser, List, Straw2};

const ITEMS: [i32; 16] = [0, 1, 2, 3, 4, 5, 6, 7, 8, 9, 10, 11, 12, 13, 14, 15];

const WEIGHTS: [u32; 16] = [0x1_0000; 16];

/// How many inputs each bucket is given.
const INPUTS: u32 = 0x10_0000;

/// How often each item is chosen.
fn counts<C: Chooser>(bucket: &C) -> [u32; 16]
    requires { 0 < length (C.items bucket.now) }
{
    let mut counts = [0u32; 16];
    for x in 0..INPUTS {
        let item = bucket.choose(x, 0).cast_unsigned() as usize;
        if let Some(count) = counts.get_mut(item) {
            *count = count.saturating_add(1);
        }
    }
    counts
}

/// Each of these is within a sixty-fourth of a sixteenth of the inputs.
fn are_alike(counts: &[u32]) -> bool {
    counts
        .iter()
        .all(|count| *count > 64_512 && *count < 66_560)
}

#[test]
fn list_buckets_choose_equal_items_alike(rt: HostRuntime) {
    let bucket = List {
        id: -1,
        items: &ITEMS,
        weights: &WEIGHTS,
    };
    assert!(rt; are_alike(&counts(&bucket)));
}

#[test]
fn straw2_buckets_choose_equal_items_alike(rt: HostRuntime) {
    let bucket = Straw2 {
        items: &ITEMS,
        weights: &WEIGHTS,
    };
    assert!(rt; are_alike(&counts(&bucket)));
}
