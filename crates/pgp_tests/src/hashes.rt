//! Hashes against values from outside: of the published C code, compiled and run apart from this project, and of the tools
//! of Ceph 16.2.15 (pacific), as `dev/compare_with_ceph.py` asks them.

use pgp_hash::{Triple, hash2, hash3, hash4, mask_of, mix, name_hash, stable_mod};

/// Two, three or four words, and their hash. In the last ten rows the second word is the id of a uniform bucket of 247 to 256
/// items, whose first choices by `crushtool --test` leave one hash.
static HASHES: [(&[u32], u32); 22] = [
    (&[0, 0], 0x19ad_4ce9),
    (&[1, 2], 0xb78d_ee9c),
    (&[2, 1], 0xe38e_fe44),
    (&[0xffff_ffff, 7], 0xab5c_cd1e),
    (&[0, 0, 0], 0x7a3b_f3b2),
    (&[1, 2, 3], 0x735a_d42b),
    (&[3, 2, 1], 0x02bd_2515),
    (&[0xdead_beef, 0xffff_fffe, 50], 0x99bc_514b),
    (&[0, 0, 0, 0], 0x3faf_b04d),
    (&[1, 2, 3, 4], 0x696d_1f16),
    (&[4, 3, 2, 1], 0x5eb2_ff46),
    (&[0xdead_beef, 17, 49, 0xffff_ffff], 0xa424_6fb5),
    (&[0, 0xffff_ffff, 0], 0x2235_fb93),
    (&[1, 0xffff_fffe, 0], 0x5c32_2676),
    (&[7, 0xffff_0000, 0], 0x8767_5f8b),
    (&[0x035b_7399, 0xffff_fe89, 0], 0xc93a_a53b),
    (&[0x377b_9aa2, 0xffff_ff2f, 0], 0xa70a_4214),
    (&[0x478c_281d, 0xffff_ffa2, 0], 0xd858_3bba),
    (&[0x63b2_29f1, 0xffff_ffae, 0], 0x53ec_6a6a),
    (&[0x126a_1e48, 0xffff_ffb8, 0], 0xc1b9_62b5),
    (&[0x71e0_c07e, 0xffff_ffbf, 0], 0x0423_6dcf),
    (&[0x21da_8978, 0xffff_ffff, 0], 0x5994_78e3),
];

/// Words, and the lower 16 bits of their hash. By `crushtool --test`: from which weight on a device is in, and from which
/// weight on a list bucket chooses its last item, is one more.
static LOW_HALVES: [(&[u32], u32); 20] = [
    (&[0, 0], 0x4ce9),
    (&[1, 1], 0x3f38),
    (&[7, 4095], 0xf0d7),
    (&[0x4164_d839, 2937], 0x356f),
    (&[0x076c_e2ef, 3814], 0xb19a),
    (&[0x3fc1_ea36, 424], 0xf2d2),
    (&[0x2827_688d, 927], 0xd2d0),
    (&[0x5f2d_d97f, 3842], 0x43b1),
    (&[0x3f1f_65a8, 3119], 0x5920),
    (&[0x1a1a_fe87, 2042], 0x7b71),
    (&[0, 7, 0, 0xffff_ffff], 0xd295),
    (&[1, 1, 0, 0xffff_fffe], 0xf7b8),
    (&[7, 4095, 0, 0xffff_fe6f], 0x5e30),
    (&[0x015c_33b2, 1765, 0, 0xffff_ff94], 0x85b7),
    (&[0x2a75_9159, 2369, 0, 0xffff_ffaa], 0xb3e9),
    (&[0x504b_74ba, 1677, 0, 0xffff_ff9a], 0x2f47),
    (&[0x2e81_d66d, 1612, 0, 0xffff_fe9e], 0x1404),
    (&[0x621a_ef57, 176, 0, 0xffff_ff67], 0x945f),
    (&[0x5c76_f18a, 1359, 0, 0xffff_ff2b], 0x2c5f),
    (&[0x254c_b864, 533, 0, 0xffff_ff78], 0x2b01),
];

/// The hash of two, three or four words.
fn hash(words: &[u32]) -> Option<u32> {
    match words {
        [a, b] => Some(hash2(*a, *b)),
        [a, b, c] => Some(hash3(*a, *b, *c)),
        [a, b, c, d] => Some(hash4(*a, *b, *c, *d)),
        _ => None,
    }
}

/// Three words, and what they are mixed to.
static MIXED: [([u32; 3], [u32; 3]); 2] = [
    ([1, 0, 0], [0xfda0_dfc7, 0x7904_20aa, 0x8ec2_12aa]),
    (
        [0x1234_5678, 0x9abc_def0, 0xfedc_ba98],
        [0x1a49_f7e8, 0x4235_1709, 0xcceb_9108],
    ),
];

#[test]
fn words_have_their_hashes(rt: HostRuntime) {
    for (words, full) in &HASHES {
        assert!(rt; hash(words) == Some(*full), "of {words:?}");
    }
    for (words, low) in &LOW_HALVES {
        let found = hash(words).expect(&rt, "two, three or four words");
        assert!(rt; found & 0xffff == *low, "of {words:?}");
    }
    for (given, mixed) in &MIXED {
        let [a, b, c] = *given;
        let words = mix(Triple { a, b, c });
        assert!(rt; [words.a, words.b, words.c] == *mixed);
    }
}

/// Names, also with bytes from 128 on, and their hashes, by both tools, except those of no byte and of 0xff, 0xfe and so on.
static NAMES: [(&[u8], u32); 20] = [
    (b"", 0xbd49_d10d),
    (b"a", 0x29ee_c818),
    (b"object", 0x570e_3222),
    (b"rbd_header.", 0xfdc4_c87b),
    (b"rbd_header.1", 0xa298_becf),
    (b"rbd_header.12", 0x58a4_6671),
    (b"rbd_data.1234567890abc.", 0xde34_8271),
    (b".dir.0123456789abcdef0123456789", 0x2213_76a8),
    (b"gr\xc3\xbc\xc3\x9fe", 0xc432_c9f5),
    (b"\xff", 0xcdca_3f48),
    (b"\xff\xfe\xfd\xfc", 0xa8dc_c034),
    (b"\xff\xfe\xfd\xfc\xfb\xfa\xf9\xf8", 0x2c42_148b),
    (b"\xff\xfe\xfd\xfc\xfb\xfa\xf9\xf8\xf7\xf6", 0x40c3_0310),
    (b"\xff\xfe\xfd\xfc\xfb\xfa\xf9\xf8\xf7\xf6\xf5", 0x043c_7b31),
    (
        b"\xff\xfe\xfd\xfc\xfb\xfa\xf9\xf8\xf7\xf6\xf5\xf4",
        0x3f76_df23,
    ),
    (
        b"\xff\xfe\xfd\xfc\xfb\xfa\xf9\xf8\xf7\xf6\xf5\xf4\xf3",
        0x48ce_26bb,
    ),
    (
        b"\xff\xfe\xfd\xfc\xfb\xfa\xf9\xf8\xf7\xf6\xf5\xf4\xf3\xf2\xf1\xf0\xef\xee\xed\xec\xeb\xea\xe9",
        0x64f4_6d70,
    ),
    (
        b"\xff\xfe\xfd\xfc\xfb\xfa\xf9\xf8\xf7\xf6\xf5\xf4\xf3\xf2\xf1\xf0\xef\xee\xed\xec\xeb\xea\xe9\xe8",
        0x8d2c_187a,
    ),
    (
        b"\xff\xfe\xfd\xfc\xfb\xfa\xf9\xf8\xf7\xf6\xf5\xf4\xf3\xf2\xf1\xf0\xef\xee\xed\xec\xeb\xea\xe9\xe8\xe7\xe6\xe5\xe4\xe3\xe2\xe1\xe0\xdf\xde\xdd",
        0xaf12_2239,
    ),
    (
        b"\xff\xfe\xfd\xfc\xfb\xfa\xf9\xf8\xf7\xf6\xf5\xf4\xf3\xf2\xf1\xf0\xef\xee\xed\xec\xeb\xea\xe9\xe8\xe7\xe6\xe5\xe4\xe3\xe2\xe1\xe0\xdf\xde\xdd\xdc",
        0x6643_7642,
    ),
];

/// Further names, and their groups among 2^30 by `osdmaptool --test-map-object`: the lower 30 bits of the hash.
static GROUPS_OF_NAMES: [(&[u8], u32); 5] = [
    (b"ab", 0x1879_ac41),
    (b"abcd", 0x1ae6_1fa5),
    (b"10000000000.00000000", 0x30b5_6f30),
    (b"\xe5\x90\x8d\xe5\x89\x8d", 0x08ff_9fa0),
    (b"xxxxxxxxxxxxxxxxxxxxxxxxxxxxxxxxxxxxxxxx", 0x2f13_81cc),
];

/// The group of this name among 2^30.
fn group_of(name: &[u8]) -> u32 {
    stable_mod(name_hash(name), 1 << 30, mask_of(1 << 30))
}

#[test]
fn names_have_their_hashes_and_groups(rt: HostRuntime) {
    for (name, hash) in &NAMES {
        assert!(rt; name_hash(name) == *hash, "of {name:?}");
        assert!(rt; group_of(name) == hash & 0x3fff_ffff, "of {name:?}");
    }
    for (name, group) in &GROUPS_OF_NAMES {
        assert!(rt; group_of(name) == *group, "of {name:?}");
    }
}
