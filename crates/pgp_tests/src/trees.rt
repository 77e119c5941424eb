//! Placements that Ceph's own tool makes too.

use pgp_crush::{Rule, place};
use pgp_fixtures::{NO_OSD, entry, places};
use pgp_ids::Entry;
use pgp_map::OsdMap;
use std::test::Fail;

/// A tree of four levels, with buckets of both kinds, over devices 0 to 6.
const FOUR_LEVELS: &str =
    r#"{"op":"inc","epoch":1,"crush":[{"id":-2,"type":2,"alg":"uniform","items":[0,1,2]},{"id":-3,"type":2,"alg":"list","items":[3,4],"weights":[65536,32768]},{"id":-4,"type":2,"alg":"uniform","items":[5,6]},{"id":-5,"type":3,"alg":"list","items":[-2,-3],"weights":[131072,65536]},{"id":-1,"type":4,"alg":"list","items":[-5,-4],"weights":[196608,98304]}]}"#;

/// Whether a rule keeps places, the type of its items, an input, and the placement that `crushtool --test` of Ceph 16.2.15
/// (pacific) makes on this tree, as `dev/compare_with_ceph.py` asks it.
static PLACEMENTS: [(bool, u8, u32, &[u16]); 16] = [
    (false, 0, 0, &[5, 2, 0]),
    (false, 0, 2, &[6, 5, 0]),
    (false, 0, 3, &[1, 2, 5]),
    (false, 0, 4, &[0, 6, 2]),
    (false, 2, 0, &[5, 2, 4]),
    (false, 2, 2, &[6, 0, 4]),
    (false, 2, 3, &[1, 5, 4]),
    (false, 2, 4, &[0, 6, 4]),
    (true, 0, 0, &[5, 0, 4]),
    (true, 0, 2, &[6, 2, 5]),
    (true, 0, 3, &[1, 2, 0]),
    (true, 0, 6, &[4, 2, 0]),
    (true, 2, 0, &[5, 4, NO_OSD, 2]),
    (true, 2, 2, &[6, NO_OSD, 2, 4]),
    (true, 2, 3, &[1, 4, NO_OSD, NO_OSD]),
    (true, 2, 6, &[4, NO_OSD, 2, NO_OSD]),
];

/// Device 1 is in for half of the inputs, device 6 for a quarter, and device 3 is out.
fn weights() -> [u32; 4096] {
    let mut weights = [0x1_0000u32; 4096];
    weights[1] = 0x8000;
    weights[3] = 0;
    weights[6] = 0x4000;
    weights
}

#[test]
fn placements_are_those_of_ceph(rt: HostRuntime) -> Result<(), Fail> {
    let mut map = OsdMap::empty(rt.alloc());
    let inc = entry(rt.alloc(), FOUR_LEVELS).and_then(Entry::into_incremental);
    let inc = inc.ok_or("no incremental")?;
    map.check(&inc)?;
    map.apply(&inc)?;
    let weights = weights();
    for (indep, leaf, x, devices) in &PLACEMENTS {
        let expected = places(devices);
        let rule = Rule {
            indep: *indep,
            leaf: *leaf,
        };
        let count = if *indep && *leaf > 0 { 4 } else { 3 };
        let found = place(map.tree(), rule, &weights, *x, count);
        assert!(rt; found == expected, "of {x}");
    }
    Ok(())
}
