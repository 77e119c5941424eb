//! A log of flaps is joined, as a daemon does that has no script, and the lines of that are those worked out by hand.
use pgp_core::{Format, Session};
use pgp_join::{join, joined_lines};
use std::test::Fail;

/// A device returns twice.
const FLAPS: [&[u8]; 7] = [
    b"{\"op\":\"inc\",\"epoch\":1,\"up\":[0,1]}",
    b"{\"op\":\"inc\",\"epoch\":2,\"down\":[1]}",
    b"{\"op\":\"inc\",\"epoch\":3,\"up\":[1]}",
    b"{\"op\":\"inc\",\"epoch\":4,\"down\":[1]}",
    b"{\"op\":\"inc\",\"epoch\":5,\"up\":[1]}",
    b"{\"op\":\"inc\",\"epoch\":6}",
    b"{\"op\":\"close\"}",
];

/// It has to be there before it goes down, and booted last in epoch 5.
const JOINED: &[u8] = b"{\"op\":\"inc\",\"v\":3,\"after\":0,\"epoch\":1,\"up\":[0,1]}
{\"op\":\"inc\",\"v\":3,\"after\":1,\"epoch\":2,\"down\":[1]}
{\"op\":\"inc\",\"v\":3,\"after\":2,\"epoch\":5,\"up\":[1]}
{\"op\":\"inc\",\"v\":3,\"after\":5,\"epoch\":6}
{\"op\":\"close\",\"v\":3}
";

#[test]
fn flaps_are_joined(rt: HostRuntime) -> Result<(), Fail> {
    let alloc = rt.alloc();
    let mut session = Session::new(alloc, Format::Two);
    for line in FLAPS {
        assert!(rt; session.answer(line).is_ok());
    }
    assert!(rt; session.entries().len() == FLAPS.len());
    let joined = join(alloc, session.entries())?;
    assert!(rt; joined.len() == 5);
    let lines = joined_lines(alloc, session.entries())?;
    assert!(rt; lines.expect(&rt, "lines").as_slice() == JOINED);
    Ok(())
}
