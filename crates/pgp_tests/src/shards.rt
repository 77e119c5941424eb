//! A shard works out as many of its groups as it may.

use pgp_fixtures::{MANY_GROUPS, entry};
use pgp_log::JudgedLog;
use pgp_shard::ShardState;
use std::test::Fail;

#[test]
fn a_shard_works_out_as_many_groups_as_it_may(rt: HostRuntime) -> Result<(), Fail> {
    let mut log = JudgedLog::new(rt.alloc());
    let map = entry(rt.alloc(), MANY_GROUPS).ok_or("no entry")?;
    log.fits(&map)?;
    log.take(map)?;
    let mut state = ShardState::start(rt.alloc(), 0, 1);
    state.absorb_next(log.entries(), 1)?;
    for (most, left) in [(0, 256), (64, 192), (191, 1), (256, 0)] {
        assert!(rt; state.renew(most)? == left, "{most} of the groups");
    }
    Ok(())
}
