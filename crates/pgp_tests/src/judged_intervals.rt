//! How often an index of a prior set asks the code, as a device changes and as an interval may have gone read-write after all.

use pgp_code::{Erasure, Recoverable};
use pgp_fixtures::places;
use pgp_ids::{Epoch, Membership, OsdId, Past, SlotSet};
use pgp_prior::{PriorIndex, prior};
use pgp_sets::Status::{Down, Gone, Up};
use pgp_sets::{Status, StatusOf};
use std::sync::atomic::{AtomicU64, Ordering};
use std::test::Fail;

/// The statuses of devices 0 to 5, each for all intervals. The others are up.
#[derive(Drop)]
struct Table {
    statuses: [Status; 6],
}

impl StatusOf for Table {
    ghost use Rattle.std.specs.Prelude.{slice_index_or};
    ghost use Rattle.pgp_sets.specs.declared.status.Status.TheVariants.{Up};

    ghost status_of = { λ table osd first. slice_index_or table.statuses osd Up };

    fn status(&self, osd: OsdId, _first: Epoch) -> Status {
        match self.statuses.get(usize::from(osd.number())) {
            Some(status) => *status,
            None => Up,
        }
    }
}

/// Answers as this code does, and counts its questions.
#[derive(Clone, Copy)]
struct CountingCode<'a> {
    code: Erasure,
    asked: &'a AtomicU64,
}

impl<'a> Recoverable for CountingCode<'a> {
    ghost use Rattle.std.specs.Prelude.{true};
    ghost use Rattle.pgp_code.specs.Enough.{enough_shards, enough_shards-mono, enough_shards-nil};

    ghost enough = { λ counting slots. enough_shards counting.code.k slots };

    ghost by_place = { λ _. true };

    ghost monotone = { λ counting a b. enough_shards-mono counting.code.k a b };

    ghost empty_is_short = { λ counting. enough_shards-nil counting.code.k counting.code.at_least_one };

    fn enough(&self, have: SlotSet) -> bool {
        let _before = self.asked.fetch_add(1, Ordering::SeqCst);
        self.code.enough(have)
    }

    fn by_place(&self) -> bool {
        true
    }
}

/// A group of three members, of which two are enough to serve, that lies on these devices.
fn lying_on(osds: &[u16]) -> Membership {
    let up = places(osds);
    let acting = up.copy();
    Membership {
        up_primary: up.first(),
        up,
        acting_primary: acting.first(),
        acting,
        size: 3,
        min_size: 2,
    }
}

/// An interval two epochs long, in which the group lay on these devices, and may have gone read-write or not.
fn two_epochs(first: u32, osds: &[u16], rw: bool) -> Past {
    Past {
        first: Epoch::new(first),
        last: Epoch::new(first.saturating_add(1)),
        members: lying_on(osds),
        rw,
    }
}

/// The acting devices of four intervals in which a group went read-write. Device 6 is always up, and device 1 is in all but the
/// third.
static FOUR: [(u32, &[u16]); 4] = [
    (1, &[6, 1, 2, 3]),
    (3, &[6, 1, 4, 5]),
    (5, &[6, 2, 4, 5]),
    (7, &[6, 1, 2, 0]),
];

#[test]
fn each_interval_that_may_have_turned_is_judged_once(rt: HostRuntime) -> Result<(), Fail> {
    let asked = &AtomicU64::new(0);
    let code = CountingCode {
        code: Erasure::with_shards(3),
        asked,
    };
    let mut table = Table {
        statuses: [Up, Down, Up, Down, Down, Down],
    };
    let current = lying_on(&[0, 2, 6]);
    let mut index = PriorIndex::begin(rt.alloc(), code, current, Epoch::new(0));
    for (first, acting) in &FOUR {
        index.add_past(two_epochs(*first, acting, true), &table)?;
    }
    assert!(rt; asked.swap(0, Ordering::SeqCst) == 4);
    let osd = OsdId::new(1).unwrap();
    // The first and the second interval block the group, and the fourth has enough.
    table.statuses[1] = Up;
    index.device_better(osd, &table);
    assert!(rt; asked.swap(0, Ordering::SeqCst) == 2);
    // The second interval still blocks it.
    table.statuses[1] = Down;
    index.device_worse(osd, &table);
    assert!(rt; asked.swap(0, Ordering::SeqCst) == 2);
    table.statuses[1] = Gone;
    index.device_gone(osd, &table);
    assert!(rt; asked.swap(0, Ordering::SeqCst) == 3);
    // An interval that went read-write already, and one that is not there.
    index.raise(0);
    index.raise(4);
    assert!(rt; asked.swap(0, Ordering::SeqCst) == 0);
    Ok(())
}

/// Two of three shards were enough to serve, and two of them are down since. Once it is known that the group may have gone
/// read-write, its index says so too.
#[test]
fn an_index_has_the_prior_set_of_a_walk(rt: HostRuntime) -> Result<(), Fail> {
    let code = Erasure::with_shards(2);
    let table = Table {
        statuses: [Up, Down, Down, Up, Up, Up],
    };
    let current = lying_on(&[0, 3, 4]);
    let past = [two_epochs(1, &[0, 1, 2], true)];
    let walked = prior(rt.alloc(), &code, &past, &current, Epoch::new(0), &table)?;
    let mut index = PriorIndex::begin(rt.alloc(), code, current, Epoch::new(0));
    index.add_past(two_epochs(1, &[0, 1, 2], false), &table)?;
    assert!(rt; walked.down && !index.prior()?.down);
    index.raise(0);
    assert!(rt; index.prior()?.down);
    Ok(())
}
