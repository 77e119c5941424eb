//! The map by which a client places objects.
ghost use Rattle.std.specs.Prelude.{◌≡◌, ◌≢◌, [], None, Some, Err, IfOk};
ghost use Rattle.pgp_map.specs.Pools.{pool};
ghost use Rattle.pgp_group.specs.Entries.{incs_of};
ghost use Rattle.pgp_log.specs.Log.{epoch_of};
ghost use Rattle.pgp_log.specs.Locate.{place_of_object, place_with};
ghost use Rattle.pgp_feed.specs.Receipts.{entries_of};
ghost use Rattle.pgp_feed.specs.declared.receipt.Receipt.{Receipt as AnyReceipt};
ghost use Rattle.pgp_engine.specs.declared.client.fault.LocateFault.TheVariants.{UnknownPool, Memory, NoReader};
ghost use Rattle.pgp_engine.specs.kept.Members.{IsChartOf};

use super::fault::LocateFault;
use crate::answer::Place;
use crate::follower::Follower;
use pgp_feed::Receipt;
use pgp_ids::{Entry, ObjectName, PoolId};
use pgp_log::{Judge, RawSets};
use std::alloc::{AllocError, Global};
use std::sync::Arc;

/// The map of the entries that were taken, which the judge of these has, and where it puts groups.
pub struct Chart {
    judge: Judge,
    sets: RawSets,
}

// Written out, so that a crate which lets one go has nothing to prove of what lies within.
impl Drop for Chart {
    fn drop(self) {
        let Chart { judge: _, sets: _ } = self;
    }
}

impl Follower for Chart {
    ghost has_taken = { IsChartOf };

    ghost numbers = { λ _. [] };

    fn taken(&self) -> usize {
        self.judge.count()
    }

    fn take_next(&mut self, entry: &Arc<Entry>) -> Result<(), AllocError> {
        self.judge.take(entry)?;
        self.sets.follow(entry);
        Ok(())
    }
}

impl Chart {
    /// The chart of the empty log. It takes no memory.
    pub fn empty(alloc: Global) -> Chart
        ensures { IsChartOf [] result }
    {
        Chart {
            judge: Judge::start(alloc),
            sets: RawSets::new(alloc),
        }
    }

    /// Where the object of this name lies by the map of the front.
    pub fn locate(
        &mut self,
        at: Receipt,
        id: PoolId,
        name: &ObjectName,
    ) -> Result<Place, LocateFault>
        requires { IsChartOf (entries_of at) self.old }
        ensures kept { IsChartOf (entries_of at) self.new }
        ensures placed { IfOk result (λ place. (place.at ≡ at)
            × (place_of_object (incs_of (entries_of at)) id name.now ≡ Some (place_with place.pg place.members))) }
        ensures epoch { IfOk result (λ place. place.epoch ≡ epoch_of (entries_of at)) }
        ensures unknown { (front : AnyReceipt) → result ≡ Err (UnknownPool front)
            → (front ≡ at) × (pool (incs_of (entries_of at)) id ≡ None) }
        ensures known { (result ≢ Err Memory) × (result ≢ Err NoReader) }
    {
        let map = self.judge.map();
        match self.sets.locate(map, id, name) {
            Some(found) => Ok(Place {
                pg: found.pg,
                members: found.members,
                at,
                epoch: map.epoch(),
            }),
            None => Err(LocateFault::UnknownPool { at }),
        }
    }
}
