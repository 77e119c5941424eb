use super::epoch::Epoch;
use super::member::Member;
use super::osd::OsdId;
use super::osds::Osds;
use super::past::Past;
use super::peer::PeerMissing;
use super::seq::Seq;
use super::verdict::Verdict;

/// All that the log so far says of a placement group.
#[derive(Debug)]
pub struct View {
    /// How many entries the log has.
    pub count: usize,
    /// The epoch of its last map.
    pub epoch: Epoch,
    /// Where placement by the map's tree puts the group.
    pub up: Osds,
    pub up_primary: Option<OsdId>,
    /// Who serves the group.
    pub acting: Osds,
    pub acting_primary: Option<OsdId>,
    /// The first epoch of the current interval.
    pub first: Epoch,
    /// The past intervals, in ascending order.
    pub intervals: Seq<Past>,
    /// The last epoch in which the group is known to have begun to serve, 0 if none is known.
    pub les: Epoch,
    /// The members that have to be heard, in ascending order, each once.
    pub probe: Seq<Member>,
    /// The devices that have to come back or be given up for lost, in ascending order, each once.
    pub blocked_by: Seq<OsdId>,
    pub verdict: Verdict,
    /// Whose copy is the one to follow.
    pub best: Option<Member>,
    /// The states of the other members that were heard, in ascending order of the members.
    pub missing: Seq<PeerMissing>,
}

// Written out, so that a crate which lets one go has nothing to prove of what lies within.
impl Drop for View {
    fn drop(self) {
        let View {
            count: _,
            epoch: _,
            up: _,
            up_primary: _,
            acting: _,
            acting_primary: _,
            first: _,
            intervals: _,
            les: _,
            probe: _,
            blocked_by: _,
            verdict: _,
            best: _,
            missing: _,
        } = self;
    }
}
