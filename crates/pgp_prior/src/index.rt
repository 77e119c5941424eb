ghost use Rattle.std.specs.Prelude.{◌≡◌, ◌≤◌, ℕ, [], ◌∷◌, ◌++◌, false, IfOk, OnOk, OnErr};
ghost use Rattle.pgp_sets.specs.declared.status.Status.{Status};
ghost use Rattle.pgp_prior.specs.Better.{is_no_worse};
ghost use Rattle.pgp_prior.specs.Changes.{is_no_better, is_same_or_gone, allows, IsChange};
ghost use Rattle.pgp_prior.specs.IndexOf.{AgreeOnMembers, Basis, IsIndexOf, prior_by, is_down_by};
ghost use Rattle.pgp_ids.specs.Past.{raised_at};

use super::additions::{add_down, add_members, add_up};
use super::blocking::matters;
use super::judged_interval::{Change, JudgedInterval};
use super::places::add_interval;
use super::prior_set::Prior;
use pgp_code::Recoverable;
use pgp_ids::{Epoch, Membership, OsdId, Past, Seq};
use pgp_sets::StatusOf;
use std::alloc::{AllocError, Global};
use std::collections::HashMap;

/// The prior set of a placement group, kept as statuses change.
///
/// It keeps for each device the past intervals that it stands in, by their places, and for each interval the statuses of
/// its acting members and whether it blocks. The caller tells it which way the statuses of a device changed, by one of three
/// calls, and so which of the device's intervals may have begun or ceased to block: the code is asked about these, once
/// each, and about no other. None of the three takes memory. Nor does [`raise`](PriorIndex::raise), by which the caller tells
/// it that one interval may have gone read-write after all.
pub struct PriorIndex<R> {
    alloc: Global,
    code: R,
    /// The past intervals in the order in which they were added.
    past: Vec<JudgedInterval>,
    /// The places in `past` of the intervals in which a device is an acting member, in ascending order.
    places: HashMap<OsdId, Seq<usize>>,
    current: Membership,
    les: Epoch,
}

// Written out, so that a crate which lets one go has nothing to prove of what lies within.
impl<R: Drop> Drop for PriorIndex<R> {
    fn drop(self) {
        let PriorIndex {
            alloc: _,
            code: _,
            past: _,
            places: _,
            current: _,
            les: _,
        } = self;
    }
}

impl<R: Recoverable> PriorIndex<R> {
    /// The index of a group with no past intervals, its current membership and the epoch `les` in which it last began to
    /// serve. It takes no memory.
    pub fn begin(alloc: Global, code: R, current: Membership, les: Epoch) -> Self
        ensures { (status : ℕ → ℕ → Status) → IsIndexOf R.enough R.by_place
            (record { code = code; past = []; current = current; les = les; status = status }) result }
    {
        PriorIndex {
            alloc,
            code,
            past: Vec::new(alloc),
            places: HashMap::new(alloc),
            current,
            les,
        }
    }

    /// Adds a past interval behind the others, with the statuses that are told of its acting members. After an error the
    /// index stands for what it stood for.
    pub fn add_past<S: StatusOf>(&mut self, past: Past, statuses: &S) -> Result<(), AllocError>
        ensures ok { OnOk result ((b : Basis R) → IsIndexOf R.enough R.by_place b self.old
            → AgreeOnMembers (R.by_place b.code) (S.status_of statuses.now) b.status past
            → IsIndexOf R.enough R.by_place (record b { past = b.past ++ past ∷ [] }) self.new) }
        ensures err { OnErr result ((b : Basis R) → IsIndexOf R.enough R.by_place b self.old
            → IsIndexOf R.enough R.by_place b self.new) }
    {
        let kept = JudgedInterval::keep(self.alloc, &self.code, self.les, past, statuses)?;
        self.past.reserve(1)?;
        let by_place = self.code.by_place();
        let place = self.past.len();
        add_interval(self.alloc, &mut self.places, by_place, &kept.past, place)?;
        self.past.push_reserved(kept);
        Ok(())
    }

    /// Takes a new current membership. It takes no memory.
    pub fn set_current(&mut self, members: Membership)
        ensures { (b : Basis R) → IsIndexOf R.enough R.by_place b self.old
            → IsIndexOf R.enough R.by_place (record b { current = members }) self.new }
    {
        self.current = members;
    }

    /// Takes the epoch in which the group last began to serve, which isn't before the one that was. It takes no memory.
    pub fn set_les(&mut self, les: Epoch)
        ensures { (b : Basis R) → IsIndexOf R.enough R.by_place b self.old → b.les ≤ les
            → IsIndexOf R.enough R.by_place (record b { les = les }) self.new }
    {
        self.les = les;
        let past = self.past.as_mut_slice();
        for kept in past.iter_mut() {
            kept.set_les(les);
        }
    }

    /// Marks the past interval at this place as one that may have gone read-write. It judges that interval anew, and no
    /// other: the code is asked once at most. An interval that is marked already stays as it is, and where there is none at
    /// this place, nothing changes. It takes no memory.
    pub fn raise(&mut self, place: usize)
        ensures { (b : Basis R) → IsIndexOf R.enough R.by_place b self.old
            → IsIndexOf R.enough R.by_place (record b { past = raised_at place b.past }) self.new }
    {
        if place < self.past.len() {
            self.past[place].raise(&self.code, self.les);
        }
    }

    /// The prior set. It judges no interval anew, and takes memory for the two lists of the answer alone. The error is that
    /// there was none for them.
    pub fn prior(&self) -> Result<Prior, AllocError>
        ensures { IfOk result (λ found. (b : Basis R) → IsIndexOf R.enough R.by_place b self.now
            → found ≡ prior_by R.enough R.by_place b) }
    {
        let by_place = self.code.by_place();
        let mut probe = Vec::new(self.alloc);
        let mut blocked_by = Vec::new(self.alloc);
        add_members(&mut probe, by_place, &self.current.up)?;
        add_members(&mut probe, by_place, &self.current.acting)?;
        for kept in self.past.as_slice() {
            if matters(self.les, &kept.past) {
                add_up(&mut probe, by_place, &kept.statuses, &kept.past)?;
            }
            if kept.blocks {
                add_down(&mut blocked_by, by_place, &kept.statuses, &kept.past)?;
            }
        }
        let blocked_by = Seq::from_vec(blocked_by);
        let down = !blocked_by.is_empty();
        Ok(Prior {
            probe: Seq::from_vec(probe),
            blocked_by,
            down,
        })
    }

    /// Takes the statuses of a device which came up, or was given up for lost, where they changed in the intervals that it
    /// stands in. It judges anew those of them that block. A group that wasn't down isn't down afterwards.
    pub fn device_better<S: StatusOf>(&mut self, osd: OsdId, statuses: &S)
        ensures kept { (b : Basis R) (status : ℕ → ℕ → Status) → IsIndexOf R.enough R.by_place b self.old
            → IsChange is_no_worse (R.by_place b.code) osd (S.status_of statuses.now) b.status status b.past
            → IsIndexOf R.enough R.by_place (record b { status = status }) self.new }
        ensures relief { (b : Basis R) (status : ℕ → ℕ → Status)
            → IsChange is_no_worse (R.by_place b.code) osd (S.status_of statuses.now) b.status status b.past
            → is_down_by R.enough R.by_place b ≡ false
            → is_down_by R.enough R.by_place (record b { status = status }) ≡ false }
    {
        self.renew(Change::Better, osd, statuses);
    }

    /// Takes the statuses of a device which went down, or counts as lost no more, where they changed in the intervals that
    /// it stands in. It judges anew those of them that don't block.
    pub fn device_worse<S: StatusOf>(&mut self, osd: OsdId, statuses: &S)
        ensures { (b : Basis R) (status : ℕ → ℕ → Status) → IsIndexOf R.enough R.by_place b self.old
            → IsChange is_no_better (R.by_place b.code) osd (S.status_of statuses.now) b.status status b.past
            → IsIndexOf R.enough R.by_place (record b { status = status }) self.new }
    {
        self.renew(Change::Worse, osd, statuses);
    }

    /// Takes the statuses of a device which was destroyed, where they changed in the intervals that it stands in. It judges
    /// all of these anew.
    pub fn device_gone<S: StatusOf>(&mut self, osd: OsdId, statuses: &S)
        ensures { (b : Basis R) (status : ℕ → ℕ → Status) → IsIndexOf R.enough R.by_place b self.old
            → IsChange is_same_or_gone (R.by_place b.code) osd (S.status_of statuses.now) b.status status b.past
            → IsIndexOf R.enough R.by_place (record b { status = status }) self.new }
    {
        self.renew(Change::Gone, osd, statuses);
    }

    /// Takes the statuses of a device into the intervals that it stands in.
    fn renew<S: StatusOf>(&mut self, change: Change, osd: OsdId, statuses: &S)
        ensures { (b : Basis R) (status : ℕ → ℕ → Status) → IsIndexOf R.enough R.by_place b self.old
            → IsChange (allows change) (R.by_place b.code) osd (S.status_of statuses.now) b.status status b.past
            → IsIndexOf R.enough R.by_place (record b { status = status }) self.new }
    {
        let Some(places) = self.places.get(&osd) else {
            return;
        };
        let past = self.past.as_mut_slice();
        for place in places.as_slice() {
            if *place < past.len() {
                past[*place].renew(&self.code, self.les, change, osd, statuses);
            }
        }
    }
}
