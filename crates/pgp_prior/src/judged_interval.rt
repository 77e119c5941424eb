ghost use Rattle.std.specs.Prelude.{◌≡◌, ℕ, IfOk};
ghost use Rattle.pgp_sets.specs.declared.status.Status.{Status};
ghost use Rattle.pgp_prior.specs.Changes.{allows, rechecks, IsChangeIn};
ghost use Rattle.pgp_prior.specs.IndexOf.{AgreeOnMembers};
ghost use Rattle.pgp_prior.specs.kept.JudgedInterval.{IsKept, later_les};
ghost use Rattle.pgp_ids.specs.Past.{with_rw};

use super::blocking::{blocks, matters};
use super::statuses::Statuses;
use pgp_code::Recoverable;
use pgp_ids::{Epoch, OsdId, Past};
use pgp_sets::StatusOf;
use std::alloc::{AllocError, Global};

/// How the statuses of a device change.
#[derive(Clone, Copy)]
pub(crate) enum Change {
    /// It came up, or was given up for lost.
    Better,
    /// It went down, or counts as lost no more.
    Worse,
    /// It was destroyed.
    Gone,
}

impl Change {
    /// Whether an interval of the device has to be judged anew, which blocks or doesn't.
    pub(crate) fn rechecks(self, blocks: bool) -> bool
        ensures { result ≡ rechecks self blocks }
    {
        match self {
            Change::Better => blocks,
            Change::Worse => !blocks,
            Change::Gone => true,
        }
    }
}

/// A past interval, with what has become of its devices.
#[derive(Drop)]
pub(crate) struct JudgedInterval {
    pub(crate) past: Past,
    pub(crate) statuses: Statuses,
    /// Whether the group has to wait for devices of the interval.
    pub(crate) blocks: bool,
}

impl JudgedInterval {
    /// The interval with the statuses that are told of its acting members.
    pub(crate) fn keep<R: Recoverable, S: StatusOf>(
        alloc: Global,
        code: &R,
        les: Epoch,
        past: Past,
        statuses: &S,
    ) -> Result<Self, AllocError>
        ensures past { IfOk result (λ kept. kept.past ≡ past) }
        ensures kept { IfOk result (λ kept. (status : ℕ → ℕ → Status)
            → AgreeOnMembers (R.by_place code.now) (S.status_of statuses.now) status past
            → IsKept (R.enough code.now) (R.by_place code.now) status les kept) }
    {
        let known = Statuses::of_interval(alloc, code.by_place(), &past, statuses)?;
        let blocks = blocks(code, &known, les, &past);
        Ok(JudgedInterval {
            past,
            statuses: known,
            blocks,
        })
    }

    /// Takes the new status of one of its devices, and judges anew whether it blocks where that may have changed.
    pub(crate) fn renew<R: Recoverable, S: StatusOf>(
        &mut self,
        code: &R,
        les: Epoch,
        change: Change,
        osd: OsdId,
        statuses: &S,
    )
        ensures past { self.new.past ≡ self.old.past }
        ensures kept { (old new : ℕ → ℕ → Status)
            → IsKept (R.enough code.now) (R.by_place code.now) old les self.old
            → IsChangeIn (allows change) (R.by_place code.now) osd (S.status_of statuses.now) old new self.old.past
            → IsKept (R.enough code.now) (R.by_place code.now) new les self.new }
    {
        self.statuses
            .set(osd, statuses.status(osd, self.past.first));
        if change.rechecks(self.blocks) {
            self.blocks = blocks(code, &self.statuses, les, &self.past);
        }
    }

    /// Marks the interval as one that may have gone read-write, and judges anew whether it blocks. One that is marked
    /// already stays as it is.
    pub(crate) fn raise<R: Recoverable>(&mut self, code: &R, les: Epoch)
        ensures past { self.new.past ≡ with_rw self.old.past }
        ensures kept { (status : ℕ → ℕ → Status)
            → IsKept (R.enough code.now) (R.by_place code.now) status les self.old
            → IsKept (R.enough code.now) (R.by_place code.now) status les self.new }
    {
        if !self.past.rw {
            self.past.rw = true;
            self.blocks = blocks(code, &self.statuses, les, &self.past);
        }
    }

    /// Takes a later epoch in which the group last began to serve.
    pub(crate) fn set_les(&mut self, les: Epoch)
        ensures { self.new ≡ later_les les self.old }
    {
        self.blocks = self.blocks && matters(les, &self.past);
    }
}
