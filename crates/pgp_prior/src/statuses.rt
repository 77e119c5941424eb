ghost use Rattle.std.specs.Prelude.{◌≡◌, IfOk, map};
ghost use Rattle.pgp_prior.specs.kept.KnownStatuses.{renamed, known_of};
ghost use Rattle.pgp_prior.specs.Members.{members_of};

use super::members::members_of;
use pgp_ids::{Epoch, OsdId, Past};
use pgp_sets::{Status, StatusOf};
use std::alloc::{AllocError, Global};

/// What has become of a device.
#[derive(Clone, Copy)]
pub(crate) struct KnownStatus {
    osd: OsdId,
    status: Status,
}

/// What has become of the devices of a past interval.
#[derive(Drop)]
pub(crate) struct Statuses {
    known: Vec<KnownStatus>,
}

impl Statuses {
    /// The statuses of the acting members of the interval.
    pub(crate) fn of_interval<S: StatusOf>(
        alloc: Global,
        by_place: bool,
        past: &Past,
        statuses: &S,
    ) -> Result<Self, AllocError>
        ensures { IfOk result (λ found. found.known.items
            ≡ map (known_of (S.status_of statuses.now) past.now.first) (members_of by_place past.now.members.acting)) }
    {
        let mut known = Vec::new(alloc);
        for member in members_of(by_place, &past.members.acting) {
            known.push(KnownStatus {
                osd: member.osd,
                status: statuses.status(member.osd, past.first),
            })?;
        }
        Ok(Statuses { known })
    }

    /// Notes the status of a device of the interval.
    pub(crate) fn set(&mut self, osd: OsdId, status: Status)
        ensures { self.new.known.items ≡ map (renamed osd status) self.old.known.items }
    {
        let entries = self.known.as_mut_slice();
        for known in entries.iter_mut() {
            if known.osd == osd {
                known.status = status;
            }
        }
    }
}

/// The statuses of the devices of one interval, whichever first epoch is named. A device that doesn't stand in it is gone.
impl StatusOf for Statuses {
    ghost use Rattle.pgp_prior.specs.kept.KnownStatuses.{status_or_gone};

    ghost status_of = { λ statuses osd _. status_or_gone statuses.known.items osd };

    fn status(&self, osd: OsdId, _first: Epoch) -> Status {
        for known in &self.known {
            if known.osd == osd {
                return known.status;
            }
        }
        Status::Gone
    }
}
