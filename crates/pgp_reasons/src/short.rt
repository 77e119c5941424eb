//! What a group lacks whose acting set is too small to serve.

ghost use Rattle.std.specs.Prelude.{◌≡◌, IfOk};
ghost use Rattle.pgp_sets.specs.Status.{held_status};
ghost use Rattle.pgp_reasons.specs.Short.{short_of};

use super::fates::add_with;
use super::lacking::lacking;
use pgp_code::{AnyCode, Recoverable};
use pgp_ids::{OsdId, Seq, View};
use pgp_interval::acting_slots;
use pgp_map::OsdMap;
use pgp_sets::Status;
use std::alloc::{AllocError, Global};

/// What the acting set of a group lacks, and which devices that are down may be what it lacks.
#[derive(Drop)]
pub struct Short {
    /// How many more slots than those of the acting members it needs.
    pub lacks: usize,
    /// The devices that are down now, and were acting in a past interval since the group last began to serve. In ascending
    /// order, each once. Whether one of them comes back into acting is for placement to say, so none is called enough.
    pub fallen: Seq<OsdId>,
}

/// What the acting set of the group of this view lacks.
pub(crate) fn short_of(
    alloc: Global,
    code: &AnyCode,
    map: &OsdMap,
    view: &View,
) -> Result<Short, AllocError>
    ensures { IfOk result (λ short. short
        ≡ short_of code.now (held_status map.now) view.now.les view.now.intervals view.now.acting) }
{
    let by_place = code.by_place();
    let past = view.intervals.as_slice();
    let mut fallen = Vec::new(alloc);
    for interval in past {
        if view.les <= interval.last {
            add_with(&mut fallen, Status::Down, by_place, map, interval)?;
        }
    }
    Ok(Short {
        lacks: lacking(code, acting_slots(by_place, &view.acting)),
        fallen: Seq::from_vec(fallen),
    })
}
