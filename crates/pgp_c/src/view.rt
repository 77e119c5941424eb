//! What a log says of a placement group, as C reads it.

ghost use Rattle.std.specs.Prelude.{◌≡◌};
ghost use Rattle.pgp_group.specs.Touched.{view_at};
ghost use Rattle.pgp_c.specs.View.{verdict_number, pgp_view};

use super::place::{device_number, sixteen};
use pgp_ids::{Epoch, Verdict, View};

/// What a log says of a placement group, with how long its lists are. A place without a device, one behind the end of its list, a
/// list without a primary, and a group without a best member have 65535.
#[repr(C)]
#[derive(Clone, Copy)]
pub struct PgpView {
    /// How many entries the log has.
    pub count: usize,
    /// How many past intervals there are.
    pub intervals: usize,
    /// How many members have to be heard.
    pub probe: usize,
    /// How many devices block it.
    pub blocked_by: usize,
    /// Of how many members the state is known.
    pub missing: usize,
    /// The epoch of the last map.
    pub epoch: u32,
    /// The first epoch of the current interval.
    pub first: u32,
    /// The last epoch in which the group is known to have begun to serve, 0 if none is known.
    pub les: u32,
    /// 0 to 7, in the order of `Verdict`.
    pub verdict: u32,
    pub up_primary: u16,
    pub acting_primary: u16,
    /// The device of the best member.
    pub best_osd: u16,
    /// The slot of the best member, 0 where there is none.
    pub best_slot: u8,
    /// How many places `up` has.
    pub up_length: u8,
    /// How many places `acting` has.
    pub acting_length: u8,
    pub up: [u16; 16],
    pub acting: [u16; 16],
}

/// The view at this count and epoch, as C reads it.
pub fn view_of(view: &View, count: usize, epoch: Epoch) -> PgpView
    ensures { result ≡ pgp_view (view_at count epoch view.now) }
{
    PgpView {
        count,
        intervals: view.intervals.len(),
        probe: view.probe.len(),
        blocked_by: view.blocked_by.len(),
        missing: view.missing.len(),
        epoch: epoch.number(),
        first: view.first.number(),
        les: view.les.number(),
        verdict: verdict_number(view.verdict),
        up_primary: device_number(view.up_primary),
        acting_primary: device_number(view.acting_primary),
        best_osd: device_number(view.best.map(|best| best.osd)),
        best_slot: view.best.map_or(0, |best| best.slot),
        up_length: view.up.len() as u8,
        acting_length: view.acting.len() as u8,
        up: sixteen(&view.up),
        acting: sixteen(&view.acting),
    }
}

/// The number by which C knows a verdict.
fn verdict_number(verdict: Verdict) -> u32
    ensures { result ≡ verdict_number verdict }
{
    match verdict {
        Verdict::NoPrimary => 0,
        Verdict::Down => 1,
        Verdict::Waiting => 2,
        Verdict::Incomplete => 3,
        Verdict::Short => 4,
        Verdict::NeedLog => 5,
        Verdict::NeedUpThru => 6,
        Verdict::Serve => 7,
    }
}
