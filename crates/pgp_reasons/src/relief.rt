//! Whether a group is down no more once some devices booted, and others were declared lost.

ghost use Rattle.std.specs.Prelude.{◌≡◌, List, [], ◌∷◌, not};
ghost use Rattle.pgp_ids.specs.declared.entry.Entry.{Entry};
ghost use Rattle.pgp_ids.specs.declared.entry.Entry.TheVariants as entry;
ghost use Rattle.pgp_ids.specs.declared.incremental.Incremental.{Incremental};
ghost use Rattle.pgp_prior.specs.Prior.{is_group_down};
ghost use Rattle.pgp_group.specs.GroupLog.{GroupLog};
ghost use Rattle.pgp_group.specs.Later.{IsAfter};
ghost use Rattle.pgp_group.specs.Peering.{prior};
ghost use Rattle.pgp_reasons.specs.GroupWays.{is_down_with, GoesWay};
ghost use Rattle.pgp_reasons.specs.Reasons.{IsViewed};

use super::enough::Enough;
use pgp_code::{AnyCode, Recoverable};
use pgp_ids::{Epoch, OsdId, Past, PgId, View};
use pgp_map::OsdMap;
use pgp_prior::blocks;
use pgp_sets::{Status, StatusOf};

/// Whether the group of this view is not down once these devices booted and those were declared lost, where the view is by a log
/// whose last map is this one. The same holds after the next map, if that boots only the ones, declares only the others lost at its
/// own epoch, and takes none down and destroys none. It takes no memory.
pub fn unblocks(map: &OsdMap, pg: PgId, view: &View, starts: &[OsdId], losses: &[OsdId]) -> bool
    ensures as_defined { (log : List Entry) (g : GroupLog) → IsViewed log map.now pg view.now g
        → result ≡ not (is_down_with starts.now losses.now g) }
    ensures by_next_map { (log : List Entry) (g after : GroupLog) (inc : Incremental) → IsViewed log map.now pg view.now g
        → IsAfter g (entry.Inc inc ∷ []) after → GoesWay starts.now losses.now inc → result ≡ not (prior after).down }
{
    let Some(pool) = map.pool(pg.pool) else {
        return false;
    };
    let code = AnyCode::of_pool(pool.kind);
    let after = ChangedStatuses {
        statuses: map,
        these: &[],
        those: starts,
        losses,
    };
    !is_group_down(&code, &after, view.les, view.intervals.as_slice())
}

/// The statuses of devices after these devices and those booted, and some were declared lost.
#[derive(Drop)]
pub(crate) struct ChangedStatuses<'a, S> {
    pub(crate) statuses: &'a S,
    pub(crate) these: &'a [OsdId],
    pub(crate) those: &'a [OsdId],
    pub(crate) losses: &'a [OsdId],
}

impl<S: StatusOf> StatusOf for ChangedStatuses<'_, S> {
    ghost use Rattle.std.specs.Prelude.{◌++◌};
    ghost use Rattle.pgp_reasons.specs.Ways.{status_after};

    ghost status_of = { λ c. status_after (c.these.now ++ c.those.now) c.losses.now (S.status_of c.statuses.now) };

    fn status(&self, osd: OsdId, first: Epoch) -> Status {
        let before = self.statuses.status(osd, first);
        if self.these.contains(&osd) || self.those.contains(&osd) {
            Status::Up
        } else if self.losses.contains(&osd) {
            match before {
                Status::Down => Status::Lost,
                other => other,
            }
        } else {
            before
        }
    }
}

/// Judges whether a group would no longer be down once some devices booted.
#[derive(Drop)]
pub(crate) struct Relief<'a, R, S> {
    pub(crate) code: &'a R,
    pub(crate) statuses: &'a S,
    pub(crate) les: Epoch,
    pub(crate) past: &'a [Past],
}

impl<R: Recoverable, S: StatusOf> Enough for Relief<'_, R, S> {
    ghost use Rattle.std.specs.Prelude.{[]};
    ghost use Rattle.pgp_reasons.specs.WayLaws.{starts-more};
    ghost use Rattle.pgp_reasons.specs.Ways.{is_relieved};

    ghost enough = { λ r osds. is_relieved (R.enough r.code.now) (R.by_place r.code.now) (S.status_of r.statuses.now) r.les
        r.past.now osds [] };

    ghost monotone = { λ r. starts-more (R.enough r.code.now) (R.by_place r.code.now) (R.monotone r.code.now)
        (S.status_of r.statuses.now) r.les r.past.now };

    fn is_enough(&self, these: &[OsdId], those: &[OsdId]) -> bool {
        let after = ChangedStatuses {
            statuses: self.statuses,
            these,
            those,
            losses: &[],
        };
        !is_group_down(self.code, &after, self.les, self.past)
    }
}

/// Whether one of these past intervals blocks the group.
fn is_group_down<R: Recoverable, S: StatusOf>(
    code: &R,
    statuses: &S,
    les: Epoch,
    past: &[Past],
) -> bool
    ensures { result
        ≡ is_group_down (R.enough code.now) (R.by_place code.now) (S.status_of statuses.now) les past.now }
{
    past.iter()
        .any(|interval| blocks(code, statuses, les, interval))
}
