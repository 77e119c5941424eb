//! The smallest sets of devices that bring a group back.

ghost use Rattle.std.specs.Prelude.{◌≡◌, IfOk};
ghost use Rattle.pgp_map.specs.MapOf.{IsMapOf};
ghost use Rattle.pgp_group.specs.GroupLog.{GroupLog, incs};
ghost use Rattle.pgp_group.specs.View.{view_of};
ghost use Rattle.pgp_reasons.specs.Reasons.{AreWaysOf, no_ways};
ghost use Rattle.pgp_reasons.specs.Smallest.{AreWays};

use super::enough::Enough;
use super::relief::Relief;
use super::set_walk::SetWalk;
use super::shape::any_of;
use super::spread::spread;
use pgp_code::AnyCode;
use pgp_ids::{OsdId, Seq, View};
use pgp_map::OsdMap;
use std::alloc::{AllocError, Global};

/// The smallest sets of devices each of which would be enough.
#[derive(Drop)]
pub enum Ways {
    /// Any so many of some devices. There is more than one such set.
    Any(AnyOf),
    /// These sets.
    Listed(Sets),
}

/// Any so many of some devices.
#[derive(Drop)]
pub struct AnyOf {
    /// How many of them, 1 at least.
    pub least: usize,
    /// More than that many devices, in ascending order.
    pub osds: Seq<OsdId>,
}

/// Sets of devices.
#[derive(Drop)]
pub struct Sets {
    /// Each in ascending order. Where there are no others, the smaller sets stand first.
    pub sets: Seq<Seq<OsdId>>,
    /// Whether there may be others: there are more than 16, or there were more than nine devices to choose from. If fewer than 16
    /// are listed then, a device that all of them have is one that each way needs.
    pub more: bool,
}

/// The smallest sets of devices that leave the group of the view not down once they boot; none if it isn't down. Only devices that
/// block it are tried: no other device that is down is a member of an interval that blocks.
pub(crate) fn ways_of(
    alloc: Global,
    code: &AnyCode,
    map: &OsdMap,
    view: &View,
) -> Result<Ways, AllocError>
    ensures { IfOk result (λ ways. (g : GroupLog) → g.history.code ≡ code.now → IsMapOf (incs g) map.now → view.now ≡ view_of g
        → AreWaysOf g ways) }
{
    if view.blocked_by.is_empty() {
        return Ok(no_ways(alloc));
    }
    let relief = Relief {
        code,
        statuses: map,
        les: view.les,
        past: view.intervals.as_slice(),
    };
    smallest_of(alloc, &relief, view.blocked_by.as_slice())
}

/// The smallest sets of these devices that are enough, the smaller first.
///
/// Where any so many of some devices are enough it says so, unless it would have to judge more than 10,000 sets for that. Else it
/// walks the sets by their size, and stops after it has judged 10,000 of them or listed 16. Where it stopped it lists some that have
/// little in common. For nine devices it never has to judge 10,000 sets.
fn smallest_of<E: Enough>(alloc: Global, judge: &E, among: &[OsdId]) -> Result<Ways, AllocError>
    ensures { IfOk result (λ ways. AreWays (E.enough judge.now) among.now ways) }
{
    if !judge.is_enough(among, &[]) {
        return Ok(no_ways(alloc));
    }
    if let Some(any) = any_of(alloc, judge, among)? {
        return Ok(Ways::Any(any));
    }
    let mut found = SetWalk::new(alloc);
    let mut chosen = Vec::new(alloc);
    for size in 0..among.len() + 1 {
        if !found.walk(alloc, judge, &mut chosen, among, size)? {
            return Ok(Ways::Listed(Sets {
                sets: spread(alloc, judge, among)?,
                more: true,
            }));
        }
    }
    Ok(Ways::Listed(Sets {
        sets: found.sets,
        more: false,
    }))
}

/// No sets of devices.
pub(crate) fn no_ways(alloc: Global) -> Ways
    ensures { result ≡ no_ways }
{
    Ways::Listed(Sets {
        sets: Seq::new(alloc),
        more: false,
    })
}
