//! Some of the smallest sets of devices, where there are too many to list.

ghost use Rattle.std.specs.Prelude.{◌≡◌, ◌≤◌, ◌<◌, List, ℕ, not, nat_eq, true, false, length, filter, Contains, IfOk, OnOk};
ghost use Rattle.std.specs.List.{list_any};
ghost use Rattle.pgp_reasons.specs.Smallest.{holds, most_sets, smallest, AllHave, IsSpread};

use super::enough::{Enough, leave_out};
use super::set_walk::MOST_SETS;
use pgp_ids::{OsdId, Seq};
use std::alloc::{AllocError, Global};

/// Some of the smallest sets of these devices, which are enough: one, and for each device that all listed so far have, one without
/// it, if there is one.
pub(crate) fn spread<E: Enough>(
    alloc: Global,
    judge: &E,
    among: &[OsdId],
) -> Result<Seq<Seq<OsdId>>, AllocError>
    requires { E.enough judge.now among.now ≡ true }
    ensures { IfOk result (IsSpread (E.enough judge.now) among.now) }
{
    let mut sets = Seq::new(alloc);
    sets.push(leave_out(alloc, judge, among)?)?;
    for osd in among {
        add_without(alloc, judge, among, *osd, &mut sets)?;
    }
    Ok(sets)
}

/// Adds one of the smallest sets that lacks the device, if all listed so far have it, there is one, and one more may be listed.
fn add_without<E: Enough>(
    alloc: Global,
    judge: &E,
    among: &[OsdId],
    osd: OsdId,
    sets: &mut Seq<Seq<OsdId>>,
) -> Result<(), AllocError>
    ensures kept { OnOk result ((set : List ℕ) → Contains sets.old set → Contains sets.new set) }
    ensures some { OnOk result (((set : List ℕ) → Contains sets.old set → Contains (smallest (E.enough judge.now) among.now) set)
        → (set : List ℕ) → Contains sets.new set → Contains (smallest (E.enough judge.now) among.now) set) }
    ensures longer { OnOk result (length sets.old ≤ length sets.new) }
    ensures bound { OnOk result (length sets.old ≤ most_sets → length sets.new ≤ most_sets) }
    ensures common { OnOk result (length sets.new < most_sets → AllHave sets.new osd
        → E.enough judge.now (filter (λ other. not (nat_eq other osd)) among.now) ≡ false) }
{
    if sets.len() == MOST_SETS || one_lacks(sets.as_slice(), osd) {
        return Ok(());
    }
    let others = without(alloc, among, osd)?;
    if judge.is_enough(others.as_slice(), &[]) {
        sets.push(leave_out(alloc, judge, others.as_slice())?)?;
    }
    Ok(())
}

/// Whether one of the sets lacks the device.
fn one_lacks(sets: &[Seq<OsdId>], osd: OsdId) -> bool
    ensures { result ≡ list_any (λ set. not (holds set osd)) sets.now }
{
    sets.iter().any(|set| !set.as_slice().contains(&osd))
}

/// The devices without this one.
fn without(alloc: Global, osds: &[OsdId], osd: OsdId) -> Result<Vec<OsdId>, AllocError>
    ensures { IfOk result (λ others. others.items ≡ filter (λ other. not (nat_eq other osd)) osds.now) }
{
    osds.iter()
        .copied()
        .filter(|other| *other != osd)
        .collect(alloc)
}
