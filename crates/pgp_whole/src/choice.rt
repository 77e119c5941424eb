//! Which ways to end that a group is down are told.

ghost use Rattle.std.specs.Prelude.{◌≡◌, ◌++◌, ◌∷◌, [], not, nat_eq, map as mapped, filter as filtered, IfOk, OnOk};
ghost use Rattle.pgp_whole.specs.Advice.{all_start, any_sets, choice_with, one_lost, resorts as last_resorts, told_sets};

use pgp_ids::{OsdId, Seq};
use pgp_reasons::Ways;
use std::alloc::{AllocError, Global};

/// How many ways that declare devices lost are told at most.
const MOST_RESORTS: usize = 16;

/// Which devices boot, and which are declared lost.
#[derive(Drop)]
pub(crate) struct Choice {
    pub starts: Seq<OsdId>,
    pub losses: Seq<OsdId>,
}

impl Choice {
    /// These boot, and those are lost.
    fn of(alloc: Global, starts: &[OsdId], losses: &[OsdId]) -> Result<Self, AllocError>
        ensures { IfOk result (λ choice. choice ≡ choice_with starts.now losses.now) }
    {
        Ok(Choice {
            starts: copy(alloc, starts)?,
            losses: copy(alloc, losses)?,
        })
    }
}

/// Sets of devices to start: those that are listed; where any so many of some devices will do, each device if one is enough,
/// and else the first so many.
pub(crate) fn told_sets(alloc: Global, ways: &Ways) -> Result<Vec<Seq<OsdId>>, AllocError>
    ensures { IfOk result (λ sets. sets.items ≡ told_sets ways.now) }
{
    match ways {
        Ways::Any(any) => sets_of_any(alloc, any.least, any.osds.as_slice()),
        Ways::Listed(listed) => copies(alloc, listed.sets.as_slice()),
    }
}

/// Each device if one is enough, and else the first so many.
fn sets_of_any(alloc: Global, least: usize, osds: &[OsdId]) -> Result<Vec<Seq<OsdId>>, AllocError>
    ensures { IfOk result (λ sets. sets.items ≡ any_sets least osds.now) }
{
    if least == 1 {
        return singles(alloc, osds);
    }
    let first = copy(alloc, &osds[..least.min(osds.len())])?;
    Ok(vec![in alloc; first]?)
}

/// Each of the devices alone.
fn singles(alloc: Global, osds: &[OsdId]) -> Result<Vec<Seq<OsdId>>, AllocError>
    ensures { IfOk result (λ sets. sets.items ≡ mapped (λ osd. osd ∷ []) osds.now) }
{
    let mut sets = Vec::new(alloc);
    for osd in osds {
        sets.push(copy(alloc, &[*osd])?)?;
    }
    Ok(sets)
}

/// Copies of these sets.
fn copies(alloc: Global, sets: &[Seq<OsdId>]) -> Result<Vec<Seq<OsdId>>, AllocError>
    ensures { IfOk result (λ copies. copies.items ≡ sets.now) }
{
    let mut copies = Vec::new(alloc);
    for set in sets {
        copies.push(copy(alloc, set.as_slice())?)?;
    }
    Ok(copies)
}

/// A copy of these devices.
pub(crate) fn copy(alloc: Global, osds: &[OsdId]) -> Result<Seq<OsdId>, AllocError>
    ensures { IfOk result (λ copy. copy ≡ osds.now) }
{
    Ok(Seq::from_vec(osds.to_vec(alloc)?))
}

/// All of each set boot.
pub(crate) fn starts(alloc: Global, sets: &[Seq<OsdId>]) -> Result<Vec<Choice>, AllocError>
    ensures { IfOk result (λ choices. choices.items ≡ mapped all_start sets.now) }
{
    let mut choices = Vec::new(alloc);
    for set in sets {
        choices.push(Choice::of(alloc, set.as_slice(), &[])?)?;
    }
    Ok(choices)
}

/// Ways that declare devices of these sets lost, first those that lose one device.
pub(crate) fn resorts(alloc: Global, sets: &[Seq<OsdId>]) -> Result<Vec<Choice>, AllocError>
    ensures { IfOk result (λ choices. choices.items ≡ last_resorts sets.now) }
{
    let mut choices = Vec::new(alloc);
    for set in sets {
        add_one_lost(alloc, &mut choices, set.as_slice())?;
    }
    for set in sets {
        if set.len() > 1 {
            choices.push(Choice::of(alloc, &[], set.as_slice())?)?;
        }
    }
    choices.truncate(MOST_RESORTS);
    Ok(choices)
}

/// Adds each way in which one of the set is declared lost, and the others boot.
fn add_one_lost(alloc: Global, choices: &mut Vec<Choice>, set: &[OsdId]) -> Result<(), AllocError>
    ensures { OnOk result (choices.new.items ≡ choices.old.items ++ one_lost set.now) }
{
    for osd in set {
        let others = without(alloc, set, *osd)?;
        choices.push(Choice::of(alloc, others.as_slice(), &[*osd])?)?;
    }
    Ok(())
}

/// The devices without this one.
fn without(alloc: Global, osds: &[OsdId], osd: OsdId) -> Result<Vec<OsdId>, AllocError>
    ensures { IfOk result (λ others. others.items ≡ filtered (λ other. not (nat_eq other osd)) osds.now) }
{
    osds.iter()
        .copied()
        .filter(|other| *other != osd)
        .collect(alloc)
}
