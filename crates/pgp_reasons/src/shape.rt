//! Whether any so many of some devices are enough.

ghost use Rattle.std.specs.Prelude.{◌≡◌, ◌++◌, true, filter, IfOk, IfSome, OnOk};
ghost use Rattle.pgp_reasons.specs.kept.Shape.{takes_part, is_as_wanted, IsEach};
ghost use Rattle.pgp_reasons.specs.Smallest.{IsAnyOf};

use super::enough::{Enough, leave_out};
use super::set_walk::LOOKS;
use super::ways::AnyOf;
use pgp_ids::{OsdId, Seq};
use std::alloc::{AllocError, Global};

/// How many of which devices are enough, whichever they are, if it is so of these devices, which are enough.
///
/// One of the smallest sets tells how many, and which devices may stand in for one of it. Then all sets of so many of those have to
/// be enough, and none of one fewer may be, not even with all other devices. It isn't said if too many sets had to be judged.
pub(crate) fn any_of<E: Enough>(
    alloc: Global,
    judge: &E,
    among: &[OsdId],
) -> Result<Option<AnyOf>, AllocError>
    requires { E.enough judge.now among.now ≡ true }
    ensures { IfOk result (λ found. IfSome found (IsAnyOf (E.enough judge.now) among.now)) }
{
    let one = leave_out(alloc, judge, among)?;
    let one = one.as_slice();
    let some = those_that(alloc, judge, among, one, true)?;
    let others = those_that(alloc, judge, among, one, false)?;
    let least = one.len();
    if least == 0 || some.len() <= least {
        return Ok(None);
    }
    let mut walk = ShapeWalk {
        judge,
        looks: LOOKS,
        chosen: Vec::new(alloc),
    };
    if !walk.is_each(some.as_slice(), least, &[], true)? {
        return Ok(None);
    }
    if !walk.is_each(some.as_slice(), least - 1, others.as_slice(), false)? {
        return Ok(None);
    }
    Ok(Some(AnyOf {
        least,
        osds: Seq::from_vec(some),
    }))
}

/// Those of the devices that may stand in for one of the set, or else those that may not.
fn those_that<E: Enough>(
    alloc: Global,
    judge: &E,
    among: &[OsdId],
    set: &[OsdId],
    wanted: bool,
) -> Result<Vec<OsdId>, AllocError>
    ensures { IfOk result (λ osds. osds.items
        ≡ filter (λ osd. is_as_wanted wanted (takes_part (E.enough judge.now) set.now osd)) among.now) }
{
    among
        .iter()
        .copied()
        .filter(|osd| takes_part(judge, set, *osd) == wanted)
        .collect(alloc)
}

/// Whether the device is one of the set, or is enough with those that follow the first of the set.
fn takes_part<E: Enough>(judge: &E, set: &[OsdId], osd: OsdId) -> bool
    ensures { result ≡ takes_part (E.enough judge.now) set.now osd }
{
    set.contains(&osd) || judge.is_enough(set.get(1..).unwrap_or(&[]), &[osd])
}

/// A walk over the sets of so many devices, all of which have to be judged alike.
#[derive(Drop)]
struct ShapeWalk<'a, E> {
    judge: &'a E,
    /// How many more sets may be judged.
    looks: usize,
    /// The devices that were chosen so far.
    chosen: Vec<OsdId>,
}

impl<E: Enough> ShapeWalk<'_, E> {
    /// Whether the chosen devices, with any so many of the rest and the others, are judged as is wanted. It says that they aren't
    /// once no more sets may be judged.
    fn is_each(
        &mut self,
        rest: &[OsdId],
        left: usize,
        others: &[OsdId],
        wanted: bool,
    ) -> Result<bool, AllocError>
        ensures each { IfOk result (λ is. is ≡ true → IsEach (E.enough self.old.judge.now) wanted self.old.chosen.items left rest.now others.now) }
        ensures chosen { OnOk result (self.new.chosen.items ≡ self.old.chosen.items) }
        ensures judge { self.new.judge ≡ self.old.judge }
    {
        if left == 0 {
            return Ok(self.look(others, wanted));
        }
        if rest.len() < left {
            return Ok(true);
        }
        let Some((first, later)) = rest.split_first() else {
            return Ok(true);
        };
        self.chosen.push(*first)?;
        let with_first = self.is_each(later, left - 1, others, wanted)?;
        self.chosen.pop();
        if !with_first {
            return Ok(false);
        }
        self.is_each(later, left, others, wanted)
    }

    /// Whether the chosen devices and the others are judged as is wanted, and this set may be judged.
    fn look(&mut self, others: &[OsdId], wanted: bool) -> bool
        ensures said { result ≡ true → E.enough self.old.judge.now (self.old.chosen.items ++ others.now) ≡ wanted }
        ensures chosen { self.new.chosen ≡ self.old.chosen }
        ensures judge { self.new.judge ≡ self.old.judge }
    {
        if self.looks == 0 {
            return false;
        }
        self.looks -= 1;
        self.judge.is_enough(self.chosen.as_slice(), others) == wanted
    }
}
