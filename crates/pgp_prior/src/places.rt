//! For each device the places of the past intervals that it stands in.

ghost use Rattle.std.specs.Prelude.{ℕ, Contains, OnOk};
ghost use Rattle.pgp_ids.specs.declared.member.Member.{Member};
ghost use Rattle.pgp_prior.specs.Members.{members_of};
ghost use Rattle.pgp_prior.specs.kept.Places.{places_of};

use super::members::members_of;
use pgp_ids::{OsdId, Past, Seq};
use std::alloc::{AllocError, Global};
use std::collections::HashMap;

/// Adds the place of an interval in which the device stands, unless it is the last already.
fn add_place(
    alloc: Global,
    table: &mut HashMap<OsdId, Seq<usize>>,
    osd: OsdId,
    place: usize,
) -> Result<(), AllocError>
    ensures added { OnOk result (Contains (places_of table.new osd) place) }
    ensures kept { (q at : ℕ) → Contains (places_of table.old q) at → Contains (places_of table.new q) at }
{
    if let Some(places) = table.get_mut(&osd) {
        return add_last(places, place);
    }
    let mut places = Seq::new(alloc);
    places.push(place)?;
    table.insert(osd, places)?;
    Ok(())
}

/// Adds the place behind the others, unless it is the last already.
fn add_last(places: &mut Seq<usize>, place: usize) -> Result<(), AllocError>
    ensures added { OnOk result (Contains places.new place) }
    ensures kept { (at : ℕ) → Contains places.old at → Contains places.new at }
{
    if places.as_slice().last() == Some(&place) {
        return Ok(());
    }
    places.push(place)
}

/// Adds the place of this interval to each device that stands in it.
pub(crate) fn add_interval(
    alloc: Global,
    table: &mut HashMap<OsdId, Seq<usize>>,
    by_place: bool,
    past: &Past,
    place: usize,
) -> Result<(), AllocError>
    ensures added { OnOk result ((member : Member) → Contains (members_of by_place past.now.members.acting) member
        → Contains (places_of table.new member.osd) place) }
    ensures kept { (q at : ℕ) → Contains (places_of table.old q) at → Contains (places_of table.new q) at }
{
    for member in members_of(by_place, &past.members.acting) {
        add_place(alloc, table, member.osd, place)?;
    }
    Ok(())
}
