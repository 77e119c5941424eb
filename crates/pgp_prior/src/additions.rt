//! What is added to the two lists of a prior set.

ghost use Rattle.std.specs.Prelude.{◌≡◌, OnOk, nat_lt};
ghost use Rattle.pgp_ids.specs.Member.{is_before};
ghost use Rattle.pgp_lists.specs.Ordered.{IsAscending, with_items};
ghost use Rattle.pgp_prior.specs.Members.{members_of};
ghost use Rattle.pgp_prior.specs.Blocks.{is_up_status, acting_where, down_osds};

use super::blocking::is_down;
use super::members::members_of;
use pgp_ids::{Member, OsdId, Osds, Past};
use pgp_lists::insert_in_order;
use pgp_sets::{Status, StatusOf};
use std::alloc::AllocError;

/// Adds the members of a list of devices.
pub fn add_members(list: &mut Vec<Member>, by_place: bool, osds: &Osds) -> Result<(), AllocError>
    requires { IsAscending is_before list.old.items }
    ensures { OnOk result (list.new.items ≡ with_items is_before (members_of by_place osds.now) list.old.items) }
{
    for member in members_of(by_place, osds) {
        insert_in_order(list, member)?;
    }
    Ok(())
}

/// Adds the acting members of the interval that are up.
pub fn add_up<S: StatusOf>(
    list: &mut Vec<Member>,
    by_place: bool,
    statuses: &S,
    past: &Past,
) -> Result<(), AllocError>
    requires { IsAscending is_before list.old.items }
    ensures { OnOk result (list.new.items
        ≡ with_items is_before (acting_where is_up_status by_place (S.status_of statuses.now) past.now) list.old.items) }
{
    for member in members_of(by_place, &past.members.acting) {
        if is_up(statuses.status(member.osd, past.first)) {
            insert_in_order(list, member)?;
        }
    }
    Ok(())
}

/// Adds the acting devices of the interval that are down.
pub fn add_down<S: StatusOf>(
    list: &mut Vec<OsdId>,
    by_place: bool,
    statuses: &S,
    past: &Past,
) -> Result<(), AllocError>
    requires { IsAscending nat_lt list.old.items }
    ensures { OnOk result (list.new.items
        ≡ with_items nat_lt (down_osds by_place (S.status_of statuses.now) past.now) list.old.items) }
{
    for member in members_of(by_place, &past.members.acting) {
        if is_down(statuses.status(member.osd, past.first)) {
            insert_in_order(list, member.osd)?;
        }
    }
    Ok(())
}

/// Whether a device of this status can be asked.
fn is_up(status: Status) -> bool
    ensures { result ≡ is_up_status status }
{
    status == Status::Up
}
