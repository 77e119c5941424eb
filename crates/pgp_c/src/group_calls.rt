//! Calls that say where objects lie, and what a session's log says of groups.

ghost use Rattle.std.specs.Prelude.{map};
ghost use Rattle.pgp_c.specs.Ask.{Asks};
ghost use Rattle.pgp_c.specs.Changed.{TellsChanged};
ghost use Rattle.pgp_c.specs.Lists.{Lists, pgp_device, interval_of, member_of, peer_of};
ghost use Rattle.pgp_c.specs.Locate.{Locates};
ghost use Rattle.pgp_c.specs.Objects.{Objects};

use super::ask::ask;
use super::each::put_each;
use super::lists::{PgpGroup, PgpInterval, PgpMember, PgpPeer, put_list};
use super::locate::locate;
use super::objects::{PgpObject, put_objects};
use super::place::PgpPlace;
use super::session::PgpSession;
use super::status::Status;
use super::view::{PgpView, view_of};
use pgp_ids::{Member, OsdId, Past, PeerMissing};
use std::alloc::Global;

/// Puts into `place` where the object of this name lies, by the map of the session's log. The name has 1 to 255 bytes of UTF-8.
/// Only a name of more than 24 bytes takes memory.
#[unsafe(no_mangle)]
pub extern "C" fn pgp_locate(
    alloc: Global,
    session: &mut PgpSession,
    pool: u32,
    name: &[u8],
    place: &mut PgpPlace,
) -> u32
    ensures { Locates session.old.held.session session.new.held.session pool name.now place.old place.new result }
{
    let Some(mut opened) = session.take(alloc) else {
        return Status::NotOpen.number();
    };
    let status = locate(alloc, &mut opened, pool, name, place);
    session.put(opened);
    status
}

/// Puts into `view` what the session's log says of a group.
#[unsafe(no_mangle)]
pub extern "C" fn pgp_ask(
    alloc: Global,
    session: &mut PgpSession,
    pool: u32,
    pg: u32,
    view: &mut PgpView,
) -> u32
    ensures { Asks session.old.held.session session.new.held.session pool pg view.old view.new result }
{
    let Some(mut opened) = session.take(alloc) else {
        return Status::NotOpen.number();
    };
    let count = opened.entries().len();
    let epoch = opened.epoch();
    let status = match ask(&mut opened, pool, pg) {
        Ok(of_group) => {
            *view = view_of(of_group, count, epoch);
            Status::Done.number()
        }
        Err(status) => status,
    };
    session.put(opened);
    status
}

/// Puts the members that have to be heard into `room` if they fit, and their number into `count`.
#[unsafe(no_mangle)]
pub extern "C" fn pgp_probe(
    alloc: Global,
    session: &mut PgpSession,
    pool: u32,
    pg: u32,
    room: &mut [PgpMember],
    count: &mut usize,
) -> u32
    ensures { Lists session.old.held.session session.new.held.session pool pg (λ view. map member_of view.probe) room.old room.new
        count.new result }
{
    put_list::<Member, PgpMember>(alloc, session, pool, pg, room, count)
}

/// Puts the devices that block a group into `room` if they fit, and their number into `count`.
#[unsafe(no_mangle)]
pub extern "C" fn pgp_blocked_by(
    alloc: Global,
    session: &mut PgpSession,
    pool: u32,
    pg: u32,
    room: &mut [u16],
    count: &mut usize,
) -> u32
    ensures { Lists session.old.held.session session.new.held.session pool pg (λ view. map pgp_device view.blocked_by) room.old room.new
        count.new result }
{
    put_list::<OsdId, u16>(alloc, session, pool, pg, room, count)
}

/// Puts the past intervals of a group into `room` if they fit, and their number into `count`.
#[unsafe(no_mangle)]
pub extern "C" fn pgp_intervals(
    alloc: Global,
    session: &mut PgpSession,
    pool: u32,
    pg: u32,
    room: &mut [PgpInterval],
    count: &mut usize,
) -> u32
    ensures { Lists session.old.held.session session.new.held.session pool pg (λ view. map interval_of view.intervals) room.old room.new
        count.new result }
{
    put_list::<Past, PgpInterval>(alloc, session, pool, pg, room, count)
}

/// Puts the states of the heard members, except the best one, into `room` if they fit, and their number into `count`.
#[unsafe(no_mangle)]
pub extern "C" fn pgp_missing(
    alloc: Global,
    session: &mut PgpSession,
    pool: u32,
    pg: u32,
    room: &mut [PgpPeer],
    count: &mut usize,
) -> u32
    ensures { Lists session.old.held.session session.new.held.session pool pg (λ view. map peer_of view.missing) room.old room.new
        count.new result }
{
    put_list::<PeerMissing, PgpPeer>(alloc, session, pool, pg, room, count)
}

/// Puts the objects that a member of a group lacks into `room` if they fit, and their number into `count`.
#[unsafe(no_mangle)]
pub extern "C" fn pgp_missing_objects(
    alloc: Global,
    session: &mut PgpSession,
    pool: u32,
    pg: u32,
    osd: u32,
    slot: u32,
    room: &mut [PgpObject],
    count: &mut usize,
) -> u32
    ensures { Objects session.old.held.session session.new.held.session pool pg osd slot room.old room.new count.new result }
{
    *count = 0;
    let Some(mut opened) = session.take(alloc) else {
        return Status::NotOpen.number();
    };
    let status = put_objects(&mut opened, pool, pg, osd, slot, room, count);
    session.put(opened);
    status
}

/// Puts the groups that may have changed since the session's log had `since` entries into `room` if they fit, and their number into
/// `count`.
#[unsafe(no_mangle)]
pub extern "C" fn pgp_changed(
    alloc: Global,
    session: &mut PgpSession,
    since: usize,
    room: &mut [PgpGroup],
    count: &mut usize,
) -> u32
    ensures { TellsChanged session.old.held.session session.new.held.session since room.old room.new count.new result }
{
    *count = 0;
    let Some(mut opened) = session.take(alloc) else {
        return Status::NotOpen.number();
    };
    let changed = opened.changed_since(since);
    session.put(opened);
    match changed {
        Ok(groups) => put_each(groups.as_slice(), room, count).number(),
        Err(_) => Status::NoMemory.number(),
    }
}
