//! The lists of what a log says of a placement group, as C reads them.

ghost use Rattle.std.specs.Prelude.{◌≡◌, ℕ, List, map, refl};
ghost use Rattle.pgp_group.specs.Touched.{view_at};
ghost use Rattle.pgp_ids.specs.declared.view.View.{View as AnyView};
ghost use Rattle.pgp_c.specs.Changed.{pgp_group_of};
ghost use Rattle.pgp_c.specs.Lists.{Lists, pgp_device, interval_of, member_of, peer_of};

use super::ask::ask;
use super::each::{AsC, put_each};
use super::place::{device_number, sixteen};
use super::session::PgpSession;
use super::status::Status;
use pgp_ids::{Member, OsdId, Past, PeerMissing, PeerState, PgId, View};
use std::alloc::Global;

/// A member of a group.
#[repr(C)]
#[derive(Clone, Copy)]
pub struct PgpMember {
    pub osd: u16,
    pub slot: u8,
}

/// A past interval of a group. A place without a device, one behind the end of its list, and a list without a primary have 65535.
#[repr(C)]
#[derive(Clone, Copy)]
pub struct PgpInterval {
    /// Its first epoch.
    pub first: u32,
    /// Its last epoch.
    pub last: u32,
    pub up_primary: u16,
    pub acting_primary: u16,
    pub size: u8,
    pub min_size: u8,
    /// How many places `up` has.
    pub up_length: u8,
    /// How many places `acting` has.
    pub acting_length: u8,
    pub up: [u16; 16],
    pub acting: [u16; 16],
    /// 1 where the group may have gone read-write in it, else 0.
    pub rw: u8,
}

/// The state of a member other than the best one.
#[repr(C)]
#[derive(Clone, Copy)]
pub struct PgpPeer {
    /// How many objects it lacks, where its state is 0.
    pub objects: usize,
    pub osd: u16,
    pub slot: u8,
    /// 0: it has all objects except these; 1: backfill; 2: diverged.
    pub state: u8,
}

/// A placement group.
#[repr(C)]
#[derive(Clone, Copy)]
pub struct PgpGroup {
    pub pool: u32,
    /// Its number in its pool.
    pub pg: u32,
}

/// A value of which a view has a list.
pub trait InView: Sized {
    // The list of them.
    ghost list_in: { AnyView → List Self };

    // It is the same at any count and epoch.
    ghost stays: { (count epoch : ℕ) (view : AnyView) → list_in (view_at count epoch view) ≡ list_in view };

    /// The list of them.
    fn list_in(view: &View) -> &[Self]
        ensures { result.now ≡ list_in view.now };
}

/// The members that have to be heard.
impl InView for Member {
    ghost list_in = { λ view. view.probe };

    ghost stays = { λ count epoch view. refl };

    fn list_in(view: &View) -> &[Member] {
        view.probe.as_slice()
    }
}

/// The devices that block the group.
impl InView for OsdId {
    ghost list_in = { λ view. view.blocked_by };

    ghost stays = { λ count epoch view. refl };

    fn list_in(view: &View) -> &[OsdId] {
        view.blocked_by.as_slice()
    }
}

/// The past intervals.
impl InView for Past {
    ghost list_in = { λ view. view.intervals };

    ghost stays = { λ count epoch view. refl };

    fn list_in(view: &View) -> &[Past] {
        view.intervals.as_slice()
    }
}

/// The states of the heard members, except the best one.
impl InView for PeerMissing {
    ghost list_in = { λ view. view.missing };

    ghost stays = { λ count epoch view. refl };

    fn list_in(view: &View) -> &[PeerMissing] {
        view.missing.as_slice()
    }
}

/// Puts the list of values of this type that a session's view of a group has into `room` if they fit, and their number into `count`.
pub fn put_list<T: AsC<C> + InView, C: Copy>(
    alloc: Global,
    session: &mut PgpSession,
    pool: u32,
    pg: u32,
    room: &mut [C],
    count: &mut usize,
) -> u32
    ensures { Lists session.old.held.session session.new.held.session pool pg (λ view. map T.as_c (T.list_in view)) room.old room.new
        count.new result }
{
    *count = 0;
    let Some(mut opened) = session.take(alloc) else {
        return Status::NotOpen.number();
    };
    let status = match ask(&mut opened, pool, pg) {
        Ok(view) => put_each(T::list_in(view), room, count).number(),
        Err(status) => status,
    };
    session.put(opened);
    status
}

impl AsC<u16> for OsdId {
    ghost as_c = { pgp_device };

    fn as_c(&self) -> u16 {
        self.number()
    }
}

impl AsC<PgpMember> for Member {
    ghost as_c = { member_of };

    fn as_c(&self) -> PgpMember {
        PgpMember {
            osd: self.osd.number(),
            slot: self.slot,
        }
    }
}

impl AsC<PgpInterval> for Past {
    ghost as_c = { interval_of };

    fn as_c(&self) -> PgpInterval {
        PgpInterval {
            first: self.first.number(),
            last: self.last.number(),
            up_primary: device_number(self.members.up_primary),
            acting_primary: device_number(self.members.acting_primary),
            size: self.members.size,
            min_size: self.members.min_size,
            up_length: self.members.up.len() as u8,
            acting_length: self.members.acting.len() as u8,
            up: sixteen(&self.members.up),
            acting: sixteen(&self.members.acting),
            rw: u8::from(self.rw),
        }
    }
}

impl AsC<PgpPeer> for PeerMissing {
    ghost as_c = { peer_of };

    fn as_c(&self) -> PgpPeer {
        let (state, objects) = match &self.state {
            PeerState::Missing(objects) => (0, objects.len()),
            PeerState::Backfill => (1, 0),
            PeerState::Diverged => (2, 0),
        };
        PgpPeer {
            objects,
            osd: self.member.osd.number(),
            slot: self.member.slot,
            state,
        }
    }
}

impl AsC<PgpGroup> for PgId {
    ghost as_c = { pgp_group_of };

    fn as_c(&self) -> PgpGroup {
        PgpGroup {
            pool: u32::from(self.pool.number()),
            pg: u32::from(self.pg),
        }
    }
}
