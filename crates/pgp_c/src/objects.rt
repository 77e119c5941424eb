//! The objects that a member of a placement group lacks, as C reads them.

ghost use Rattle.std.specs.Prelude.{◌≡◌, option_map};
ghost use Rattle.pgp_c.specs.Objects.{ObjectsIn, lacked, name_room, pgp_object, objects_of};

use super::ask::ask;
use super::each::{AsC, put_each};
use super::info::member_of;
use super::status::Status;
use pgp_core::Session;
use pgp_ids::{Member, MissingObject, ObjectName, PeerMissing, PeerState};

/// An object that a member lacks.
#[repr(C)]
#[derive(Clone, Copy)]
pub struct PgpObject {
    /// The epoch and the number of the write that the member needs.
    pub epoch: u32,
    pub number: u32,
    /// How many bytes the name has, 1 to 255.
    pub name_length: u8,
    /// The name, in UTF-8, and zeros behind it.
    pub name: [u8; 255],
}

impl AsC<PgpObject> for MissingObject {
    ghost as_c = { pgp_object };

    fn as_c(&self) -> PgpObject {
        PgpObject {
            epoch: self.version.epoch.number(),
            number: self.version.v,
            name_length: self.object.as_str().len() as u8,
            name: name_room(&self.object),
        }
    }
}

/// The bytes of a name, and zeros behind them.
fn name_room(name: &ObjectName) -> [u8; 255]
    ensures { result ≡ name_room name.now }
{
    let bytes = name.as_str().as_bytes();
    let mut room = [0; 255];
    room[..bytes.len()].copy_from_slice(bytes);
    room
}

/// Puts the objects that a member of a group lacks, as the session says, into `room` if they fit, and their number into `count`.
pub fn put_objects(
    session: &mut Session,
    pool: u32,
    pg: u32,
    osd: u32,
    slot: u32,
    room: &mut [PgpObject],
    count: &mut usize,
) -> u32
    requires { count.old ≡ 0 }
    ensures same { session.new ≡ session.old }
    ensures objects { ObjectsIn session.old.log pool pg osd slot room.old room.new count.new result }
{
    let Some(member) = member_of(osd, slot) else {
        return Status::BadArgument.number();
    };
    match ask(session, pool, pg) {
        Ok(view) => match objects_of(view.missing.as_slice(), member) {
            Some(objects) => put_each(objects, room, count).number(),
            None => Status::NoList.number(),
        },
        Err(status) => status,
    }
}

/// The objects that a member lacks, if one of the states lists them.
fn objects_of(peers: &[PeerMissing], member: Member) -> Option<&[MissingObject]>
    ensures { option_map (λ objects. objects.now) result ≡ objects_of peers.now member }
{
    for peer in peers {
        if peer.member == member {
            return lacked(&peer.state);
        }
    }
    None
}

/// The objects that a state lists as lacking, if it has a list.
fn lacked(state: &PeerState) -> Option<&[MissingObject]>
    ensures { option_map (λ objects. objects.now) result ≡ lacked state.now }
{
    match state {
        PeerState::Missing(objects) => Some(objects.as_slice()),
        PeerState::Backfill | PeerState::Diverged => None,
    }
}
