//! What a member says of its copy of a group, as C gives it.

ghost use Rattle.std.specs.Prelude.{◌≡◌, ◌↔◌, IsSome, IfSome};
ghost use Rattle.pgp_c.specs.Info.{IsInfo, SubmitsIn, told_info};
ghost use Rattle.pgp_c.specs.Member.{AreOfMember, member};

use super::ask::group_of;
use super::status::Status;
use super::submit::tell;
use pgp_core::Session;
use pgp_ids::{Entry, Epoch, Info, Member, OsdId, Version};

/// The greatest slot of a member.
const LAST_SLOT: u32 = 15;

/// What a member says of its copy of a group.
#[repr(C)]
pub struct PgpInfo {
    /// 1 to 255.
    pub pool: u32,
    /// 0 to 1,023.
    pub pg: u32,
    /// The device that sent it, 0 to 4,095.
    pub osd: u32,
    /// Its slot, 0 to 15.
    pub slot: u32,
    /// The sender's epoch.
    pub stamp: u32,
    /// The last epoch in which its copy began to serve.
    pub les: u32,
    /// The last epoch in which the group began to serve, as far as it knows.
    pub history_les: u32,
    /// The last epoch in which the group was clean, as far as it knows; 0 where it knows of none.
    pub last_epoch_clean: u32,
    /// The epoch and the number of the last write that the copy has.
    pub last_update_epoch: u32,
    pub last_update: u32,
    /// The epoch and the number of the version before the first entry of its log.
    pub log_tail_epoch: u32,
    pub log_tail: u32,
    /// 1 where the copy has each object of the group, else 0.
    pub complete: u8,
}

/// Adds an info to the session's log.
pub fn submit_info(session: &mut Session, info: &PgpInfo) -> u32
    ensures { SubmitsIn session.old session.new info.now result }
{
    let Some(info) = info_of(info) else {
        return Status::BadArgument.number();
    };
    tell(session, Entry::Info(info))
}

/// The info with these numbers, if each is in its range.
fn info_of(info: &PgpInfo) -> Option<Info>
    ensures in_range { IsSome result ↔ IsInfo info.now }
    ensures value { IfSome result (λ it. it ≡ told_info info.now) }
{
    let pg = group_of(info.pool, info.pg)?;
    let member = member_of(info.osd, info.slot)?;
    if info.complete > 1 {
        return None;
    }
    Some(Info {
        pg,
        member,
        stamp: Epoch::new(info.stamp),
        les: Epoch::new(info.les),
        history_les: Epoch::new(info.history_les),
        last_epoch_clean: Epoch::new(info.last_epoch_clean),
        last_update: version_of(info.last_update_epoch, info.last_update),
        log_tail: version_of(info.log_tail_epoch, info.log_tail),
        complete: info.complete == 1,
    })
}

/// The member with these numbers, if each is in its range.
pub fn member_of(osd: u32, slot: u32) -> Option<Member>
    ensures in_range { IsSome result ↔ AreOfMember osd slot }
    ensures value { IfSome result (λ it. it ≡ member osd slot) }
{
    if osd > u32::from(OsdId::MAX) || slot > LAST_SLOT {
        return None;
    }
    let osd = OsdId::new(osd as u16)?;
    Some(Member {
        osd,
        slot: slot as u8,
    })
}

/// The version with this epoch and this number.
pub fn version_of(epoch: u32, v: u32) -> Version
    ensures { (result.epoch ≡ epoch) × (result.v ≡ v) }
{
    Version {
        epoch: Epoch::new(epoch),
        v,
    }
}
