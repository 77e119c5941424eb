use super::osd::OsdId;

/// A member of a placement group: a device in a slot. Ordered by device and then by slot.
///
/// In a replicated pool the slot is 0. In an erasure pool it is the place in the group's list, whose shard the device
/// holds.
#[derive(Clone, Copy, Debug, PartialEq, Eq, PartialOrd, Ord)]
pub struct Member {
    pub osd: OsdId,
    /// 0 to 15.
    pub slot: u8,
}
