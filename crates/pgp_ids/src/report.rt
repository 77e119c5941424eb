use super::epoch::Epoch;
use super::log_entry::LogEntry;
use super::member::Member;
use super::pg_id::PgId;
use super::seq::Seq;
use super::version::Version;

/// What a member tells of its copy of a group (Ceph's pg_info_t).
#[derive(Clone, Copy, Debug, PartialEq, Eq)]
pub struct Info {
    pub pg: PgId,
    /// Who sent it.
    pub member: Member,
    /// The sender's epoch.
    pub stamp: Epoch,
    /// The last epoch in which the member's copy began to serve (last_epoch_started).
    pub les: Epoch,
    /// The last epoch in which the group began to serve, as far as the member knows (the history's last_epoch_started).
    pub history_les: Epoch,
    /// The last epoch in which the group was clean, as far as the member knows (the history's last_epoch_clean); 0 where it
    /// knows of none.
    pub last_epoch_clean: Epoch,
    /// The last write that the copy has.
    pub last_update: Version,
    /// The version before the first entry of the member's log.
    pub log_tail: Version,
    /// Whether the copy has each object of the group.
    pub complete: bool,
}

/// Entries of a member's log of a group.
#[derive(Debug, PartialEq, Eq, Drop)]
pub struct Report {
    pub pg: PgId,
    /// Who sent it.
    pub member: Member,
    /// The sender's epoch.
    pub stamp: Epoch,
    /// 1 to 256 entries, in any order.
    pub log: Seq<LogEntry>,
}
