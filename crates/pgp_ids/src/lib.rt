//! The plain data that every layer speaks of: ids, epochs and versions, lists of devices and sets of slots, memberships
//! and past intervals, what monitor and devices tell (map incrementals, infos, log entries) and what is answered (views).
//! Beside them stands why a line, a question or an entry is refused.
//!
//! This crate decides only which parts a grouped pool can have. It fixes the names and ranges, and what a contract sees of
//! each type: an id is its number, a list is a list, a set of slots is the ascending list of its slots, a place of a list of
//! devices is an `Option` of its device. A refusal has its number and its name in answers.
#![tactic(auto)]

mod ask_refusal;
mod bucket;
mod entry;
mod epoch;
mod history;
mod incremental;
mod locate_refusal;
mod log_entry;
mod member;
mod membership;
mod object_name;
mod osd;
mod osds;
mod part;
mod past;
mod peer;
mod pg_id;
mod place;
mod pool;
mod pool_id;
mod refusal;
mod report;
mod seq;
mod slots;
mod text_fault;
mod verdict;
mod version;
mod view;

pub use ask_refusal::AskRefusal;
pub use bucket::{BucketAlg, BucketSpec};
pub use entry::Entry;
pub use epoch::Epoch;
pub use history::{EpochState, PrimaryFacts};
pub use incremental::{DeviceEpoch, DeviceWeight, Incremental, TempList};
pub use locate_refusal::LocateRefusal;
pub use log_entry::{Change, LogEntry};
pub use member::Member;
pub use membership::Membership;
pub use object_name::ObjectName;
pub use osd::OsdId;
pub use osds::{MAX_OSDS, Osds};
pub use part::{MAX_PARTS, Part, Parts};
pub use past::Past;
pub use peer::{MissingObject, PeerMissing, PeerState};
pub use pg_id::PgId;
pub use place::Place;
pub use pool::{PoolKind, PoolSizes, PoolSpec};
pub use pool_id::PoolId;
pub use refusal::Refusal;
pub use report::{Info, Report};
pub use seq::Seq;
pub use slots::{SLOT_LIMIT, SlotSet};
pub use text_fault::TextFault;
pub use verdict::Verdict;
pub use version::Version;
pub use view::View;
