//! Why a placement group doesn't serve, and what would end its waiting.
//!
//! The layers below say that a group is down, waits, or lacks log entries. This one says which past intervals block it, what has
//! become of their members, and what each lacks. It says which devices have to boot, or be given up for lost, so that the group is
//! down no more, whom it has heard, whose copies may be followed, and which writes the log of its best copy lacks. What is said
//! follows what `ceph pg query` shows of a group that is down (Ceph's developer documentation on peering); the smallest sets of
//! devices and what a way costs are this project's own.
//!
//! Each reason is worked out from nothing, for one group at the end of a script. Sets of devices are walked by size, up to a
//! bound, and the answer says whether there may be more. [`unblocks`] answers for devices that boot and others that are declared
//! lost, and [`price_of`] says what that costs.
#![tactic(auto)]

mod blocking;
mod copies;
mod enough;
mod fates;
mod gap;
mod gaps;
mod lacking;
pub mod laws;
mod price;
mod reasons;
mod relief;
mod reported;
mod set_walk;
mod shape;
mod short;
mod spread;
mod ways;

pub use blocking::Blocking;
pub use copies::Copies;
pub use fates::{IntervalNow, Writes};
pub use gap::Gap;
pub use price::{Price, price_of};
pub use reasons::{Reasons, reasons_of};
pub use relief::unblocks;
pub use short::Short;
pub use ways::{AnyOf, Sets, Ways};
