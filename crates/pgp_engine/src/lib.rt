//! An engine over one published log: any thread submits an entry or asks about a group, and each answer is worked out of a
//! front of that log which holds all that the caller was told of.
//!
//! An [`Intake`] judges an entry by the whole log and publishes it. A [`Shard`] reads the log one front after another, and
//! answers for its own groups by the front that it has read. An [`Engine`] has them under locks: a submit is a turn of the
//! intake's lock, and an ask or an absorb is a turn of one shard's. A [`Client`] reads the log by itself and waits for
//! nobody: it has a front of the log, which never goes back, and a map of its own, by which it places objects.
//!
//! The intake's judge, a shard's state and a client's chart each follow the log (`Follower`).
//! `Engine::work` is what a worker does, and a [`Gate`] is where whoever runs the engine may hold it. Why a call was out of
//! memory, or was lent no copy, [`Intake`] and [`Shard`] say of themselves, and an engine doesn't: it would have to name what
//! stood under the lock.
#![tactic(auto)]

mod answer;
mod client;
mod engine;
mod entry_buffer;
mod fault;
mod follower;
mod gate;
mod intake;
mod naming;
mod shard;

pub use answer::{Answer, Place, SubmitAnswer};
pub use client::{Client, LocateFault};
pub use engine::Engine;
pub use fault::{AskFault, SubmitFault};
pub use gate::{Gate, Open};
pub use intake::Intake;
pub use naming::Naming;
pub use pgp_feed::{MakeFault, ReadFault};
pub use shard::Shard;
