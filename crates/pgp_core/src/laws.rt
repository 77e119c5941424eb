//! What the definitions say of logs, and of small scripts. The laws of logs are proved where their definitions live.
#![tactic(auto)]

pub mod entries;
pub mod scripts;

pub use pgp_group::laws::interleaving::interleaving;
pub use pgp_log::laws::reckoning::{reckoned, relief, served};
