//! When the slots at hand are enough to serve a group: the codes that a pool can have.
//!
//! A code is anything that meets the laws of [`Recoverable`]: more slots never hurt, and the empty set is never enough.
//! The layers above use these laws alone.
#![tactic(auto)]

mod any;
mod erasure;
mod grouped;
pub mod laws;
mod recoverable;
mod replicated;

pub use any::AnyCode;
pub use erasure::Erasure;
pub use grouped::Grouped;
pub use recoverable::Recoverable;
pub use replicated::Replicated;
