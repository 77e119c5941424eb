//! Hashes of words and of object names, and the group of a hash in a pool.
//!
//! This layer decides what numbers placement works with: [`mix`], Robert Jenkins' mixing of three
//! words, and over it the hashes [`hash2`], [`hash3`] and [`hash4`] with which CRUSH chooses, the
//! hash [`name_hash`] of an object's name, and [`stable_mod`], which gives a hash its placement
//! group. It takes no memory and refuses nothing. [`laws`] has worked examples, and what holds of
//! groups as a pool grows.
#![tactic(auto)]

mod groups;
pub mod laws;
mod mixing;
mod name;
mod words;

pub use groups::{mask_of, stable_mod};
pub use mixing::{Triple, mix};
pub use name::name_hash;
pub use words::{hash2, hash3, hash4};
