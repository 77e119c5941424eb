//! Tests of the library crates, of what their contracts leave open.
//!
//! They stand together, above all that they call: a crate with tests is proved a second time with them, and so the
//! libraries are proved once. Nothing else is here, and nothing stands on this crate.
#![tactic(auto)]

#[cfg(test)]
mod choices;
#[cfg(test)]
mod fault_places;
#[cfg(test)]
mod hashes;
#[cfg(test)]
mod judged_intervals;
#[cfg(test)]
mod shard_growths;
#[cfg(test)]
mod shards;
#[cfg(test)]
mod straw2;
#[cfg(test)]
mod trees;
