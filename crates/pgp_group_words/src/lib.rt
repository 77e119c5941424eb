//! What is told of one group, in words for an operator and as JSON: why it doesn't serve, and what it waits for.
//!
//! This layer decides the text of an [`Advice`], and nothing else: that has an [`Explanation`], which is the group's view, the
//! reasons of pgp_reasons and its pool, and the [`Outcome`] of each way on. The contracts of [`Advice::words`] and
//! [`Advice::json`] define the text whole; words are put together on a `Page`. A summary of groups names counts and epochs in the
//! same way, and is written as JSON by the same parts.
#![tactic(auto)]

mod advice;
mod explanation;
mod group_json;
mod group_words;
mod interval_words;
mod json_parts;
mod lags;
mod names;
mod offset;
mod outcome;
mod page;
mod sentence;
mod spans;
mod ways_json;
mod ways_words;

pub use advice::Advice;
pub use explanation::Explanation;
pub use group_json::into_line;
pub use names::plural;
pub use offset::EpochOffset;
pub use outcome::{Outcome, Then};
