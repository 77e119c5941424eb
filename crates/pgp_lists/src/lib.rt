//! Lists, whatever they are of.
//!
//! This layer decides nothing. It has the words for lists that layers above share, and what holds
//! of them: the last element that passes a test, lists in ascending order, items that are twice in a list,
//! and lists whose elements came one after another, each judged by those before it. Beside them
//! stand the lemmas on members, pairs, ranges and places of lists that the standard library leaves
//! to its users.
#![tactic(auto)]

mod ascending;
mod twice;

pub use ascending::insert_in_order;
pub use twice::has_repeat;
