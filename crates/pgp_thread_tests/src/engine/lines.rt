//! What the tests submit and ask, by lines of the project's own format.
use crate::engine::opened::Host;
use pgp_fixtures::entry;
use pgp_ids::Entry;

/// The map of one group, an info of its device 0 without a write, the entries after which the group serves, and the group.
pub use pgp_fixtures::{COPIES as MAP, EMPTY_0, TO_SERVE, group};

pub const CLOSE: &str = r#"{"op":"close"}"#;

/// The entry that the line is. One allocation may be refused, and then the line is read once more.
pub fn given(rt: &impl Host, line: &str) -> Entry {
    match entry(rt.alloc(), line) {
        Some(entry) => entry,
        None => entry(rt.alloc(), line).expect(rt, "an entry"),
    }
}
