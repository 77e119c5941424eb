//! For what a line was out of memory: for itself, or for the entry that it is.

/// What there was no memory for.
#[derive(Clone, Copy)]
pub enum Want {
    /// A line, or the answer to it.
    Line,
    /// An entry that a line was read as.
    Entry,
}
