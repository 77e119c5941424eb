//! The rule of a pool.

/// How a pool places its groups.
#[derive(Clone, Copy, Debug, PartialEq, Eq)]
pub struct Rule {
    /// Each position keeps its place (erasure pools), or the first devices are listed (replicated pools).
    pub indep: bool,
    /// The type of the items of which no two are chosen, 0 to choose devices.
    pub leaf: u8,
}
