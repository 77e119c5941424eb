use super::explanation::Explanation;
use super::outcome::Outcome;
use pgp_ids::Seq;

/// What there is to say of a group, and what would end its waiting.
#[derive(Drop)]
pub struct Advice {
    pub explanation: Explanation,
    /// Ways that only start devices. None where the group isn't down.
    pub ways: Seq<Outcome>,
    /// Ways that declare devices lost, where these are wanted.
    pub last_resort: Option<Seq<Outcome>>,
}
