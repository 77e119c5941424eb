use pgp_ids::{Member, OsdId, Seq};

/// Whom a placement group has to hear, and for whom it has to wait.
#[derive(Debug, Drop)]
pub struct Prior {
    /// The members that have to be heard, in ascending order, each once.
    pub probe: Seq<Member>,
    /// The devices that have to come back or be given up for lost, in ascending order, each once.
    pub blocked_by: Seq<OsdId>,
    /// Whether the group has to wait for some of these.
    pub down: bool,
}
