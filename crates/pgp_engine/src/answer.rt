//! What a call is answered.
use pgp_feed::Receipt;
use pgp_ids::{Epoch, Membership, PgId, View};

/// The view of a group, and the receipt of the front that it was worked out of. The view is a clone: the one that the shard keeps
/// serves every front that doesn't touch the group, so it has the count and the epoch of none.
#[derive(Drop)]
pub struct Answer {
    pub view: View,
    pub at: Receipt,
}

/// The front that ends with the entry that was submitted, and the epoch of its map.
#[derive(Drop)]
pub struct SubmitAnswer {
    pub at: Receipt,
    pub epoch: Epoch,
}

/// Where an object lies: its group, where the map puts the group, by which front of the log, and the epoch of the map that it
/// was found by.
#[derive(Drop)]
pub struct Place {
    pub pg: PgId,
    pub members: Membership,
    pub at: Receipt,
    pub epoch: Epoch,
}
