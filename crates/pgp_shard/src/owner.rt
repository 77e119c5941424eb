//! Which of several shards it is.

ghost use Rattle.std.specs.Prelude.{◌≡◌, ◌<◌};
ghost use Rattle.pgp_shard.specs.Shard.{is_own};

use super::shard::shard_of;
use pgp_ids::PgId;

/// One of several shards, by its number.
#[derive(Clone, Copy)]
pub(crate) struct Owner {
    pub(crate) shard: usize,
    pub(crate) shards: usize,
    ghost within: { shard < shards },
}

impl Owner {
    /// The group is one of this shard's.
    pub(crate) fn owns(&self, pg: &PgId) -> bool
        ensures { result ≡ is_own self.now.shard self.now.shards pg.now }
    {
        shard_of(self.shards, pg) == self.shard
    }
}
