//! The order in which the members of a group speak plays no part.

ghost use Rattle.std.specs.Prelude.{◌≡◌, List, length, option_map};
ghost use Rattle.pgp_ids.specs.declared.entry.Entry.{Entry};
ghost use Rattle.pgp_ids.specs.declared.pg_id.PgId.{PgId};
ghost use Rattle.pgp_group.specs.Interleaving.{TellTheSame, with_count};
ghost use Rattle.pgp_group.specs.View.{scratch};

/// Two logs with the same incrementals and, for a group, the same reports of each member in the same order have views of it
/// that are equal except for count. A group that one of them doesn't have, the other doesn't have either.
#[tactic(auto, using(crate::proofs::InterleavingLemmas::interleaved))]
pub fn interleaving()
    ensures { (log other : List Entry) (pg : PgId) → TellTheSame log other pg
        → scratch other pg ≡ option_map (with_count (length other)) (scratch log pg) }
{}
