//! How many entries of each kind a log has.

ghost use Rattle.std.specs.Prelude.{◌≡◌, map, true};
ghost use Rattle.std.specs.Arc.{arc_value};
ghost use Rattle.pgp_log.specs.Log.{is_legal};
ghost use Rattle.pgp_core.specs.Counts.{AreFew, counts_of, counts_with};

use pgp_ids::Entry;
use std::sync::Arc;

/// How many entries of each kind a log has. A close isn't counted.
#[derive(Clone, Copy)]
pub struct EntryCounts {
    pub incrementals: usize,
    pub infos: usize,
    /// Parts of members' logs.
    pub parts: usize,
}

impl EntryCounts {
    /// Those of a legal log.
    pub fn of(entries: &[Arc<Entry>]) -> EntryCounts
        requires { is_legal (map arc_value entries.now) ≡ true }
        ensures { result ≡ counts_of (map arc_value entries.now) }
    {
        let mut counts = EntryCounts {
            incrementals: 0,
            infos: 0,
            parts: 0,
        };
        for entry in entries {
            counts = counts.with(entry);
        }
        counts
    }

    /// Those with one entry more.
    pub fn with(self, entry: &Entry) -> EntryCounts
        requires { AreFew self }
        ensures { result ≡ counts_with self entry.now }
    {
        let mut counts = self;
        match entry {
            Entry::Inc(_) => counts.incrementals += 1,
            Entry::Info(_) => counts.infos += 1,
            Entry::Entries(_) => counts.parts += 1,
            Entry::Close => {}
        }
        counts
    }
}
