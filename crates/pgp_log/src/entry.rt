//! What an entry is.

ghost use Rattle.std.specs.Prelude.{◌≡◌, option_map};
ghost use Rattle.pgp_group.specs.Entries.{inc_of};
ghost use Rattle.pgp_log.specs.Fits.{is_close};

use pgp_ids::{Entry, Incremental};

/// The map incremental that the entry is.
pub fn inc_of(entry: &Entry) -> Option<&Incremental>
    ensures { option_map (λ inc. inc.now) result ≡ inc_of entry.now }
{
    match entry {
        Entry::Inc(inc) => Some(inc),
        _ => None,
    }
}

/// The entry is a Close.
pub fn is_close(entry: &Entry) -> bool
    ensures { result ≡ is_close entry.now }
{
    matches!(entry, Entry::Close)
}
