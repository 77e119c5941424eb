//! The members that were heard and lack something of the best copy.

ghost use Rattle.std.specs.Prelude.{◌≡◌, filter, map, IfOk};
ghost use Rattle.pgp_group_words.specs.Lags.{laggard_name, lags as lags_behind};

use super::names::plural;
use super::page::{InWords, Page};
use pgp_ids::{PeerMissing, PeerState};
use std::alloc::{AllocError, Global};

/// Those of the members that lack something.
pub(crate) fn laggards(
    alloc: Global,
    peers: &[PeerMissing],
) -> Result<Vec<&PeerMissing>, AllocError>
    ensures { IfOk result (λ list. map (λ peer. peer.now) list.items ≡ filter lags_behind peers.now) }
{
    peers.iter().filter(|peer| lags(*peer)).collect(alloc)
}

/// Whether the member lacks something.
fn lags(peer: &PeerMissing) -> bool
    ensures { result ≡ lags_behind peer.now }
{
    match &peer.state {
        PeerState::Missing(objects) => !objects.is_empty(),
        PeerState::Backfill | PeerState::Diverged => true,
    }
}

/// A member, and what it lacks.
impl InWords for &PeerMissing {
    ghost words = { λ naming peer. laggard_name naming peer.now };

    fn put(&self, page: &mut Page) -> Result<(), AllocError> {
        self.member.put(page)?;
        match &self.state {
            PeerState::Missing(objects) => {
                let count = objects.len();
                let noun = plural(count, "object", "objects");
                write!(page, " lacks {count} {noun}")
            }
            PeerState::Backfill => page.push_str(" needs a backfill"),
            PeerState::Diverged => page.push_str(" has diverged"),
        }
    }
}
