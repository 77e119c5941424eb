ghost use Rattle.std.specs.Prelude.{◌≡◌};
ghost use Rattle.pgp_ids.specs.Names.{peer_state_name};

use super::member::Member;
use super::object_name::ObjectName;
use super::seq::Seq;
use super::version::Version;

/// An object that a peer lacks.
#[derive(Debug, Drop)]
pub struct MissingObject {
    pub object: ObjectName,
    /// The write that the peer needs.
    pub version: Version,
}

/// How a member's copy compares with the best one.
#[derive(Debug, Drop)]
pub enum PeerState {
    /// It has all but these objects, which are in ascending order of their names.
    Missing(Seq<MissingObject>),
    /// The log doesn't reach back to it, so the whole copy has to be gone through.
    Backfill,
    /// Its last write isn't in the log.
    Diverged,
}

impl PeerState {
    /// The word for it in answers.
    pub fn name(&self) -> &'static str
        ensures { result.now ≡ peer_state_name self.now }
    {
        match self {
            PeerState::Missing(_) => "missing",
            PeerState::Backfill => "backfill",
            PeerState::Diverged => "diverged",
        }
    }
}

/// The state of a member other than the best one.
#[derive(Debug, Drop)]
pub struct PeerMissing {
    pub member: Member,
    pub state: PeerState,
}
