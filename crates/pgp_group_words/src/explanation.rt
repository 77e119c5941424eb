ghost use Rattle.std.specs.Prelude.{◌≡◌, IfOk};
ghost use Rattle.pgp_group.specs.Heard.{has_member};
ghost use Rattle.pgp_group_words.specs.Sentence.{naming_of, unheard_of};

use super::offset::EpochOffset;
use super::page::Naming;
use pgp_ids::{Info, Member, PgId, PoolSpec, Seq, View};
use pgp_reasons::Reasons;
use std::alloc::{AllocError, Global};

/// What there is to say of a group.
#[derive(Drop)]
pub struct Explanation {
    pub pg: PgId,
    /// Its pool, by the last map.
    pub pool: PoolSpec,
    pub view: View,
    pub reasons: Reasons,
}

impl Explanation {
    /// How its members and epochs are named.
    pub(crate) fn naming(&self, offset: EpochOffset) -> Naming
        ensures { result ≡ naming_of self.now offset }
    {
        Naming {
            by_place: self.pool.kind.is_by_place(),
            offset,
        }
    }

    /// The members that have to be heard and haven't been, in ascending order.
    #[tactic(auto, unfolding(crate::specs::Sentence::unheard_of))]
    pub(crate) fn unheard(&self, alloc: Global) -> Result<Seq<Member>, AllocError>
        ensures { IfOk result (λ members. members ≡ unheard_of self.now) }
    {
        let heard = self.reasons.heard.as_slice();
        let probe = self.view.probe.as_slice();
        let members: Vec<Member> = probe
            .iter()
            .copied()
            .filter(|member| !is_heard(heard, *member))
            .collect(alloc)?;
        Ok(Seq::from_vec(members))
    }
}

/// Whether one of the infos is of this member.
fn is_heard(infos: &[Info], member: Member) -> bool
    ensures { result ≡ has_member member infos.now }
{
    infos.iter().any(|info| info.member == member)
}
