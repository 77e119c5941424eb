//! Whose copy of a group is the best, and how the other copies compare with it.

ghost use Rattle.std.specs.Prelude.{◌≡◌, ◌++◌, [], List, true, false, map, IfOk};
ghost use Rattle.pgp_ids.specs.Member.{is_before};
ghost use Rattle.pgp_ids.specs.declared.log_entry.LogEntry.{LogEntry};
ghost use Rattle.pgp_ids.specs.declared.report.Info.{Info as Sent};
ghost use Rattle.pgp_lists.specs.Ordered.{ascending};
ghost use Rattle.pgp_prior.specs.Members.{members_of};
ghost use Rattle.pgp_missing.specs.Kept.{IsLogOf};
ghost use Rattle.pgp_missing.specs.Log.{is_whole};
ghost use Rattle.pgp_missing.specs.Missing.{peer_state};
ghost use Rattle.pgp_group.specs.GroupLog.{GroupLog};
ghost use Rattle.pgp_group.specs.GroupOf.{Keeps};
ghost use Rattle.pgp_group.specs.kept.Parts.{AreHeard, AreLogsHeard, IsBestCopy};
ghost use Rattle.pgp_group.specs.Peering.{others_heard};

use super::Group;
use pgp_code::Recoverable;
use pgp_ids::{Member, Membership, PeerMissing, Seq};
use pgp_info::{Best, Preference};
use pgp_lists::insert_in_order;
use pgp_missing::MemberLog;
use pgp_prior::members_of;
use std::alloc::{AllocError, Global};

/// The best copy of a group, where there is one, and the states of the others.
#[derive(Drop)]
pub(crate) struct BestCopy {
    /// The member whose copy it is.
    pub(crate) member: Option<Member>,
    /// Whether there is one, and its log is whole.
    pub(crate) whole: bool,
    /// The states of the other members that were heard, in ascending order, where it is.
    pub(crate) states: Seq<PeerMissing>,
}

impl Group {
    /// The best copy of those that were heard, and the states of the others.
    pub(super) fn best_copy(
        &self,
        current: &Membership,
        heard: &Best<Preference>,
    ) -> Result<BestCopy, AllocError>
        ensures { IfOk result (λ copy. (g : GroupLog) → Keeps g self.now → current.now ≡ g.history.current
            → AreHeard g heard.now → AreLogsHeard g self.now.reports.logs.of_members.items → IsBestCopy g copy) }
    {
        let Some(best) = heard.best() else {
            return Ok(no_log_to_follow(self.alloc, None));
        };
        let empty = MemberLog::begin(self.alloc, best);
        let log = match self.reports.logs.log_of(best.member) {
            Some(log) => log,
            None => &empty,
        };
        if !log.whole() {
            return Ok(no_log_to_follow(self.alloc, Some(best.member)));
        }
        let by_place = self.intervals.code().by_place();
        let members = present_members(self.alloc, by_place, current)?;
        let states = states(self.alloc, log, best.member, members.as_slice(), heard)?;
        Ok(BestCopy {
            member: Some(best.member),
            whole: true,
            states: Seq::from_vec(states),
        })
    }
}

/// There is no best copy, or it is that of this member, whose log isn't whole.
fn no_log_to_follow(alloc: Global, member: Option<Member>) -> BestCopy
    ensures member { result.member ≡ member }
    ensures whole { result.whole ≡ false }
    ensures states { result.states ≡ [] }
{
    BestCopy {
        member,
        whole: false,
        states: Seq::new(alloc),
    }
}

/// The members of up and acting, in ascending order, each once.
fn present_members(
    alloc: Global,
    by_place: bool,
    current: &Membership,
) -> Result<Vec<Member>, AllocError>
    ensures { IfOk result (λ members. members.items ≡ ascending is_before
        (members_of by_place current.now.up ++ members_of by_place current.now.acting)) }
{
    let mut members = Vec::new(alloc);
    let up = members_of(by_place, &current.up);
    for member in up.chain(members_of(by_place, &current.acting)) {
        insert_in_order(&mut members, member)?;
    }
    Ok(members)
}

/// The states of those of these members that were heard, except for the best one, by its log, which is whole.
fn states(
    alloc: Global,
    log: &MemberLog,
    best: Member,
    members: &[Member],
    heard: &Best<Preference>,
) -> Result<Vec<PeerMissing>, AllocError>
    requires { (info : Sent) (reported : List LogEntry) → IsLogOf info reported log.now → is_whole info reported ≡ true }
    ensures { IfOk result (λ states. (info : Sent) (reported : List LogEntry) → IsLogOf info reported log.now → info.member ≡ best
        → states.items ≡ map (λ peer. record { member = peer.member; state = peer_state info reported peer }) (others_heard members.now heard.now.infos info)) }
{
    let mut states = Vec::new(alloc);
    for member in members {
        if *member != best {
            if let Some(peer) = heard.info_of(member) {
                states.push(PeerMissing {
                    member: peer.member,
                    state: log.missing_of(alloc, peer)?,
                })?;
            }
        }
    }
    Ok(states)
}
