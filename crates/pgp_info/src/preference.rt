ghost use Rattle.std.specs.Prelude.{◌≡◌, if◌then◌else◌};
ghost use Rattle.pgp_info.specs.Preference.{tie_cmp, newest_first, oldest_first};
ghost use Rattle.pgp_info.specs.PreferenceLaws.{newest_is_preference, oldest_is_preference};
ghost use Rattle.pgp_info.specs.Prefers.{prefers_with};

use super::prefer::Prefer;
use pgp_ids::{Info, Member};
use std::cmp::Ordering;

/// The preference of a replicated pool: the newest last write first.
///
/// Of copies with the same last write, the one with the longer log comes first (the lesser log_tail), then that of the
/// acting primary, then that of the lesser member, by its device and then its slot. The last is this project's own choice.
#[derive(Clone, Copy, Debug, PartialEq, Eq)]
pub struct NewestFirst {
    /// The acting primary in its place, where there is one.
    pub primary: Option<Member>,
}

impl Prefer for NewestFirst {
    ghost better = { λ p a b. newest_first p.primary a b };

    ghost is_preference = { λ p. newest_is_preference p.primary };

    fn better(&self, a: &Info, b: &Info) -> bool {
        b.last_update
            .cmp(&a.last_update)
            .then(tie_cmp(self.primary, a, b))
            .is_lt()
    }
}

/// The preference of an erasure pool: the oldest last write first.
///
/// Copies with the same last write come in the order that they have by [`NewestFirst`].
#[derive(Clone, Copy, Debug, PartialEq, Eq)]
pub struct OldestFirst {
    /// The acting primary in its place, where there is one.
    pub primary: Option<Member>,
}

impl Prefer for OldestFirst {
    ghost better = { λ p a b. oldest_first p.primary a b };

    ghost is_preference = { λ p. oldest_is_preference p.primary };

    fn better(&self, a: &Info, b: &Info) -> bool {
        a.last_update
            .cmp(&b.last_update)
            .then(tie_cmp(self.primary, a, b))
            .is_lt()
    }
}

/// The preference of any pool.
#[derive(Clone, Copy, Debug, PartialEq, Eq)]
pub enum Preference {
    NewestFirst(NewestFirst),
    OldestFirst(OldestFirst),
}

impl Preference {
    /// The preference of a pool in which each member has a place or none has, where this member leads.
    pub fn of_pool(by_place: bool, primary: Option<Member>) -> Self
        ensures { prefers_with result ≡ (if by_place then oldest_first primary else newest_first primary) }
    {
        if by_place {
            Preference::OldestFirst(OldestFirst { primary })
        } else {
            Preference::NewestFirst(NewestFirst { primary })
        }
    }
}

impl Prefer for Preference {
    ghost use Rattle.pgp_info.specs.Prefers.{prefers_with, prefers_is_preference};

    ghost better = { prefers_with };

    ghost is_preference = { prefers_is_preference };

    fn better(&self, a: &Info, b: &Info) -> bool {
        match self {
            Preference::NewestFirst(newest) => newest.better(a, b),
            Preference::OldestFirst(oldest) => oldest.better(a, b),
        }
    }
}

/// How infos compare whose last updates are the same: the lesser log_tail first, then the acting primary, then the
/// lesser member.
fn tie_cmp(primary: Option<Member>, a: &Info, b: &Info) -> Ordering
    ensures { result ≡ tie_cmp primary a.now b.now }
{
    let a_leads = primary == Some(a.member);
    let b_leads = primary == Some(b.member);
    let by_member = b_leads.cmp(&a_leads).then(a.member.cmp(&b.member));
    a.log_tail.cmp(&b.log_tail).then(by_member)
}
