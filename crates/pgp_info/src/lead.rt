//! Who leads the infos that were heard, kept while infos come and go.

ghost use Rattle.std.specs.Prelude.{◌≡◌, ◌<◌, ◌≤◌, List, [], ◌∷◌, ◌++◌, Bool, None};
ghost use Rattle.std.specs.Option.{option_copied};
ghost use Rattle.pgp_ids.specs.declared.report.Info.{Info};
ghost use Rattle.pgp_info.specs.Best.{HasDistinctMembers, last_start};
ghost use Rattle.pgp_info.specs.Heard.{without};
ghost use Rattle.pgp_info.specs.Lead.{is_ahead, stays_without, IsLead};

use super::prefer::Prefer;
use pgp_ids::{Epoch, Info, Member};

/// The best of some infos of distinct members, and since when its copy has to have served.
#[derive(Clone, Copy)]
pub(crate) struct Lead {
    /// The last epoch in which the group began to serve, as far as the infos tell.
    start: Epoch,
    best: Option<Info>,
}

impl Lead {
    /// That of no infos.
    pub(crate) fn of_nobody() -> Self
        ensures { (better : Info → Info → Bool) → IsLead better [] result }
    {
        Lead {
            start: Epoch::new(0),
            best: None,
        }
    }

    /// That of these infos.
    #[tactic(auto, using(crate::proofs::LeadLemmas::among_laws))]
    fn among<P: Prefer>(prefer: &P, infos: &[Info]) -> Self
        ensures { HasDistinctMembers infos.now → IsLead (P.better prefer.now) infos.now result }
    {
        let mut lead = Lead::of_nobody();
        for info in infos {
            lead = lead.joined_by(prefer, info);
        }
        lead
    }

    /// That of one info more, which it compares once at most.
    pub(crate) fn joined_by<P: Prefer>(self, prefer: &P, info: &Info) -> Self
        ensures { (infos : List Info) → HasDistinctMembers (infos ++ info.now ∷ [])
            → IsLead (P.better prefer.now) infos self → IsLead (P.better prefer.now) (infos ++ info.now ∷ []) result }
    {
        let rivals = self.since(start_named_by(info));
        if info.complete
            && rivals.start <= info.les
            && is_ahead(prefer, info, rivals.best.as_ref())
        {
            Lead {
                best: Some(*info),
                ..rivals
            }
        } else {
            rivals
        }
    }

    /// What is left of it where the group began to serve in this epoch too: a later start leaves all others behind.
    fn since(self, told: Epoch) -> Self
        ensures later { self.start < told → result ≡ record { start = told; best = None } }
        ensures known { told ≤ self.start → result ≡ self }
    {
        if self.start < told {
            Lead {
                start: told,
                best: None,
            }
        } else {
            self
        }
    }

    /// That of the infos which are left without the member's. They are compared again only where the best one was the
    /// member's, or where there is none and the start falls.
    pub(crate) fn left_by<P: Prefer>(self, prefer: &P, member: &Member, left: &[Info]) -> Self
        ensures { (infos : List Info) → HasDistinctMembers infos → left.now ≡ without member.now infos
            → IsLead (P.better prefer.now) infos self → IsLead (P.better prefer.now) left.now result }
    {
        if self.stays_without(member, left) {
            self
        } else {
            Lead::among(prefer, left)
        }
    }

    /// Nothing changes without the member's info: the best one is another's, or there is none and the start stays.
    fn stays_without(&self, member: &Member, left: &[Info]) -> bool
        ensures { result ≡ stays_without member.now left.now self.now }
    {
        match &self.best {
            Some(best) => best.member != *member,
            None => last_start(left) == self.start,
        }
    }

    /// The best info.
    pub(crate) fn best(&self) -> Option<&Info>
        ensures { option_copied result ≡ self.now.best }
    {
        self.best.as_ref()
    }
}

/// Whether the info is preferred to the best one so far.
fn is_ahead<P: Prefer>(prefer: &P, info: &Info, best: Option<&Info>) -> bool
    ensures { result ≡ is_ahead (P.better prefer.now) info.now (option_copied best.entry) }
{
    match best {
        Some(best) => prefer.better(info, best),
        None => true,
    }
}

/// The last epoch in which the group began to serve, as far as the infos tell.
fn last_start(infos: &[Info]) -> Epoch
    ensures { result ≡ last_start infos.now }
{
    let mut start = Epoch::new(0);
    for info in infos {
        let told = start_named_by(info);
        if start < told {
            start = told;
        }
    }
    start
}

/// The last epoch in which the group began to serve, as far as this info alone tells.
fn start_named_by(info: &Info) -> Epoch
    ensures { result ≡ last_start (info.now ∷ []) }
{
    if info.complete && info.history_les < info.les {
        info.les
    } else {
        info.history_les
    }
}
