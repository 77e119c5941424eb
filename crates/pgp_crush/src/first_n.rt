//! The placement of a replicated pool.

ghost use Rattle.std.specs.Prelude.{◌≡◌, ◌≤◌};
ghost use Rattle.pgp_crush.specs.Candidate.{input_of};
ghost use Rattle.pgp_crush.specs.FirstN.{pick_of, first_n};

use super::candidate::{Candidate, Input, Pick};
use super::descent::Rank;
use super::taken_items::TakenItems;
use pgp_ids::{MAX_OSDS, Osds};

/// How many tries a replica or a position has.
pub(crate) const TRIES: u8 = 51;

impl Input<'_> {
    /// The devices of `n` replicas, of which fewer may be found.
    #[tactic(auto, unfolding(crate::specs::FirstN::first_picks), using(crate::proofs::FirstNLemmas::replica_steps))]
    pub(crate) fn first_n(&self, n: u8) -> Osds
        requires { n ≤ MAX_OSDS }
        ensures { result ≡ first_n (input_of self.now.tree.now self.now.weights.now self.now.x self.now.kind) n }
    {
        let mut taken = TakenItems::new();
        for rep in 0..n {
            let found = self.pick(&taken, rep);
            taken.push(found);
        }
        taken.into_leaves()
    }

    /// What replica `rep` takes, if it finds something.
    #[tactic(auto, using(crate::proofs::FirstNLemmas::try_steps))]
    fn pick(&self, taken: &TakenItems, rep: u8) -> Option<Pick>
        ensures { result ≡ pick_of (input_of self.now.tree.now self.now.weights.now self.now.x self.now.kind) taken.now rep }
    {
        for f in 0..TRIES {
            match self.candidate(Rank::Same(u32::from(rep) + u32::from(f)), 0) {
                Candidate::Early => return None,
                Candidate::Fit(pick) if !taken.has(&pick) => return Some(pick),
                _ => {}
            }
        }
        None
    }
}
