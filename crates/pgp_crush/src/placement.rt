//! Placements.

ghost use Rattle.std.specs.Prelude.{◌≡◌, ◌≤◌, [], None, length, replicate, if◌then◌else◌};
ghost use Rattle.std.specs.Option.{option_copied};
ghost use Rattle.pgp_crush.specs.Placement.{IsPlacement, placement};

use super::candidate::Input;
use super::out::DEVICES;
use super::rule::Rule;
use super::tree::Tree;
use pgp_ids::{MAX_OSDS, Osds, Place};

/// The devices that `rule` gives `n` places on the tree.
///
/// Of a replicated pool these are at most `n` devices, in the order in which its replicas took them; of an erasure pool `n`
/// places, some of which may be empty. With no tree there is no device. `weights` has the weight of each of the [`DEVICES`]
/// in units of 1/0x10000, and `x` is the input of the placement, as its group hashes. This is CRUSH's `firstn` and
/// `indep` (Weil and others, 2006), in this project's profile: tries, rounds and collisions are its own. No memory is taken.
#[tactic(auto, using(std::proofs::lemmas::Grind::common_steps, crate::proofs::PlacementLemmas::placements))]
pub fn place(tree: Option<&Tree>, rule: Rule, weights: &[u32], x: u32, n: u8) -> Osds
    requires weighed { length weights.now ≡ DEVICES }
    requires room { n ≤ MAX_OSDS }
    ensures placed { IsPlacement (option_copied tree.entry) rule weights.now x n result }
    ensures value { result ≡ placement (option_copied tree.entry) rule weights.now x n }
{
    let Some(tree) = tree else {
        let mut osds = Osds::new();
        let empty = if rule.indep { n } else { 0 };
        for _place in 0..empty {
            osds.push(Place::new(None));
        }
        return osds;
    };
    let input = Input {
        tree,
        weights,
        x,
        kind: rule.leaf,
    };
    if rule.indep {
        input.indep(n)
    } else {
        input.first_n(n)
    }
}
