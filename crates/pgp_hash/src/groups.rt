//! The group of a hash in a pool of any number of groups.

ghost use Rattle.std.specs.Prelude.{◌≡◌, ◌<◌};
ghost use Rattle.pgp_hash.specs.StableMod.{mask_of, stable_mod};

/// The mask of a pool of `groups` groups: the least 2^k - 1 that is at least `groups` - 1.
#[inline]
#[tactic(auto, using(crate::proofs::StableModLemmas::mask_of_one, crate::proofs::StableModLemmas::mask_of_more))]
pub fn mask_of(groups: u32) -> u32
    ensures { result ≡ mask_of groups }
{
    if groups <= 1 {
        return 0;
    }
    u32::MAX >> (groups - 1).leading_zeros()
}

/// The group, of `groups`, in which the hash `hash` lies; `mask` is that of [`mask_of`].
///
/// This is `ceph_stable_mod` of Ceph: as a pool grows by one group, each object stays where it was
/// or goes to the new group.
#[inline]
#[tactic(auto, using(crate::proofs::StableModLemmas::stable_mod_whole, crate::proofs::StableModLemmas::stable_mod_half, crate::proofs::StableModLemmas::stable_mod_below))]
pub fn stable_mod(hash: u32, groups: u32, mask: u32) -> u32
    requires { mask ≡ mask_of groups }
    ensures value { result ≡ stable_mod hash groups }
    ensures within { 0 < groups → result < groups }
{
    let group = hash & mask;
    if group < groups {
        group
    } else {
        hash & (mask >> 1)
    }
}
