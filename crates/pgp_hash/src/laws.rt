//! Laws of the definitions, and worked examples that the definitions compute.
#![tactic(auto, unfolding(crate::specs::Worked::hashes_computed))]

ghost use Rattle.std.specs.Prelude.{◌≡◌, ℕ, ◌+◌, ◌^◌, ◌<◌, ◌≤◌, ◌⊎◌, [], codes};
ghost use Rattle.pgp_hash.specs.Mix.{mixed};
ghost use Rattle.pgp_hash.specs.NameHash.{name_hash};
ghost use Rattle.pgp_hash.specs.StableMod.{exponent_of, mask_of, stable_mod};

/// Three words that are 0 stay so.
pub fn mixing_of_zeros()
    ensures { mixed 0 0 0 ≡ record { a = 0; b = 0; c = 0 } }
{}

/// A single bit of the first word reaches all three.
pub fn mixing_of_one_bit()
    ensures { mixed 1 0 0 ≡ record { a = 0xfda0dfc7; b = 0x790420aa; c = 0x8ec212aa } }
{}

/// The hash of the empty name is not 0.
pub fn hash_of_no_bytes()
    ensures { name_hash [] ≡ 0xbd49d10d }
{}

/// The hash of the name `a`, and its group of 12.
pub fn hash_of_a()
    ensures hash { name_hash (codes "a") ≡ 0x29eec818 }
    ensures group { stable_mod (name_hash (codes "a")) 12 ≡ 8 }
{}

/// Of 12 groups, a hash modulo 16 names one that is there, or else the hash modulo 8 does.
pub fn groups_of_twelve()
    ensures last { stable_mod 11 12 ≡ 11 }
    ensures first_beyond { stable_mod 12 12 ≡ 4 }
    ensures last_beyond { stable_mod 15 12 ≡ 7 }
    ensures around { stable_mod 16 12 ≡ 0 }
{}

/// The masks of a single group, of a power of two, and of a number between two powers.
pub fn masks()
    ensures of_one { mask_of 1 ≡ 0 }
    ensures of_two { mask_of 2 ≡ 1 }
    ensures of_twelve { mask_of 12 ≡ 15 }
    ensures of_a_power { mask_of 1024 ≡ 1023 }
{}

/// The power of two by which a pool's groups are found is the least that is at least their number.
#[tactic(auto, using(crate::proofs::Exponents::exponent_of_enough, crate::proofs::Exponents::exponent_of_least))]
pub fn power_is_least(groups: u32)
    ensures enough { groups ≤ 2 ^ exponent_of groups }
    ensures least { (k : ℕ) → groups ≤ 2 ^ k → exponent_of groups ≤ k }
{}

/// Every hash lies in a group of its pool.
#[tactic(auto, using(crate::proofs::StableModLemmas::stable_mod_below))]
pub fn group_is_in_pool(hash: u32, groups: u32)
    requires { 0 < groups }
    ensures { stable_mod hash groups < groups }
{}

/// As a pool grows by one group, each hash stays in its group or goes to the new one.
#[tactic(auto, using(crate::proofs::StableModLemmas::stable_mod_grows))]
pub fn growth_moves_to_the_new_group(hash: u32, groups: u32)
    requires { 0 < groups }
    ensures { (stable_mod hash (groups + 1) ≡ stable_mod hash groups) ⊎ (stable_mod hash (groups + 1) ≡ groups) }
{}
