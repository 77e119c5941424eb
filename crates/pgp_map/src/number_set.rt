//! Sets of numbers of devices or pools, which take no memory.

ghost use Rattle.std.specs.Prelude.{◌≡◌, ◌≤◌, ◌||◌, ℕ, false, length, nat_eq, not};

/// How many words a set has, each with as many bits.
const WORDS: usize = 64;

/// A set of numbers up to 4,095.
#[derive(Drop)]
pub struct NumberSet {
    /// Word `number / 64` has bit `number % 64` of each number.
    words: [u64; WORDS],
    ghost long: { length words ≡ 64 },
}

impl NumberSet {
    ghost use Rattle.pgp_map.specs.NumberSet.{has};

    /// The set without numbers.
    pub fn empty() -> Self
        ensures { (n : ℕ) → has result n ≡ false }
    {
        NumberSet { words: [0; WORDS] }
    }

    /// Puts the number into the set. Answers whether it wasn't there.
    pub fn insert(&mut self, number: u16) -> bool
        requires { number ≤ 4095 }
        ensures added { result ≡ not (has self.old number) }
        ensures now { (n : ℕ) → has self.new n ≡ (nat_eq n number || has self.old n) }
    {
        let added = !self.contains(number);
        self.words[usize::from(number / 64)] |= 1 << (number % 64);
        added
    }

    /// The number is in the set.
    pub fn contains(&self, number: u16) -> bool
        requires { number ≤ 4095 }
        ensures { result ≡ has self.now number }
    {
        self.words[usize::from(number / 64)] >> (number % 64) & 1 == 1
    }
}
