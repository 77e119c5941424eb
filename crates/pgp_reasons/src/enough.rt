ghost use Rattle.std.specs.Prelude.{◌≡◌, ℕ, List, ◌++◌, Bool, true, Contains, IfOk};
ghost use Rattle.pgp_reasons.specs.Smallest.{smallest, IsPartOf};

use pgp_ids::{OsdId, Seq};
use std::alloc::{AllocError, Global};

/// What judges whether a set of devices is enough for something.
pub(crate) trait Enough {
    /// Whether the set is enough.
    ghost enough: { Self → List ℕ → Bool };

    /// Whether these devices and those are enough together. It takes no memory.
    fn is_enough(&self, these: &[OsdId], those: &[OsdId]) -> bool
        ensures { result ≡ enough self.now (these.now ++ those.now) };

    /// More devices are never less.
    ghost monotone: { (judge : Self) (part set : List ℕ) → IsPartOf part set → enough judge part ≡ true
        → enough judge set ≡ true };
}

/// The set that remains of these devices, which are enough, after each device without which the others are still enough
/// was left out, one after another.
pub(crate) fn leave_out<E: Enough>(
    alloc: Global,
    judge: &E,
    among: &[OsdId],
) -> Result<Seq<OsdId>, AllocError>
    requires { E.enough judge.now among.now ≡ true }
    ensures { IfOk result (λ set. Contains (smallest (E.enough judge.now) among.now) set) }
{
    let mut set = Vec::new(alloc);
    for (place, osd) in among.iter().enumerate() {
        if !judge.is_enough(set.as_slice(), &among[place + 1..]) {
            set.push(*osd)?;
        }
    }
    Ok(Seq::from_vec(set))
}
