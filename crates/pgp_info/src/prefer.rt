ghost use Rattle.std.specs.Prelude.{◌≡◌, Bool};
ghost use Rattle.pgp_ids.specs.declared.report.Info.{Info};
ghost use Rattle.pgp_info.specs.Preference.{IsPreference};

use pgp_ids::Info;

/// Which of two copies a pool would rather follow, told from their infos.
pub trait Prefer {
    /// Whether the first of two infos is preferred to the second.
    ghost better: { Self → Info → Info → Bool };

    /// Whether `a` is preferred to `b`.
    fn better(&self, a: &Info, b: &Info) -> bool
        ensures { result ≡ better self.now a.now b.now };

    /// Over infos of distinct members the preference is a strict total order.
    ghost is_preference: { (prefer : Self) → IsPreference (better prefer) };
}
