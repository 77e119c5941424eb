ghost use Rattle.std.specs.Prelude.{◌≡◌, nat_eq};
ghost use Rattle.std.specs.Option.{option_eq};
ghost use Rattle.std.specs.Cmp.{partial_equiv_from_equiv, nat_eq_equiv};
ghost use Rattle.std.specs.Cmp.Lexicographic.{options_equiv};

use super::osd::OsdId;
use std::fmt;
use std::marker::Model;

/// A place of a list of devices, which holds a device or is empty (NONE). Contracts see it as an `Option` of its device.
///
/// It takes two bytes, where an `Option<OsdId>` takes four.
#[derive(Clone, Copy, Default)]
pub struct Place {
    /// 0 where it is empty, and else one more than its device.
    code: u16,
}

impl Model for Place {
    ghost use Rattle.std.specs.Prelude.{ℕ, ◌≤◌, Option};
    ghost use Rattle.pgp_ids.specs.Place.{place_with_code, place_code, code_of-place_of};

    ghost Value = { Option ℕ };

    ghost view = { λ p. place_with_code p.code };

    ghost invariant = { λ p. p.code ≤ 4096 };

    ghost inverse = { λ place. record { code = place_code place } };

    ghost inverse_ok = { λ p _. code_of-place_of p };
}

impl Place {
    /// The place that holds this device, or the empty place.
    pub fn new(osd: Option<OsdId>) -> Self
        ensures { result ≡ osd }
    {
        let code = match osd {
            Some(osd) => osd.number() + 1,
            None => 0,
        };
        Place { code }
    }

    /// The device that it holds.
    pub fn osd(self) -> Option<OsdId>
        ensures { result ≡ self }
    {
        let number = self.code.checked_sub(1)?;
        OsdId::new(number)
    }
}

/// It is compared as the `Option` that it stands for.
impl PartialEq for Place {
    ghost eq = { option_eq nat_eq };

    ghost laws = { partial_equiv_from_equiv (options_equiv nat_eq_equiv) };

    fn eq(&self, other: &Place) -> bool {
        self.osd() == other.osd()
    }
}

impl Eq for Place {
    ghost laws = { options_equiv nat_eq_equiv };
}

/// It is shown as the `Option` that it stands for.
impl fmt::Debug for Place {
    fn fmt<W: fmt::Write>(&self, f: &mut fmt::Formatter<W>) -> fmt::Result {
        fmt::Debug::fmt(&self.osd(), f)
    }
}
