//! Which devices take part in a placement.

ghost use Rattle.std.specs.Prelude.{◌≡◌};
ghost use Rattle.pgp_crush.specs.Out.{is_in_by};

use pgp_hash::hash2;
use pgp_ids::OsdId;

/// How many devices there can be, and so how many weights a table of them has.
pub const DEVICES: usize = 4096;

/// The weight, in units of 1/0x10000, from which on a device is always in.
const FULL_WEIGHT: u32 = 0x1_0000;

/// A device of this weight, in units of 1/0x10000, takes part in the placement of `x`. No memory is taken.
#[tactic(auto, unfolding(crate::specs::Out::is_in_by))]
pub fn is_in_by(weight: u32, x: u32, osd: OsdId) -> bool
    ensures { result ≡ is_in_by weight x osd }
{
    weight != 0
        && (weight >= FULL_WEIGHT || hash2(x, u32::from(osd.number())) % FULL_WEIGHT < weight)
}
