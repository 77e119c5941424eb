//! The logarithm of a hash, by the tables of Ceph's src/crush/crush_ln_table.h.

mod coarse;
mod fine;
mod reciprocals;

ghost use Rattle.std.specs.Prelude.{◌≡◌, ◌+◌, ◌-◌, ◌*◌, ◌<◌, ◌≤◌, ◌^◌};
ghost use Rattle.pgp_crush.specs.Logarithm.{power_of, logarithm};

use coarse::coarse_log;
use fine::fine_log;
use reciprocals::reciprocal;

/// 2^44 times the binary logarithm of `hash` + 1, about.
#[tactic(auto, unfolding(crate::specs::Logarithm::logarithm))]
pub fn logarithm(hash: u16) -> u64
    ensures { result ≡ logarithm hash }
{
    let x = u32::from(hash) + 1;
    let power = power_of(x);
    let scaled = scaled(x, power);
    let k = scaled as usize / 256 - 128;
    let i = u64::from(scaled) * reciprocal(k) / 0x1_0000_0000_0000 % 256;
    u64::from(power) * 0x1000_0000_0000 + (coarse_log(k) + fine_log(i as usize)) / 16
}

/// The greatest power up to 15 of 2 that `x` reaches.
fn power_of(x: u32) -> u32
    requires some { 0 < x }
    requires within { x ≤ 2 ^ 16 }
    ensures value { result ≡ power_of x }
    ensures within { result ≤ 15 }
{
    (31 - x.leading_zeros()).min(15)
}

/// `x` over that power, in units of 2^-15.
fn scaled(x: u32, power: u32) -> u32
    requires some { 0 < x }
    requires within { x ≤ 2 ^ 16 }
    requires is_power { power ≡ power_of x }
    ensures value { result ≡ x * 2 ^ (15 - power) }
    ensures least { 2 ^ 15 ≤ result }
    ensures greatest { result ≤ 2 ^ 16 }
{
    x << (15 - power)
}
