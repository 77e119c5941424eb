//! What the text of a number stands for, as `serde_json` reads it.
ghost use Rattle.std.specs.Prelude.{◌≡◌, ◌==◌, ◌<◌, IsTrue, option_map, length, slice_index};
ghost use Rattle.serde_json.specs.Find.{as_u64, as_i64};
ghost use Rattle.serde_json.specs.Read.{number_of, number_from};
ghost use Rattle.pgp_lines.specs.Value.{num_of};

use fast_float::{Numeral, parse_u64};

/// A whole number of 64 bits, or any other finite one.
#[derive(Clone, Copy)]
pub enum Number {
    Whole(u64),
    Negative(i64),
    Real(f64),
}

impl Number {
    /// The number that a token of JSON writes, where it is in range.
    pub(super) fn parse(text: &str) -> Option<Number>
        ensures { option_map num_of result ≡ number_of text.now }
    {
        let bytes = text.as_bytes();
        // `parse_u64` takes a `+`, which JSON hasn't.
        if !begins_with(bytes, b'+') {
            if let Ok(n) = parse_u64(bytes) {
                return Some(Number::Whole(n));
            }
        }
        Number::scan(bytes)
    }

    /// The same of any number, also of one with a sign, a point or an exponent.
    fn scan(bytes: &[u8]) -> Option<Number>
        ensures { option_map num_of result ≡ number_of bytes.now }
    {
        if begins_with(bytes, b'-') {
            Number::of_numeral(true, &Numeral::scan(&bytes[1..]))
        } else {
            Number::of_numeral(false, &Numeral::scan(bytes))
        }
    }

    fn of_numeral(negative: bool, numeral: &Numeral<'_>) -> Option<Number>
        ensures { option_map num_of result ≡ number_from negative numeral.now }
    {
        if negative {
            if let Some(n) = numeral.to_i64(true) {
                if n < 0 {
                    return Some(Number::Negative(n));
                }
            }
        } else if let Some(n) = numeral.to_u64() {
            return Some(Number::Whole(n));
        }
        let x = numeral.to_float::<f64>(negative);
        x.is_finite().then_some(Number::Real(x))
    }

    pub(super) fn as_u64(self) -> Option<u64>
        ensures { result ≡ as_u64 (num_of self) }
    {
        match self {
            Number::Whole(n) => Some(n),
            Number::Negative(_) | Number::Real(_) => None,
        }
    }

    pub(super) fn as_i64(self) -> Option<i64>
        ensures { result ≡ as_i64 (num_of self) }
    {
        match self {
            Number::Whole(n) => i64::try_from(n).ok(),
            Number::Negative(n) => Some(n),
            Number::Real(_) => None,
        }
    }
}

fn begins_with(bytes: &[u8], sign: u8) -> bool
    requires { 0 < sign }
    ensures value { result ≡ (slice_index bytes.now 0 == sign) }
    ensures len { IsTrue result → 0 < length bytes.now }
{
    !bytes.is_empty() && bytes[0] == sign
}
