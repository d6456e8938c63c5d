//! Floors, ceilings and shares of amounts, exact: products are taken in 128 bits.

ghost use Rattle.std.specs.Prelude.{◌≡◌, ◌≤◌, Some, None, nat_le, if◌then◌else◌};
ghost use Rattle.op_amount.specs.Rates.{floor_mul, least_source, share, amount_or_none, AreAdjoint};

use crate::{RATE_TOP, TOP};

/// What a source of `a` gives at the rate `num / den`: `a * num / den`, rounded down.
/// `None` exactly where that passes the largest value.
pub fn floor_mul(a: u64, num: u64, den: u64) -> Option<u64>
    requires amount { a ≤ TOP }
    requires num { (1 ≤ num) × (num ≤ RATE_TOP) }
    requires den { (1 ≤ den) × (den ≤ RATE_TOP) }
    ensures { result ≡ amount_or_none (floor_mul a num den) }
{
    amount_of(u128::from(a) * u128::from(num) / u128::from(den))
}

/// The least source that gives at least `r` at the rate `num / den`: `r * den / num`, rounded up.
/// `None` exactly where that passes the largest value.
pub fn least_source(r: u64, num: u64, den: u64) -> Option<u64>
    requires amount { r ≤ TOP }
    requires num { (1 ≤ num) × (num ≤ RATE_TOP) }
    requires den { (1 ≤ den) × (den ≤ RATE_TOP) }
    ensures value { result ≡ amount_or_none (least_source r num den) }

    // A source gives r or more exactly where it is the least one or more.
    ensures adjoint { AreAdjoint num den }
{
    amount_of((u128::from(r) * u128::from(den)).div_ceil(u128::from(num)))
}

/// The part of `f` that belongs to `s` out of the whole: `f * s / whole`, rounded down.
pub fn share(f: u64, s: u64, whole: u64) -> u64
    requires part { s ≤ whole }
    requires positive { 1 ≤ whole }
    requires amounts { (f ≤ TOP) × (whole ≤ TOP) }
    ensures value { result ≡ share f s whole }
    ensures within { result ≤ f }
{
    (u128::from(f) * u128::from(s) / u128::from(whole)) as u64
}

/// A number as an amount's value.
fn amount_of(value: u128) -> Option<u64>
    ensures { result ≡ amount_or_none value }
{
    if value > u128::from(TOP) {
        None
    } else {
        Some(value as u64)
    }
}
