//! The exponential of a small number, enclosed: the sums of its series in whole units, rounded down
//! and up, what is left of the series bounded by its last term, and the reciprocals of both.

ghost use Rattle.std.specs.Prelude.{◌≡◌, ◌+◌, ◌^◌, ◌≤◌};
ghost use Rattle.dl_limits.specs.Limits.{series_one};
ghost use Rattle.dl_exact.specs.Fraction.{◌over◌, ◌≤ℚ◌};
ghost use Rattle.dl_panjer.specs.Exponential.{EnclosesExp};
ghost use Rattle.dl_panjer.specs.Ends.{low_exponential, high_exponential, exp_low, exp_high};

use dl_frac::Frac;
use dl_iv::Iv;
use dl_limits::SERIES_ONE;

/// How many terms are added up after the first. With `x` at most 1/2 the last is below a unit.
const TERMS: u64 = 18;

/// The sum of the series of `exp(x)` in units of 1 / 2^63.
#[derive(Clone, Copy)]
struct Sums {
    /// At most the sum of all terms, at least 1.
    low: u128,
    /// At least the sum of all terms.
    high: u128,
}

/// `exp(-x)` for `x` from 0 to 1/2, at most 3 units of 1 / 2^B wide, and at most 1. The series is
/// that of Taylor: the ends are the reciprocals of its partial sums to the term 18, in units of
/// 1 / 2^63.
pub fn exp_neg<const B: u32>(x: Frac) -> Iv<B>
    requires scale_above { 1 ≤ B }
    requires scale_below { B ≤ 56 }
    requires half { x ≤ℚ 1 over 2 }
    ensures low { result.lo ≡ exp_low B x }
    ensures high { result.hi ≡ exp_high B x }
    ensures encloses { EnclosesExp x result }
    ensures narrow { result.hi ≤ result.lo + 3 }
    ensures small { result.hi ≤ 2 ^ B }
{
    let sums = exponential(x);
    let top = (1u128 << B) * SERIES_ONE;
    Iv {
        lo: top / sums.high,
        hi: top.div_ceil(sums.low),
    }
}

/// The sums of the terms rounded down and of those rounded up; the last term once more bounds
/// all that follow, since each is at most half of the one before.
fn exponential(x: Frac) -> Sums
    requires { x ≤ℚ 1 over 2 }
    ensures low { result.low ≡ low_exponential x }
    ensures high { result.high ≡ high_exponential x }
    ensures one { series_one ≤ result.low }
    ensures order { result.low ≤ result.high }
    ensures near { result.high ≤ result.low + 128 }
{
    let num = x.num() as u128;
    let den = x.den() as u128;
    let (mut low_term, mut high_term) = (SERIES_ONE, SERIES_ONE);
    let (mut low, mut high) = (SERIES_ONE, SERIES_ONE);
    for n in 0..TERMS {
        let divisor = den * (n + 1) as u128;
        low_term = low_term * num / divisor;
        high_term = (high_term * num).div_ceil(divisor);
        low += low_term;
        high += high_term;
    }
    Sums {
        low,
        high: high + high_term,
    }
}
