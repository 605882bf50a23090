//! The probability of no claim of Poisson and of geometric counts.

ghost use Rattle.std.specs.Prelude.{◌≡◌, ◌+◌, ◌*◌, ◌^◌, ◌<◌, ◌≤◌};
ghost use Rattle.dl_limits.specs.Limits.{most_expected, admitted_bound};
ghost use Rattle.dl_exact.specs.Fraction.{whole, ◌over◌};
ghost use Rattle.dl_model.specs.Counts.{poisson, gamma};
ghost use Rattle.dl_start.specs.Start.{HoldsNoClaim};

use crate::powers::power_of;
use crate::scaled::Scaled;
use dl_limits::SERIES_ONE;

/// Of the geometric count with the ratio `num / (num + rest)`: the rest of 1, `rest / (num +
/// rest)`.
pub(crate) fn geometric_start(num: u64, rest: u64) -> Scaled
    requires positive { 0 < rest }
    requires room { num + rest < 2 ^ 64 }
    ensures exponent { result.exponent ≡ 63 }
    ensures holds { HoldsNoClaim (gamma (whole 1) (num over (num + rest))) result }
{
    let all = u128::from(num + rest);
    let part = u128::from(rest) * SERIES_ONE;
    Scaled {
        low: (part / all) as u64,
        high: ((part + (all - 1)) / all) as u64,
        exponent: 63,
    }
}

/// How many terms of the exponential's series past the first are added up.
const TERMS: u64 = 18;

/// Of the Poisson count of mean `num / den`, at most 1/2: exp of minus the mean, by its inverse.
/// Each term of the series is rounded; as they at least halve, the last one, counted once more, is
/// at least the rest.
fn exponential_start(num: u64, den: u64) -> Scaled
    requires positive { 0 < den }
    requires half { num + num ≤ den }
    ensures exponent { result.exponent ≡ 63 }
    ensures holds { HoldsNoClaim (poisson (num over den)) result }
{
    let mut low_term = SERIES_ONE;
    let mut high_term = SERIES_ONE;
    let mut low = SERIES_ONE;
    let mut high = SERIES_ONE;
    for n in 0..TERMS {
        let d = u128::from(den) * u128::from(n + 1);
        low_term = low_term * u128::from(num) / d;
        high_term = (high_term * u128::from(num) + (d - 1)) / d;
        low = low + low_term;
        high = high + high_term;
    }
    high = high + high_term;
    Scaled {
        low: (SERIES_ONE * SERIES_ONE / high) as u64,
        high: ((SERIES_ONE * SERIES_ONE + (low - 1)) / low) as u64,
        exponent: 63,
    }
}

/// Of the Poisson count of mean `num / den`, at most 4,096: a power of that of an equal share of
/// the mean, at most 1/2. The shares are a power of two.
pub fn poisson_start(num: u64, den: u64) -> Scaled
    requires positive { 0 < den }
    requires num_small { num < admitted_bound }
    requires den_small { den < admitted_bound }
    requires mean { num ≤ most_expected * den }
    ensures holds { HoldsNoClaim (poisson (num over den)) result }
{
    let mut shares: u32 = 1;
    while u64::from(shares) * den < num + num {
        shares *= 2;
    }
    power_of(exponential_start(num, u64::from(shares) * den), shares)
}
