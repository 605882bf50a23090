//! The powers of the probability of no claim.

ghost use Rattle.std.specs.Prelude.{ℕ, ◌+◌, ◌*◌, ◌^◌, ◌<◌, ◌≤◌};
ghost use Rattle.dl_exact.specs.Fraction.{Fraction};
ghost use Rattle.dl_model.specs.Compound.{convolve, power};
ghost use Rattle.dl_start.specs.Start.{HoldsNoClaim};

use crate::scaled::Scaled;
use dl_limits::MOST_START;

/// The product, rounded outward: the probability of no claim in two counts together. At least 62
/// bits of a high end are kept.
pub fn times(a: Scaled, b: Scaled) -> Scaled
    requires room { a.exponent + b.exponent < 2 ^ 32 }
    ensures room { result.exponent ≤ a.exponent + b.exponent }
    ensures holds { (v w : ℕ → Fraction) → HoldsNoClaim v a → HoldsNoClaim w b
        → HoldsNoClaim (convolve v w) result }
{
    let mut low = u128::from(a.low) * u128::from(b.low);
    let mut high = u128::from(a.high) * u128::from(b.high);
    let mut exponent = a.exponent + b.exponent;
    for k in 0..63u32 {
        if high > MOST_START {
            low = low / 2;
            high = (high + 1) / 2;
            exponent -= 1;
        }
    }
    Scaled {
        low: low as u64,
        high: high as u64,
        exponent,
    }
}

/// The n-th power: the probability of no claim in n such counts together.
pub fn power_of(x: Scaled, n: u32) -> Scaled
    requires positive { 0 < n }
    requires room { n * x.exponent < 2 ^ 32 }
    ensures room { result.exponent ≤ n * x.exponent }
    ensures holds { (w : ℕ → Fraction) → HoldsNoClaim w x → HoldsNoClaim (power w n) result }
{
    if n == 1 {
        return x;
    }
    let root = power_of(x, n / 2);
    let square = times(root, root);
    if n % 2 == 0 { square } else { times(x, square) }
}
