//! Square roots of the probability of no claim.

ghost use Rattle.std.specs.Prelude.{ℕ, ◌≡◌, ◌+◌, ◌-◌, ◌*◌, ◌/◌, ◌^◌, ◌<◌, ◌≤◌};
ghost use Rattle.dl_limits.specs.Limits.{most_start};
ghost use Rattle.dl_exact.specs.Fraction.{Fraction, ◌+ℚ◌};
ghost use Rattle.dl_model.specs.Counts.{gamma};
ghost use Rattle.dl_start.specs.Start.{HoldsNoClaim, IsExact, IsRootRatio, IsWithin};

use crate::scaled::Scaled;
use dl_limits::MOST_START;

/// The whole part of the square root of `n`, which is at most `2^126`, by halving what it lies in.
fn whole_root(n: u128) -> u64
    requires room { n ≤ most_start * most_start }
    ensures small { result ≤ most_start }
    ensures below { result * result ≤ n }
    ensures above { n < (result + 1) * (result + 1) }
{
    let mut low: u64 = 0;
    let mut past = MOST_START as u64 + 1;
    while past - low > 1 {
        let middle = low + (past - low) / 2;
        if u128::from(middle) * u128::from(middle) <= n {
            low = middle;
        } else {
            past = middle;
        }
    }
    low
}

/// The same, rounded up.
fn whole_root_above(n: u128) -> u64
    requires room { n ≤ most_start * most_start }
    ensures small { result ≤ most_start }
    ensures above { n ≤ result * result }
    ensures least { (result - 1) * (result - 1) ≤ n }
{
    let below = whole_root(n);
    let square = u128::from(below) * u128::from(below);
    if square == n { below } else { below + 1 }
}

/// The square root of a product, rounded outward: of the probabilities of no claim of two shapes
/// that of half of both together. At least 61 bits of a high end are kept.
pub(crate) fn root(x: Scaled, y: Scaled) -> Scaled
    requires room { x.exponent + y.exponent < 2 ^ 32 }
    ensures room { 2 * result.exponent ≤ x.exponent + y.exponent }
    ensures holds { (r t u c : Fraction) → r +ℚ r ≡ t +ℚ u → HoldsNoClaim (gamma t c) x
        → HoldsNoClaim (gamma u c) y → HoldsNoClaim (gamma r c) result }
    ensures narrow { (before after : ℕ) → IsRootRatio before after → IsWithin before x → IsExact y
        → IsWithin after result }
{
    let odd = (x.exponent + y.exponent) % 2;
    let parts = u128::from(odd) + 1;
    let low = whole_root(u128::from(x.low) * u128::from(y.low) / parts);
    let high = whole_root_above((u128::from(x.high) * u128::from(y.high)).div_ceil(parts));
    Scaled {
        low,
        high,
        exponent: (x.exponent + y.exponent - odd) / 2,
    }
}
