//! Fractions of small parts.

ghost use Rattle.std.specs.Prelude.{◌≡◌, ◌^◌, ◌<◌, ◌≤◌};
ghost use Rattle.dl_limits.specs.Limits.{frac_bound};
ghost use Rattle.dl_exact.specs.Fraction.{whole, ◌over◌, ◌/ℚ◌};
ghost use Rattle.dl_plan.specs.Fine.{HasPartsOf48Bits};

use dl_frac::Frac;

/// `num` over `den`. Both are so small that their fraction is never too fine.
pub(crate) fn fraction(num: u64, den: u64) -> Frac
    requires positive { 0 < den }
    requires small_num { num < frac_bound }
    requires small_den { den < frac_bound }
    ensures value { result ≡ num over den }
    ensures num { result.num ≤ num }
{
    Frac::make(u128::from(num), u128::from(den)).unwrap()
}

/// `mean / 2^halvings`.
pub fn halved(mean: Frac, halvings: u32) -> Frac
    requires admitted { HasPartsOf48Bits mean }
    requires halvings { halvings ≤ 13 }
    ensures value { result ≡ mean /ℚ whole (2 ^ halvings) }
    ensures num { result.num ≤ mean.num }
{
    fraction(mean.num(), mean.den() * (1u64 << halvings))
}
