//! The probability of no claim of a gamma count of a shape below 1.

ghost use Rattle.std.specs.Prelude.{ℕ, suc, ◌≡◌, ◌+◌, ◌-◌, ◌*◌, ◌^◌, ◌<◌, ◌≤◌};
ghost use Rattle.dl_limits.specs.Limits.{frac_bound, most_cell_end};
ghost use Rattle.dl_exact.specs.Fraction.{Fraction, whole, ◌over◌, ◌+ℚ◌, ◌/ℚ◌, ◌≤ℚ◌, ◌<ℚ◌};
ghost use Rattle.dl_model.specs.Counts.{gamma};
ghost use Rattle.dl_start.specs.Start.{HoldsNoClaim, IsExact, IsRootRatio, IsWithin, most_claims_a_shape};

use crate::root::root;
use crate::scaled::Scaled;
use dl_frac::Frac;
use dl_limits::SERIES_ONE;

/// How many binary digits of the shape are taken, and so how many square roots.
const DIGITS: u32 = 64;

/// Of the geometric count with the ratio `num / (num + rest)`: the rest of 1, `rest / (num +
/// rest)`. Where it is small it has up to 17 bits more.
fn fine_start(num: u64, rest: u64) -> Scaled
    requires positive { 0 < rest }
    requires room { num + rest < 2 ^ 64 }
    ensures exponent { result.exponent ≤ 80 }
    ensures holds { HoldsNoClaim (gamma (whole 1) (num over (num + rest))) result }
    ensures exact { num ≤ most_claims_a_shape * rest → IsExact result }
{
    let all = u128::from(num + rest);
    let mut part = u128::from(rest);
    let mut exponent = 63;
    for k in 0..17u32 {
        if part + part <= all {
            part = part + part;
            exponent += 1;
        }
    }
    let raised = part * SERIES_ONE;
    Scaled {
        low: (raised / all) as u64,
        high: ((raised + (all - 1)) / all) as u64,
        exponent,
    }
}

/// Of each shape up to 1, from that of shape 1: from this to 1.
fn any_start(one: Scaled) -> Scaled
    requires room { one.exponent ≤ 80 }
    ensures exponent { result.exponent ≡ 63 }
    ensures holds { (r c : Fraction) → r ≤ℚ whole 1 → HoldsNoClaim (gamma (whole 1) c) one
        → HoldsNoClaim (gamma r c) result }
    ensures within { IsExact one → IsWithin (2 ^ 64 * 2 ^ 18) result }
{
    Scaled {
        low: one.low >> (one.exponent - 63),
        high: SERIES_ONE as u64,
        exponent: 63,
    }
}

/// Of the shape 0: 1.
fn no_start() -> Scaled
    ensures exponent { result.exponent ≡ 63 }
    ensures holds { (c : Fraction) → HoldsNoClaim (gamma (whole 0) c) result }
    ensures exact { IsExact result }
{
    Scaled {
        low: SERIES_ONE as u64,
        high: SERIES_ONE as u64,
        exponent: 63,
    }
}

/// Of the shape `num / den` below 1: the square root of that of twice the shape, which is that of
/// the rest, times `one`, that of shape 1, where twice the shape is 1 or more. After so many digits
/// the rest is any shape below 1, and `any` holds it.
fn by_digits(one: Scaled, any: Scaled, num: u64, den: u64, digits: u32) -> Scaled
    requires below { num < den }
    requires small { den < frac_bound }
    requires room { one.exponent ≤ 80 }
    requires any_room { any.exponent ≤ 80 }
    ensures room { result.exponent ≤ 80 }
    ensures holds { (c : Fraction) → HoldsNoClaim (gamma (whole 1) c) one
        → ((r : Fraction) → r ≤ℚ whole 1 → HoldsNoClaim (gamma r c) any)
        → HoldsNoClaim (gamma (num over den) c) result }
    ensures narrow { (ratio : ℕ → ℕ) → ((k : ℕ) → IsRootRatio (ratio k) (ratio (suc k)))
        → IsExact one → IsWithin (ratio 0) any → IsWithin (ratio digits) result }
{
    if digits == 0 {
        return any;
    }
    let twice = num + num;
    if twice < den {
        let rest = by_digits(one, any, twice, den, digits - 1);
        return root(rest, no_start());
    }
    let rest = by_digits(one, any, twice - den, den, digits - 1);
    root(rest, one)
}

/// The probability of no claim of a gamma count of a shape `t` below 1, whose mean is `t * beta`: 1
/// over the sum of its weights, which are those of the ratio `beta / (1 + beta)`. By 64 binary
/// digits of `t` and as many square roots. Its ends are at most 1 / 2^56 apart where `beta` is at
/// most 65,536.
pub fn shape_start(beta: Frac, t: Frac) -> Scaled
    requires below { t <ℚ whole 1 }
    ensures room { result.exponent ≤ 80 }
    ensures holds { HoldsNoClaim (gamma t (beta /ℚ (whole 1 +ℚ beta))) result }
    ensures narrow { beta ≤ℚ whole most_claims_a_shape
        → (result.high - result.low) * most_cell_end ≤ 2 ^ result.exponent }
{
    let one = fine_start(beta.num(), beta.den());
    by_digits(one, any_start(one), t.num(), t.den(), DIGITS)
}
