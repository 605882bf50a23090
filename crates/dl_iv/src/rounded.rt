//! Operations on intervals whose ends are rounded outward.

ghost use Rattle.std.specs.Prelude.{◌≡◌, ℕ, ◌*◌, ◌/◌, ◌%◌, ◌^◌, ◌<◌, ◌≤◌, min};
ghost use Rattle.std.specs.Int.{div_ceil};
ghost use Rattle.dl_limits.specs.Limits.{enclosed_den_bound, enclosed_num_bound, most_high};
ghost use Rattle.dl_exact.specs.Fraction.{Fraction, ◌over◌, ◌*ℚ◌, ◌/ℚ◌, ◌≤ℚ◌};
ghost use Rattle.dl_iv.specs.Enclosure.{LiesIn};

use crate::exact::units_of_one;
use crate::interval::Iv;

/// The floor of the first quotient, and the ceiling of the second.
macro_rules! rounded_outward {
    ($low:expr, $low_by:expr; $high:expr, $high_by:expr) => {
        ($low / $low_by, ($high).div_ceil($high_by))
    };
}

/// The floor of `low * factor / low_by`, and the ceiling of `high * factor / high_by`. The whole
/// parts of the quotients go apart, since the whole products may pass 128 bits.
fn rounded_by_parts(
    low: u128,
    low_by: u128,
    high: u128,
    high_by: u128,
    factor: u128,
) -> (u128, u128)
    requires low_positive { 0 < low_by }
    requires high_positive { 0 < high_by }
    requires low_rest { low % low_by * factor < 2 ^ 128 }
    requires high_rest { high % high_by * factor < 2 ^ 128 }
    requires low_fits { low * factor / low_by ≤ most_high }
    requires high_fits { div_ceil (high * factor) high_by ≤ most_high }
    ensures low { result.0 ≡ low * factor / low_by }
    ensures high { result.1 ≡ div_ceil (high * factor) high_by }
{
    let (lower, upper) =
        rounded_outward!(low % low_by * factor, low_by; high % high_by * factor, high_by);
    (
        low / low_by * factor + lower,
        high / high_by * factor + upper,
    )
}

/// The operations whose ends are rounded: the low end down to whole units, the high end up.
impl<const B: u32> Iv<B> {
    /// The number `num / den`.
    pub fn enclose(num: u128, den: u128) -> Self
        requires scale_above { 1 ≤ B }
        requires scale_below { B ≤ 56 }
        requires positive { 0 < den }
        requires den { den < enclosed_den_bound }
        requires num { num < enclosed_num_bound }
        requires fits { div_ceil (2 ^ B * num) den ≤ most_high }
        ensures low { result.lo ≡ 2 ^ B * num / den }
        ensures high { result.hi ≡ div_ceil (2 ^ B * num) den }
        ensures holds { LiesIn (num over den) result }
    {
        // long division, a half of the scale a step: the whole product may pass 128 bits
        let first = units_of_one(B / 2);
        let second = units_of_one(B - B / 2);
        let rest = num % den * first;
        let above = (num / den * first + rest / den) * second;
        let left = rest % den * second;
        let (low, high) = rounded_outward!(left, den; left, den);
        Iv {
            lo: above + low,
            hi: above + high,
        }
    }

    /// The products of a value of each.
    pub fn mul(self, o: Self) -> Self
        requires product { self.hi * o.hi < 2 ^ 128 }
        ensures low { result.lo ≡ self.entry.lo * o.entry.lo / 2 ^ B }
        ensures high { result.hi ≡ div_ceil (self.entry.hi * o.entry.hi) (2 ^ B) }
        ensures holds { (x y : Fraction) → LiesIn x self.entry → LiesIn y o.entry
            → LiesIn (x *ℚ y) result }
    {
        let one = units_of_one(B);
        let (lo, hi) = rounded_outward!(self.lo * o.lo, one; self.hi * o.hi, one);
        Iv { lo, hi }
    }

    /// The values times `num / den`.
    pub fn scale(self, num: u64, den: u64) -> Self
        requires positive { 0 < den }
        requires product { self.hi * num < 2 ^ 128 }
        requires fits { div_ceil (self.hi * num) den ≤ most_high }
        ensures low { result.lo ≡ self.entry.lo * num / den }
        ensures high { result.hi ≡ div_ceil (self.entry.hi * num) den }
        ensures holds { (x : Fraction) → LiesIn x self.entry → LiesIn (x *ℚ num over den) result }
    {
        let (num, den) = (u128::from(num), u128::from(den));
        let (lo, hi) = rounded_outward!(self.lo * num, den; self.hi * num, den);
        Iv { lo, hi }
    }

    /// The values times `num / den`, which is at most 1.
    pub fn part(self, num: u64, den: u64) -> Self
        requires positive { 0 < den }
        requires part { num ≤ den }
        ensures low { result.lo ≡ self.entry.lo * num / den }
        ensures high { result.hi ≡ div_ceil (self.entry.hi * num) den }
        ensures holds { (x : Fraction) → LiesIn x self.entry → LiesIn (x *ℚ num over den) result }
    {
        let (num, den) = (u128::from(num), u128::from(den));
        let (lo, hi) = rounded_by_parts(self.lo, den, self.hi, den, num);
        Iv { lo, hi }
    }

    /// The quotients of a value by a value of `o`, none of which is 0.
    pub fn div(self, o: Self) -> Self
        requires positive { 0 < o.lo }
        requires rest { min self.hi o.hi * 2 ^ B < 2 ^ 128 }
        requires fits { div_ceil (self.hi * 2 ^ B) o.lo ≤ most_high }
        ensures low { result.lo ≡ self.entry.lo * 2 ^ B / o.entry.hi }
        ensures high { result.hi ≡ div_ceil (self.entry.hi * 2 ^ B) o.entry.lo }
        ensures holds { (x y : Fraction) → LiesIn x self.entry → LiesIn y o.entry
            → LiesIn (x /ℚ y) result }
    {
        let (lo, hi) = rounded_by_parts(self.lo, o.hi, self.hi, o.lo, units_of_one(B));
        Iv { lo, hi }
    }

    /// The ends as decimals, in units of the last of `digits` digits: the low end rounded down, the
    /// high end up.
    pub fn print_ends(self, digits: u32) -> (u128, u128)
        requires digits { digits ≤ 9 }
        requires fits { self.hi * 10 ^ digits ≤ most_high * 2 ^ B }
        ensures low { result.0 ≡ self.entry.lo * 10 ^ digits / 2 ^ B }
        ensures high { result.1 ≡ div_ceil (self.entry.hi * 10 ^ digits) (2 ^ B) }
        ensures below { (x : Fraction) → LiesIn x self.entry → result.0 over 10 ^ digits ≤ℚ x }
        ensures above { (x : Fraction) → LiesIn x self.entry → x ≤ℚ result.1 over 10 ^ digits }
    {
        let one = units_of_one(B);
        rounded_by_parts(self.lo, one, self.hi, one, 10u128.pow(digits))
    }
}
