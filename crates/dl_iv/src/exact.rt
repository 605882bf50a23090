//! Operations on intervals that round nothing.

ghost use Rattle.std.specs.Prelude.{◌≡◌, ℕ, ◌+◌, ◌-◌, ◌^◌, ◌≤◌, min, List, sum_by};
ghost use Rattle.dl_limits.specs.Limits.{most_high};
ghost use Rattle.dl_exact.specs.Prelude.{Fraction, whole, ◌over◌, ◌+ℚ◌, ◌-ℚ◌, ◌≤ℚ◌, lesser, sum_over};
ghost use Rattle.dl_iv.specs.Enclosure.{LiesIn, EachLiesIn};

use crate::interval::Iv;

/// How many units make 1 at the scale `bits`.
pub fn units_of_one(bits: u32) -> u128
    requires { bits ≤ 56 }
    ensures { result ≡ 2 ^ bits }
{
    1u128 << bits
}

/// The operations whose ends are exact: nothing is rounded.
impl<const B: u32> Iv<B> {
    /// The one number `units / 2^B`.
    pub fn point(units: u128) -> Self
        requires scale_above { 1 ≤ B }
        requires scale_below { B ≤ 56 }
        requires fits { units ≤ most_high }
        ensures low { result.lo ≡ units }
        ensures high { result.hi ≡ units }
        ensures holds { LiesIn (units over 2 ^ B) result }
    {
        Iv {
            lo: units,
            hi: units,
        }
    }

    /// The sums of a value of each.
    pub fn add(self, o: Self) -> Self
        requires fits { self.hi + o.hi ≤ most_high }
        ensures low { result.lo ≡ self.entry.lo + o.entry.lo }
        ensures high { result.hi ≡ self.entry.hi + o.entry.hi }
        ensures holds { (x y : Fraction) → LiesIn x self.entry → LiesIn y o.entry
            → LiesIn (x +ℚ y) result }
    {
        Iv {
            lo: self.lo + o.lo,
            hi: self.hi + o.hi,
        }
    }

    /// The differences of a value of each, 0 where the second is above the first.
    pub fn sub_floor0(self, o: Self) -> Self
        ensures low { result.lo ≡ self.entry.lo - o.entry.hi }
        ensures high { result.hi ≡ self.entry.hi - o.entry.lo }
        ensures holds { (x y : Fraction) → LiesIn x self.entry → LiesIn y o.entry
            → LiesIn (x -ℚ y) result }
    {
        Iv {
            lo: self.lo.saturating_sub(o.hi),
            hi: self.hi.saturating_sub(o.lo),
        }
    }

    /// `1 - v` for each value `v`, 0 where it is above 1.
    pub fn complement(self) -> Self
        ensures low { result.lo ≡ 2 ^ B - self.entry.hi }
        ensures high { result.hi ≡ 2 ^ B - self.entry.lo }
        ensures holds { (x : Fraction) → LiesIn x self.entry → LiesIn (whole 1 -ℚ x) result }
    {
        let one = units_of_one(B);
        Iv {
            lo: one.saturating_sub(self.hi),
            hi: one.saturating_sub(self.lo),
        }
    }

    /// The values, those above `top / 2^B` lowered to it.
    pub fn clamp_to(self, top: u128) -> Self
        ensures low { result.lo ≡ min self.entry.lo top }
        ensures high { result.hi ≡ min self.entry.hi top }
        ensures holds { (x : Fraction) → LiesIn x self.entry
            → LiesIn (lesser x (top over 2 ^ B)) result }
    {
        Iv {
            lo: self.lo.min(top),
            hi: self.hi.min(top),
        }
    }

    /// The sums of a value of each item. Of no items it is 0.
    pub fn sum(items: &[Iv<B>]) -> Self
        requires scale_above { 1 ≤ B }
        requires scale_below { B ≤ 56 }
        requires fits { sum_by (λ i. i.hi) items.now ≤ most_high }
        ensures low { result.lo ≡ sum_by (λ i. i.lo) items.now }
        ensures high { result.hi ≡ sum_by (λ i. i.hi) items.now }
        ensures holds { (xs : List Fraction) → EachLiesIn xs items.now
            → LiesIn (sum_over xs (λ x. x)) result }
    {
        let mut total = Iv::point(0);
        for item in items {
            total = total.add(*item);
        }
        total
    }

    /// How many units the high end is above the low end: no two values are further apart.
    pub fn width(self) -> u128
        ensures units { result ≡ self.entry.hi - self.entry.lo }
        ensures holds { (x y : Fraction) → LiesIn x self.entry → LiesIn y self.entry
            → x -ℚ y ≤ℚ result over 2 ^ B }
    {
        self.hi - self.lo
    }
}
