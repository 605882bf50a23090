//! The fractions and their arithmetic.

ghost use Rattle.std.specs.Prelude.{◌≡◌, ℕ, ◌*◌, ◌<◌, ◌≤◌, ◌^◌, ◌↔◌};
ghost use Rattle.std.specs.Ordering.{MatchOrdering};
ghost use Rattle.dl_limits.specs.Limits.{frac_bound};
ghost use Rattle.dl_exact.specs.Prelude.{gcd, Fraction, whole, ◌over◌, ◌+ℚ◌, ◌*ℚ◌, ◌/ℚ◌, ◌<ℚ◌, IsFloor, IsCeiling};
ghost use Rattle.dl_frac.specs.Exact.{Gives};

use crate::divisors::{divisor, wide_divisor, without};
use dl_limits::FRAC_BOUND;
use std::cmp::Ordering;
use std::marker::Model;
use thiserror::Error;

/// A part of the exact result is 2^62 or more.
#[derive(Debug, Drop, Error)]
#[error("a part of the exact result is 2^62 or more")]
pub struct TooFine;

/// A fraction of at least 0 in lowest terms, both parts below 2^62. Contracts see the `Fraction`.
#[derive(Clone, Copy, Debug, PartialEq, Eq)]
pub struct Frac {
    num: u64,
    den: u64,
    ghost positive: { 0 < den },
    ghost lowest: { gcd num den ≡ 1 },
}

impl Model for Frac {
    ghost Value = { Fraction };

    ghost view = { λ f.
        record { num = f.num; den = f.den; positive = f.positive; lowest = f.lowest } };

    ghost inverse = { λ x.
        record { num = x.num; den = x.den; positive = x.positive; lowest = x.lowest } };

    ghost invariant = { λ f. (f.num < frac_bound) × (f.den < frac_bound) };
}

impl Frac {
    /// The numerator, in lowest terms.
    pub fn num(self) -> u64
        ensures part { result ≡ self.num }
        ensures above { (0 < result) ↔ (whole 0 <ℚ self) }
        ensures fits { result < frac_bound }
    {
        self.num
    }

    /// The denominator, in lowest terms.
    pub fn den(self) -> u64
        ensures part { result ≡ self.den }
        ensures positive { 0 < result }
        ensures fits { result < frac_bound }
    {
        self.den
    }

    /// The whole number `number`.
    pub fn whole(number: u32) -> Frac
        ensures { result ≡ whole number }
    {
        reduced(number as u64, 1)
    }

    /// `num` over `den`, which is above 0. `TooFine` exactly where a part of it in lowest terms is
    /// 2^62 or more.
    pub fn make(num: u128, den: u128) -> Result<Frac, TooFine>
        requires { 0 < den }
        ensures { Gives result (num over den) }
    {
        let common = wide_divisor(num, den);
        lowest_terms(num / common, den / common)
    }

    /// The sum. `TooFine` exactly where a part of it in lowest terms is 2^62 or more.
    pub fn add(self, o: Frac) -> Result<Frac, TooFine>
        ensures { Gives result (self +ℚ o) }
    {
        // A divisor that the sum's parts share divides both denominators, so one more step reduces
        // it.
        let shared = divisor(self.den, o.den);
        let left = self.num as u128 * (o.den / shared) as u128;
        let right = o.num as u128 * (self.den / shared) as u128;
        let cut = wide_divisor(left + right, shared as u128);
        lowest_terms(
            (left + right) / cut,
            (self.den / shared) as u128 * (o.den as u128 / cut),
        )
    }

    /// The product. `TooFine` exactly where a part of it in lowest terms is 2^62 or more.
    pub fn mul(self, o: Frac) -> Result<Frac, TooFine>
        ensures { Gives result (self *ℚ o) }
    {
        product(self.num, self.den, o.num, o.den)
    }

    /// The quotient by `o`, which is above 0. `TooFine` exactly where a part of it in lowest terms
    /// is 2^62 or more.
    pub fn div(self, o: Frac) -> Result<Frac, TooFine>
        requires { whole 0 <ℚ o }
        ensures { Gives result (self /ℚ o) }
    {
        product(self.num, self.den, o.den, o.num)
    }

    /// The order of the two values.
    pub fn compare(self, o: Frac) -> Ordering
        ensures { MatchOrdering result (self <ℚ o) (self ≡ o) (o <ℚ self) }
    {
        let left = self.num as u128 * o.den as u128;
        let right = o.num as u128 * self.den as u128;
        left.cmp(&right)
    }

    /// The greatest whole number of units of 1 / 2^B that is not above the value.
    pub fn floor_scaled<const B: u32>(self) -> u128
        requires { B ≤ 56 }
        ensures { IsFloor (whole (2 ^ B) *ℚ self) result }
    {
        self.num as u128 * (1u128 << B) / self.den as u128
    }

    /// The least whole number of units of 1 / 2^B that is not below the value.
    pub fn ceil_scaled<const B: u32>(self) -> u128
        requires { B ≤ 56 }
        ensures { IsCeiling (whole (2 ^ B) *ℚ self) result }
    {
        (self.num as u128 * (1u128 << B)).div_ceil(self.den as u128)
    }
}

/// `a` over `b` times `c` over `d`, both in lowest terms: cut across first, the product is in
/// lowest terms.
fn product(a: u64, b: u64, c: u64, d: u64) -> Result<Frac, TooFine>
    requires left { 0 < b }
    requires right { 0 < d }
    requires left_lowest { gcd a b ≡ 1 }
    requires right_lowest { gcd c d ≡ 1 }
    ensures { Gives result ((a * c) over (b * d)) }
{
    let down = divisor(a, d);
    let up = divisor(c, b);
    lowest_terms(
        (a / down) as u128 * (c / up) as u128,
        (b / up) as u128 * (d / down) as u128,
    )
}

/// Two parts in lowest terms as a fraction, where they fit.
fn lowest_terms(num: u128, den: u128) -> Result<Frac, TooFine>
    requires positive { 0 < den }
    requires lowest { gcd num den ≡ 1 }
    ensures { Gives result (num over den) }
{
    if num < FRAC_BOUND && den < FRAC_BOUND {
        Ok(Frac {
            num: num as u64,
            den: den as u64,
        })
    } else {
        Err(TooFine)
    }
}

/// Two small numbers, the second above 0, as a fraction.
pub(crate) fn reduced(num: u64, den: u64) -> Frac
    requires positive { 0 < den }
    requires small_num { num < frac_bound }
    requires small_den { den < frac_bound }
    ensures { result ≡ num over den }
{
    let common = divisor(num, den);
    Frac {
        num: num / common,
        den: den / common,
    }
}

/// A small number over 10 to the power of `places`, as a fraction. No prime numbers but 2 and 5
/// divide both.
pub(crate) fn over_tens(number: u64, places: u32) -> Frac
    requires number { number < frac_bound }
    requires places { places ≤ 13 }
    ensures { result ≡ number over (10 ^ places) }
{
    let (num, den) = without::<2>(number, 10u64.pow(places));
    let (num, den) = without::<5>(num, den);
    Frac { num, den }
}
