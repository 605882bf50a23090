//! The joint means of a unit, by what they are drawn from.

use crate::beside::joint_mean;
use crate::claims::{claims_joint, claims_sums};
use crate::source::ShareSource;
use crate::sums::joint_sums;
use dl_iv::Iv;

impl<'a, const B: u32> ShareSource<'a, B> {
    ghost use Rattle.std.specs.Prelude.{ℕ, ◌≡◌, ◌-◌, ◌*◌, ◌^◌, ◌<◌, ◌≤◌};
    ghost use Rattle.dl_limits.specs.Limits.{most_high};
    ghost use Rattle.dl_exact.specs.Prelude.{whole, ◌over◌, sum_to};
    ghost use Rattle.dl_model.specs.Prelude.{Series, AtMost, Holds, Quantity, One, Joint};
    ghost use Rattle.dl_model.specs.Series.{Rises};
    ghost use Rattle.dl_shares.specs.Source.{GivesJoints, exact_low, exact_high, joint_width, reach, rounded_low, rounded_high};

    /// The joint mean of the unit at `x`, in buckets: the mean of its outcome where the total is `x`,
    /// and of 0 elsewhere.
    pub fn joint(&self, x: u32) -> Iv<B>
        requires inside { x < reach self.now }
        ensures low { result.lo ≡ rounded_low self.now x }
        ensures high { result.hi ≡ rounded_high self.now x }
        // it holds what the exact ends hold, where that is at most x
        ensures holds { (Q R : Series) → Holds Q R (exact_low self.now x) (exact_high self.now x)
            → AtMost Q R (whole x) → Holds Q R (result.lo over 2 ^ B) (result.hi over 2 ^ B) }
        ensures width { result.hi - result.lo ≤ joint_width self.now }
        ensures small { result.hi ≤ 4 * x * 2 ^ B }
        // so it can be divided by a probability, where 4 * x in units of 1 / 2^(2B) fits a word
        ensures divisible { 4 * x * 2 ^ B * 2 ^ B ≤ most_high → result.hi * 2 ^ B ≤ most_high }
    {
        match self {
            ShareSource::Beside(from) => joint_mean(from.unit, from.others, x),
            ShareSource::OverClaims(from) => claims_joint(from.unit, from.grid, x),
        }
    }

    /// The sum of the joint means of the unit at the totals up to `q`, in buckets: the mean of its
    /// outcome where the total is at most `q`, and of 0 elsewhere.
    pub fn joints_to(&self, q: u32) -> Iv<B>
        requires inside { q < reach self.now }
        ensures holds { (declares : Quantity → Series) (i : ℕ) → GivesJoints self.now declares i
            → ((x : ℕ) → Rises (declares (Joint i x)))
            → Holds (λ N. sum_to q (λ x. declares (Joint i x) N)) (declares One)
            (result.lo over 2 ^ B) (result.hi over 2 ^ B) }
        ensures width { result.hi - result.lo ≤ joint_width self.now }
    {
        match self {
            ShareSource::Beside(from) => joint_sums(from.unit, from.others, q),
            ShareSource::OverClaims(from) => claims_sums(from.unit, from.grid, q),
        }
    }
}
