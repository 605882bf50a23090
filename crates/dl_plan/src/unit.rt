//! The expected number of a unit's claims, their mean and the horizon of their sum; whether it can be
//! pooled, and can have extra claims.

ghost use Rattle.std.specs.Prelude.{◌≡◌, ◌<◌, ◌≤◌, ◌^◌, ◌↔◌, IsTrue, All, length, IfSome, MatchOption};
ghost use Rattle.std.specs.List.Sorted.{IsStrictlyIncreasing};
ghost use Rattle.dl_limits.specs.Limits.{most_amount, most_horizon, mean_num_bound, mean_den_bound};
ghost use Rattle.dl_exact.specs.Fraction.{whole, ◌over◌, ◌-ℚ◌, ◌*ℚ◌};
ghost use Rattle.dl_plan.specs.Fine.{HasPartsOf48Bits};
ghost use Rattle.dl_plan.specs.Weighted.{amounts_of, weight_at};
ghost use Rattle.dl_plan.specs.Severity.{pairs_of, mean_amount, probability_of};
ghost use Rattle.dl_plan.specs.Count.{expected_count, IsClaimCount};
ghost use Rattle.dl_plan.specs.Clause.{IsClause};
ghost use Rattle.dl_plan.specs.Common.{CanRaise, can_share};
ghost use Rattle.dl_plan.specs.Horizon.{IsHorizonOf, HorizonPasses};
ghost use Rattle.dl_plan.specs.Means.{declared_mean, thinned_mean};
ghost use Rattle.dl_plan.specs.Valid.{claims_alone};

use crate::item::Item;
use crate::plan::{Freq, Unit};
use crate::severity::Sev;
use crate::totals::weighted_sum;
use dl_frac::Frac;
use dl_limits::most_horizon;

impl Freq {
    /// The expected number of claims, of a count of a valid plan.
    #[tactic(auto, using(crate::proofs::Fits::given_ok, crate::proofs::Fits::given_value, crate::proofs::Means::admitted_fits, crate::proofs::Means::total_pos, crate::proofs::Means::trials_times))]
    pub fn expected(&self) -> Frac
        requires count { IsClaimCount self.now }
        requires admitted { HasPartsOf48Bits (expected_count self.now) }
        ensures { result ≡ expected_count self.now }
    {
        match self {
            Freq::Fixed(claims) => Frac::whole(*claims),
            Freq::Table { counts, total } => Frac::make(
                weighted_sum(counts.as_slice()) as u128,
                *total as u128,
            ).unwrap(),
            Freq::Bernoulli(q) => *q,
            Freq::Binomial { trials, q } => Frac::make(
                *trials as u128 * q.num() as u128,
                q.den() as u128,
            ).unwrap(),
            Freq::Poisson(mean) => *mean,
            Freq::Gamma { mean, .. } => *mean,
        }
    }

    /// The expected number of claims above 0 of a count and a severity of a valid plan: the
    /// expected count times the probability of a positive amount.
    pub fn thinned(&self, sev: &Sev) -> Frac
        requires count { IsClaimCount self.now }
        requires expected { HasPartsOf48Bits (expected_count self.now) }
        requires admitted { HasPartsOf48Bits (thinned_mean (claims_alone self.now sev.now)) }
        ensures { result ≡ thinned_mean (claims_alone self.now sev.now) }
    {
        self.expected().mul(sev.share_above_zero()).unwrap()
    }
}

impl Sev {
    /// The probability of a positive amount. Takes no memory.
    pub fn share_above_zero(&self) -> Frac
        ensures { result ≡ whole 1 -ℚ probability_of self.now 0 }
    {
        let above = self.total - weight_of_zero(self.items.as_slice());
        Frac::make(above as u128, self.total as u128).unwrap()
    }
}

impl Unit {
    /// Whether the unit can be pooled with others, and can share a factor: its count is Poisson,
    /// without an aggregate clause and without a changed probability of no claim.
    pub fn can_share(&self) -> bool
        ensures { result ≡ can_share self.now }
    {
        matches!(self.freq, Freq::Poisson(_)) && self.cede.is_none() && self.zero.is_none()
    }

    /// Whether the unit can have extra claims: its count is gamma, without an aggregate clause and
    /// without a changed probability of no claim.
    pub fn can_raise(&self) -> bool
        ensures { IsTrue result ↔ CanRaise self.now }
    {
        matches!(self.freq, Freq::Gamma { .. }) && self.cede.is_none() && self.zero.is_none()
    }

    /// A numerator below 2^110 and a denominator below 2^88 of the mean in buckets, before the
    /// aggregate clause and before the probability of no claim is changed, of a unit of a valid
    /// plan.
    #[tactic(auto, using(crate::proofs::Means::mean_over))]
    pub fn mean_parts(&self) -> (u128, u128)
        requires count { IsClaimCount self.now.freq }
        requires expected { HasPartsOf48Bits (expected_count self.now.freq) }
        requires near { All (λ item. item.amount ≤ most_amount) self.now.sev.items }
        ensures value { result.0 over result.1 ≡ declared_mean self.now }
        ensures num { result.0 < mean_num_bound }
        ensures den { result.1 < mean_den_bound }
        ensures positive { 0 < result.1 }
    {
        let count = self.freq.expected();
        let sum = weighted_sum(self.sev.items.as_slice());
        (
            count.num() as u128 * sum as u128,
            count.den() as u128 * self.sev.total as u128,
        )
    }

    /// The horizon of the unit's sums on `cells` cells: `cells` without an aggregate clause; else
    /// the greatest of 1, each edge of the clause, and the least sum at which what it keeps has
    /// reached the cells, or is constant from there on. `None` exactly where it passes 16,384, for
    /// at most 4,096 cells, or 65,536, for more. Takes no memory.
    pub fn horizon(&self, cells: u32) -> Option<u32>
        requires { IfSome self.now.cede IsClause }
        ensures { MatchOption result (HorizonPasses self.now.cede cells)
            (λ k. IsHorizonOf self.now.cede cells k × (k ≤ most_horizon cells)) }
    {
        let horizon = match &self.cede {
            Some(cede) => cede.horizon(cells),
            None => cells as u128,
        };
        if horizon <= u128::from(most_horizon(cells)) {
            Some(horizon as u32)
        } else {
            None
        }
    }
}

/// The weight of amount 0 in a list of rising amounts.
#[tactic(auto, using(crate::proofs::Means::zero_yes, crate::proofs::Means::zero_no))]
fn weight_of_zero(items: &[Item]) -> u64
    requires some { 0 < length items.now }
    requires rising { IsStrictlyIncreasing (amounts_of items.now) }
    ensures { result ≡ weight_at items.now 0 }
{
    let first = items[0];
    if first.amount == 0 { first.weight } else { 0 }
}
