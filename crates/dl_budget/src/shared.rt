//! The budgets of units that share a factor.

ghost use Rattle.std.specs.Prelude.{ℕ, ◌≡◌, ◌^◌, ◌<◌, ◌≤◌, All};
ghost use Rattle.dl_limits.specs.Limits.{IsPlanScale, budget_bound, most_claims_budget, most_plan_cells, most_joint_budget};
ghost use Rattle.dl_exact.specs.Fraction.{Fraction};
ghost use Rattle.dl_plan.specs.Prelude.{thinned_mean, IsUnbounded, IsValidUnit, HasCommonFactor, thinned_of};
ghost use Rattle.dl_budget.specs.Shared.{raised_budget, shared_joint_budget};

use crate::claims::gamma_budget;
use dl_frac::Frac;
use dl_plan::{Unit, raised};

/// The expected number of claims above 0 of all units together.
pub(crate) fn above_zero(units: &[Unit]) -> Frac
    requires valid { (h : ℕ) × All (IsValidUnit h) units.now }
    requires factor { (r : Fraction) × HasCommonFactor r units.now }
    ensures { result ≡ thinned_of units.now }
{
    let mut sum = Frac::whole(0);
    'units: for unit in units {
        sum = sum.add(unit.freq.thinned(&unit.sev)).unwrap();
    }
    sum
}

/// The budget of the one gamma unit in the place of units that share a factor of this shape, on
/// `cells` cells, with one more in its shape: from its grid the joint means come.
pub(crate) fn raised_budget<const B: u32>(units: &[Unit], shape: Frac, cells: u32) -> u128
    requires scale { IsPlanScale B }
    requires valid { (h : ℕ) × All (IsValidUnit h) units.now }
    requires factor { HasCommonFactor shape units.now }
    requires few { cells ≤ most_plan_cells }
    ensures value { result ≡ raised_budget (2 ^ B) cells shape units.now }
    ensures small { result ≤ most_claims_budget }
{
    let claims = raised(shape, above_zero(units)).unwrap();
    let next = shape.add(Frac::whole(1)).unwrap();
    gamma_budget::<B>(claims, next, cells)
}

/// How far apart the ends of the joint mean of a Poisson or gamma unit lie at most, where it comes
/// from a grid of `cells` cells whose ends lie `before` apart in all: that of the raised unit under
/// a common factor, or of independent units that of the total, with the extra claims of a gamma
/// unit.
pub fn shared_joint_budget(unit: &Unit, before: u128, cells: u32) -> u128
    requires valid { (h : ℕ) × IsValidUnit h unit.now }
    requires unbounded { IsUnbounded unit.now.freq }
    requires few { cells ≤ most_plan_cells }
    requires bounded { before < budget_bound }
    ensures value { result ≡ shared_joint_budget cells before (thinned_mean unit.now) }
    ensures small { before ≤ most_claims_budget → result ≤ most_joint_budget }
{
    let claims = unit.freq.thinned(&unit.sev);
    let most = claims.num().div_ceil(claims.den()) as u128;
    (cells as u128 * before + 2) * most + 2
}
