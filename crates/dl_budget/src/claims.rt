//! The budget of the sum of a unit's claims, by the kind of its count.

ghost use Rattle.std.specs.Prelude.{ℕ, ◌≡◌, ◌+◌, ◌*◌, ◌^◌, ◌≤◌, ◌<◌, All};
ghost use Rattle.dl_limits.specs.Limits.{IsPlanScale, most_cells, most_claims_budget, most_expected, most_none_budget};
ghost use Rattle.dl_exact.specs.Fraction.{Fraction, whole, ◌+ℚ◌, ◌*ℚ◌, ◌<ℚ◌, ◌≤ℚ◌};
ghost use Rattle.dl_grid.specs.Width.{up};
ghost use Rattle.dl_plan.specs.Prelude.{HasPartsOf48Bits, expected_count, IsClaimCount, claims_alone, IsNewZero, IsValidUnit};
ghost use Rattle.dl_budget.specs.Claims.{poisson_budget, gamma_budget, claims_budget, none_budget};
ghost use Rattle.dl_budget.specs.Sizes.{IsGammaOn};

use crate::steps::{convolution_spread, doubled, halvings, listed, power_spread};
use dl_frac::Frac;
use dl_plan::{Freq, Sev, greatest_amount};

/// The budget of a count and a severity of a valid plan: of the sum of their claims, on `cells`
/// cells.
pub fn claims_budget<const B: u32>(freq: &Freq, sev: &Sev, cells: u32) -> u128
    requires scale { IsPlanScale B }
    requires valid { (h : ℕ) × IsValidUnit h (claims_alone freq.now sev.now) }
    requires few { cells ≤ most_cells }
    ensures value { result ≡ claims_budget (2 ^ B) cells (claims_alone freq.now sev.now) }
    ensures small { result ≤ most_claims_budget }
{
    let items = sev.items.as_slice().len() as u128;
    match freq {
        Freq::Fixed(claims) => power_spread::<B>(cells, items, *claims),
        Freq::Table { counts, .. } => listed::<B>(cells, items, greatest_amount(counts.as_slice())),
        Freq::Bernoulli(_) => 3 * (items + 1),
        Freq::Binomial { trials, .. } => power_spread::<B>(cells, 3 * (items + 1), *trials),
        Freq::Poisson(_) => poisson_budget::<B>(freq.thinned(sev), cells),
        Freq::Gamma { shape, .. } => gamma_budget::<B>(freq.thinned(sev), *shape, cells),
    }
}

/// The budget of the probability of no claim of a count in which it can be changed: of cell 0 of
/// claims of amount 1 alone, on one cell.
pub fn none_budget<const B: u32>(freq: &Freq) -> u128
    requires scale { IsPlanScale B }
    requires count { IsClaimCount freq.now }
    requires expected { HasPartsOf48Bits (expected_count freq.now) }
    requires changed { (p : Fraction) × IsNewZero freq.now p }
    ensures value { result ≡ none_budget (2 ^ B) freq.now }
    ensures small { result ≤ most_none_budget }
{
    none_by_count::<B>(freq)
}

/// The same budget, by the kind of the count.
fn none_by_count<const B: u32>(freq: &Freq) -> u128
    requires scale { IsPlanScale B }
    requires count { IsClaimCount freq.now }
    requires expected { HasPartsOf48Bits (expected_count freq.now) }
    requires changed { (p : Fraction) × IsNewZero freq.now p }
    ensures { result ≡ none_budget (2 ^ B) freq.now }
{
    match freq {
        Freq::Fixed(claims) => power_spread::<B>(1, 1, *claims),
        Freq::Table { .. } => 0,
        Freq::Bernoulli(_) => 6,
        Freq::Binomial { trials, .. } => power_spread::<B>(1, 6, *trials),
        Freq::Poisson(mean) => poisson_budget::<B>(*mean, 1),
        Freq::Gamma { shape, mean } => gamma_budget::<B>(*mean, *shape, 1),
    }
}

/// The budget of a Poisson count of this thinned mean.
fn poisson_budget<const B: u32>(mean: Frac, cells: u32) -> u128
    requires scale { IsPlanScale B }
    requires within { mean ≤ℚ whole most_expected }
    requires few { cells ≤ most_cells }
    ensures none { mean.num ≡ 0 → result ≡ 0 }
    ensures value { 0 < mean.num → result ≡ poisson_budget (2 ^ B) cells mean }
    ensures small { result ≤ most_claims_budget }
{
    if mean.num() == 0 {
        return 0;
    }
    doubled::<B>(cells, 8 * cells as u128 + 128, halvings(mean))
}

/// The spread of a base of a gamma count: `steps` times `1 + beta`, rounded up.
fn base_spread(steps: u128, beta: Frac) -> u128
    requires few { steps ≤ 6 * most_cells + 2 }
    ensures { result ≡ up (whole steps *ℚ (whole 1 +ℚ beta)) }
{
    let parts = steps * (beta.den() as u128 + beta.num() as u128);
    parts.div_ceil(beta.den() as u128)
}

/// The budget of a gamma count of this shape and thinned mean.
pub(crate) fn gamma_budget<const B: u32>(mean: Frac, shape: Frac, cells: u32) -> u128
    requires scale { IsPlanScale B }
    requires count { IsGammaOn cells shape mean }
    ensures none { mean.num ≡ 0 → result ≡ 0 }
    ensures value { 0 < mean.num → result ≡ gamma_budget (2 ^ B) cells shape mean }
    ensures small { result ≤ most_claims_budget }
{
    if mean.num() == 0 {
        return 0;
    }
    let beta = mean.div(shape).unwrap();
    let rest = base_spread(6 * cells as u128 + 2, beta);
    if shape.num() < shape.den() {
        return rest;
    }
    let base = base_spread(4 * cells as u128 + 1, beta);
    let whole = power_spread::<B>(cells, base, (shape.num() / shape.den()) as u32);
    if shape.num() % shape.den() == 0 {
        return whole;
    }
    convolution_spread::<B>(cells, whole, rest)
}
