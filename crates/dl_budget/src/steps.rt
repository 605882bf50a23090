//! The spreads of convolutions: of one, of powers, of listed counts and of halvings.

ghost use Rattle.std.specs.Prelude.{ℕ, ◌≡◌, ◌+◌, ◌*◌, ◌^◌, ◌≤◌};
ghost use Rattle.dl_limits.specs.Limits.{IsPlanScale, budget_bound, most_claims_budget, most_expected, most_operands, most_convolution_budget};
ghost use Rattle.dl_exact.specs.Fraction.{whole, ◌≤ℚ◌};
ghost use Rattle.dl_grid.specs.Width.{convolution_spread, power_spread, mixed_spread, rounded_spread, IsSizeWithin};
ghost use Rattle.dl_budget.specs.Halvings.{IsHalvings, halvings};

use dl_frac::Frac;
use dl_grid::units_of_one;

/// The spread of a convolution on `cells` cells, of grids with the spreads `x` and `y`.
pub fn convolution_spread<const B: u32>(cells: u32, x: u128, y: u128) -> u128
    requires scale { IsPlanScale B }
    requires left { x ≤ budget_bound }
    requires right { y ≤ budget_bound }
    ensures value { result ≡ convolution_spread (2 ^ B) cells x y }
    ensures small { result ≤ most_convolution_budget }
{
    let product = (x * y).div_ceil(units_of_one(B));
    x + y + product + 2 * cells as u128
}

/// The spread of the `n`-th power of a grid with the spread `base`.
pub fn power_spread<const B: u32>(cells: u32, base: u128, n: u32) -> u128
    requires scale { IsPlanScale B }
    requires room { n * rounded_spread cells 0 base ≤ most_operands }
    ensures value { result ≡ power_spread (2 ^ B) cells base n }
    ensures size { 1 ≤ n → IsSizeWithin (2 ^ B) (n * rounded_spread cells 0 base)
        (rounded_spread cells 0 result) }
    ensures small { result ≤ most_claims_budget }
{
    if n == 0 {
        return 0;
    }
    if n == 1 {
        return base;
    }
    let half = power_spread::<B>(cells, base, n / 2);
    let even = convolution_spread::<B>(cells, half, half);
    if n % 2 == 0 {
        return even;
    }
    convolution_spread::<B>(cells, even, base)
}

/// The spread of a listed number of claims of which the greatest is `greatest`, where the grid of
/// one claim has the spread `base`.
pub fn listed<const B: u32>(cells: u32, base: u128, greatest: u32) -> u128
    requires scale { IsPlanScale B }
    requires room { rounded_spread cells 2 1 + greatest * rounded_spread cells 2 base
        ≤ most_operands }
    ensures value { result ≡ mixed_spread (2 ^ B) cells base greatest }
    ensures small { result ≤ most_claims_budget }
{
    let mut spread = 1;
    for _step in 0..greatest {
        spread = convolution_spread::<B>(cells, base, spread) + 2;
    }
    spread
}

/// The spread of a grid with the spread `base` after `times` convolutions of it with itself.
pub fn doubled<const B: u32>(cells: u32, base: u128, times: u32) -> u128
    requires scale { IsPlanScale B }
    requires room { 2 ^ times * rounded_spread cells 0 base ≤ most_operands }
    ensures value { result ≡ power_spread (2 ^ B) cells base (2 ^ times) }
    ensures small { result ≤ most_claims_budget }
{
    let mut spread = base;
    for _step in 0..times {
        spread = convolution_spread::<B>(cells, spread, spread);
    }
    spread
}

/// How often a mean of at most 4,096 is halved until it is at most 1/2.
pub fn halvings(mean: Frac) -> u32
    requires { mean ≤ℚ whole most_expected }
    ensures least { IsHalvings mean result }
    ensures value { result ≡ halvings mean }
    ensures small { result ≤ 13 }
{
    let double = 2 * mean.num() as u128;
    for times in 0..13 {
        if double <= (mean.den() as u128) << times {
            return times;
        }
    }
    13
}
