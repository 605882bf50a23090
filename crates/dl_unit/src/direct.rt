//! The grids of claims above 0 whose number has no greatest, by one recursion at the full mean
//! where that comes out narrow enough, else by halvings or by shares.

ghost use Rattle.std.specs.Prelude.{◌≡◌, ℕ, ◌^◌, ◌≤◌, length, IfOk, IfSome, Some};
ghost use Rattle.dl_exact.specs.Fraction.{Fraction, whole};
ghost use Rattle.dl_grid.specs.Prelude.{spread, IsGridSize};
ghost use Rattle.dl_plan.specs.declared.plan.Freq.TheVariants.{Poisson, Gamma};
ghost use Rattle.dl_plan.specs.Prelude.{IsUnbounded, thinned_mean, claims_alone, IsValidUnit};
ghost use Rattle.dl_budget.specs.Claims.{claims_budget};
ghost use Rattle.dl_unit.specs.Narrow.{IsNarrowSum};

use crate::unbounded::{gamma_claims, poisson_claims, positive_claims};
use dl_budget::claims_budget;
use dl_frac::Frac;
use dl_grid::Grid;
use dl_limits::LONG_BITS;
use dl_plan::{Freq, Sev};
use dl_product::Workspace;
use dl_recursion::{gamma_direct, poisson_direct};
use std::alloc::{AllocError, Global};

/// The grid of a sum of which no claim above 0 is expected: the outcome 0.
fn no_claims<const B: u32>(
    alloc: Global,
    freq: &Freq,
    sev: &Sev,
    cells: u32,
) -> Result<Grid<B>, AllocError>
    requires size { IsGridSize B cells }
    requires valid { (h : ℕ) × IsValidUnit h (claims_alone freq.now sev.now) }
    requires unbounded { IsUnbounded freq.now }
    requires none { thinned_mean (claims_alone freq.now sev.now) ≡ whole 0 }
    ensures { IfOk result (IsNarrowSum cells freq.now sev.now) }
{
    Grid::zero(alloc, cells)
}

/// A grid, where it is there and its spread is at most the budget of the sum of these claims on its
/// cells. Budgets are computed at the scales of plans alone, so at a coarser one none is kept.
fn kept_if_narrow<const B: u32>(
    freq: &Freq,
    sev: &Sev,
    made: Option<Grid<B>>,
    cells: u32,
) -> Option<Grid<B>>
    requires size { IsGridSize B cells }
    requires valid { (h : ℕ) × IsValidUnit h (claims_alone freq.now sev.now) }
    requires cells { IfSome made (λ g. length g ≡ cells) }
    ensures kept { IfSome result (λ g. made.entry ≡ Some g) }
    ensures narrow { IfSome result (λ g.
        spread g ≤ claims_budget (2 ^ B) cells (claims_alone freq.now sev.now)) }
{
    let grid = made?;
    if B < LONG_BITS || grid.spread() > claims_budget::<B>(freq, sev, grid.cells()) {
        return None;
    }
    Some(grid)
}

/// The grid of a sum with a Poisson count.
pub(crate) fn poisson_grid<const B: u32>(
    alloc: Global,
    work: &mut Workspace,
    freq: &Freq,
    sev: &Sev,
    cells: u32,
) -> Result<Grid<B>, AllocError>
    requires size { IsGridSize B cells }
    requires valid { (h : ℕ) × IsValidUnit h (claims_alone freq.now sev.now) }
    requires count { (mean : Fraction) × (freq.now ≡ Poisson mean) }
    ensures { IfOk result (IsNarrowSum cells freq.now sev.now) }
{
    let Some(positive) = positive_claims(alloc, freq, sev)? else {
        return no_claims(alloc, freq, sev, cells);
    };
    let mean = freq.thinned(sev);
    let direct = poisson_direct(alloc, &positive, mean, cells)?;
    if let Some(grid) = kept_if_narrow(freq, sev, direct, cells) {
        return Ok(grid);
    }
    poisson_claims(alloc, work, &positive, mean, cells)
}

/// The grid of a sum with a gamma count of this shape.
pub(crate) fn gamma_grid<const B: u32>(
    alloc: Global,
    work: &mut Workspace,
    freq: &Freq,
    sev: &Sev,
    shape: Frac,
    cells: u32,
) -> Result<Grid<B>, AllocError>
    requires size { IsGridSize B cells }
    requires valid { (h : ℕ) × IsValidUnit h (claims_alone freq.now sev.now) }
    requires count { (mean : Fraction) × (freq.now ≡ Gamma shape mean) }
    ensures { IfOk result (IsNarrowSum cells freq.now sev.now) }
{
    let Some(positive) = positive_claims(alloc, freq, sev)? else {
        return no_claims(alloc, freq, sev, cells);
    };
    let mean = freq.thinned(sev);
    let direct = gamma_direct(alloc, &positive, shape, mean, cells)?;
    if let Some(grid) = kept_if_narrow(freq, sev, direct, cells) {
        return Ok(grid);
    }
    gamma_claims(alloc, work, &positive, mean, shape, cells)
}
