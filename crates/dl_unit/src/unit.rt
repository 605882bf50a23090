//! The grid of a unit, by the kind of its count.

ghost use Rattle.std.specs.Prelude.{◌≡◌, ℕ, ◌^◌, ◌≤◌, length, IfOk};
ghost use Rattle.dl_grid.specs.Prelude.{spread, IsGridSize};
ghost use Rattle.dl_budget.specs.Claims.{claims_budget};
ghost use Rattle.dl_model.specs.Prelude.{GridEncloses, compound_of};
ghost use Rattle.dl_plan.specs.Prelude.{claims_alone, IsValidUnit};
ghost use Rattle.dl_unit.specs.Narrow.{IsNarrowSum};

use crate::direct::{gamma_grid, poisson_grid};
use crate::finite::{binomial_claims, fixed_claims, listed_claims};
use crate::trial::one_trial;
use dl_grid::Grid;
use dl_plan::{Freq, Sev, Unit};
use dl_product::Workspace;
use std::alloc::{AllocError, Global};

/// The first `cells` cells of the sum of a unit's claims, before its aggregate clause and before
/// its probability of no claim is changed, by products in a workspace that is lent. The unit is of a
/// valid plan. The spread is at most the budget of its claims on `cells` cells.
pub fn unit_grid_with<const B: u32>(
    alloc: Global,
    work: &mut Workspace,
    unit: &Unit,
    cells: u32,
) -> Result<Grid<B>, AllocError>
    requires size { IsGridSize B cells }
    requires valid { (h : ℕ) × IsValidUnit h unit.now }
    ensures cells { IfOk result (λ g. length g ≡ cells) }
    ensures encloses { IfOk result (λ g. GridEncloses g (compound_of unit.now.freq unit.now.sev)) }
    ensures spread { IfOk result (λ g. spread g ≤ claims_budget (2 ^ B) cells unit.now) }
{
    sum_grid(alloc, work, &unit.freq, &unit.sev, cells)
}

/// The first `cells` cells of the sum of claims with this count and severity, of a unit of a valid
/// plan.
pub(crate) fn sum_grid<const B: u32>(
    alloc: Global,
    work: &mut Workspace,
    freq: &Freq,
    sev: &Sev,
    cells: u32,
) -> Result<Grid<B>, AllocError>
    requires size { IsGridSize B cells }
    requires valid { (h : ℕ) × IsValidUnit h (claims_alone freq.now sev.now) }
    ensures { IfOk result (IsNarrowSum cells freq.now sev.now) }
{
    match freq {
        Freq::Fixed(claims) => fixed_claims(alloc, work, sev, *claims, cells),
        Freq::Table { counts, total } => {
            listed_claims(alloc, work, sev, counts.as_slice(), *total, cells)
        }
        Freq::Bernoulli(q) => one_trial(alloc, sev, *q, cells),
        Freq::Binomial { trials, q } => binomial_claims(alloc, work, sev, *trials, *q, cells),
        Freq::Poisson(_) => poisson_grid(alloc, work, freq, sev, cells),
        Freq::Gamma { shape, .. } => gamma_grid(alloc, work, freq, sev, *shape, cells),
    }
}
