//! The grid of a unit's outcomes, and their mean.

ghost use Rattle.std.specs.Prelude.{Some, None, ◌≡◌, ◌-◌, ◌≤◌, ◌^◌, IfOk};
ghost use Rattle.dl_limits.specs.Limits.{most_unit_mean};
ghost use Rattle.dl_model.specs.Prelude.{aggregate_of};
ghost use Rattle.dl_plan.specs.Prelude.{IsUnitOn};
ghost use Rattle.dl_outcomes.specs.Before.{HoldsNone};
ghost use Rattle.dl_budget.specs.Claims.{none_budget};
ghost use Rattle.dl_shares.specs.Drawn.{IsUnitGrid, IsUnitMean};
ghost use Rattle.dl_sources.specs.Units.{most_clause_mean, IsClaimsSum, IsClauseGrid, IsClauseMean, IsOutcomeOf};

use dl_frac::Frac;
use dl_grid::Grid;
use dl_iv::Iv;
use dl_outcomes::{cede_grid, cede_mean, claims_mean, zero_grid, zero_mean};
use dl_plan::Unit;
use dl_product::Workspace;
use dl_unit::{none_of, unit_grid_with};
use std::alloc::{AllocError, Global};

/// The grid of a unit's outcomes, and their mean.
#[derive(Drop)]
pub(crate) struct Outcome<const B: u32> {
    /// The grid.
    pub(crate) grid: Grid<B>,
    /// The mean, in buckets.
    pub(crate) mean: Iv<B>,
}

/// The grid of the sum of a unit's claims before its aggregate clause, on the cells that the clause
/// needs for a grid of `cells` cells.
fn claims_grid<const B: u32>(
    alloc: Global,
    work: &mut Workspace,
    unit: &Unit,
    cells: u32,
) -> Result<Grid<B>, AllocError>
    requires on { IsUnitOn B cells unit.now }
    ensures { IfOk result (λ g. IsClaimsSum cells unit.now g) }
{
    let horizon = unit.horizon(cells).unwrap();
    unit_grid_with(alloc, work, unit, horizon)
}

/// The grid of the outcomes of a unit with neither an aggregate clause nor a changed probability of
/// no claim.
pub(crate) fn plain_grid<const B: u32>(
    alloc: Global,
    work: &mut Workspace,
    unit: &Unit,
    cells: u32,
) -> Result<Grid<B>, AllocError>
    requires on { IsUnitOn B cells unit.now }
    requires clause { unit.now.cede ≡ None }
    requires zero { unit.now.zero ≡ None }
    ensures { IfOk result (λ g. IsUnitGrid cells unit.now g) }
{
    claims_grid(alloc, work, unit, cells)
}

/// The grid of a unit's outcomes after its aggregate clause, from that of the sum of its claims.
#[tactic(auto, using(crate::proofs::Scales::grid_size))]
fn after_clause<const B: u32>(
    alloc: Global,
    unit: &Unit,
    claims: Grid<B>,
    cells: u32,
) -> Result<Grid<B>, AllocError>
    requires on { IsUnitOn B cells unit.now }
    requires claims { IsClaimsSum cells unit.now claims }
    ensures { IfOk result (λ g. IsClauseGrid cells unit.now g) }
{
    match unit.cede {
        Some(_) => cede_grid(alloc, unit, &claims, cells),
        None => Ok(claims),
    }
}

/// The mean of a unit's outcomes with its changed probability `p` of no claim, from their mean and
/// the probability `none` before.
fn changed_mean<const B: u32>(unit: &Unit, mean: Iv<B>, none: Iv<B>, p: Frac, cells: u32) -> Iv<B>
    requires on { IsUnitOn B cells unit.now }
    requires zero { unit.now.zero ≡ Some p }
    requires mean { IsClauseMean cells unit.now mean }
    requires small { mean.hi ≤ most_clause_mean unit.now.zero }
    requires none { HoldsNone (aggregate_of unit.now) none }
    requires width { none.hi - none.lo ≤ none_budget (2 ^ B) unit.now.freq }
    ensures mean { IsUnitMean cells unit.now result }
    ensures small { result.hi ≤ most_unit_mean }
{
    zero_mean(mean, none, p)
}

/// The grid of a unit's outcomes, and their mean, from those before its probability of no claim is
/// changed.
fn after_zero<const B: u32>(
    alloc: Global,
    work: &mut Workspace,
    unit: &Unit,
    grid: Grid<B>,
    mean: Iv<B>,
    cells: u32,
) -> Result<Outcome<B>, AllocError>
    requires on { IsUnitOn B cells unit.now }
    requires grid { IsClauseGrid cells unit.now grid }
    requires mean { IsClauseMean cells unit.now mean }
    requires small { mean.hi ≤ most_clause_mean unit.now.zero }
    ensures { IfOk result (IsOutcomeOf cells unit.now) }
{
    match unit.zero {
        Some(p) => {
            let none = none_of(alloc, work, &unit.freq)?;
            let changed = zero_grid(alloc, &grid, none, p)?;
            let mean = changed_mean(unit, mean, none, p, cells);
            Ok(Outcome {
                grid: changed,
                mean,
            })
        }
        None => Ok(Outcome { grid, mean }),
    }
}

/// The grid of a unit's outcomes, and their mean.
pub(crate) fn outcome_of<const B: u32>(
    alloc: Global,
    work: &mut Workspace,
    unit: &Unit,
    cells: u32,
) -> Result<Outcome<B>, AllocError>
    requires on { IsUnitOn B cells unit.now }
    ensures { IfOk result (IsOutcomeOf cells unit.now) }
{
    let claims = claims_grid(alloc, work, unit, cells)?;
    let mean = cede_mean(unit, &claims);
    let grid = after_clause(alloc, unit, claims, cells)?;
    after_zero(alloc, work, unit, grid, mean, cells)
}

/// The mean of a unit's outcomes before its probability of no claim is changed. It needs a grid
/// only where there is an aggregate clause.
fn clause_mean<const B: u32>(
    alloc: Global,
    work: &mut Workspace,
    unit: &Unit,
    cells: u32,
) -> Result<Iv<B>, AllocError>
    requires on { IsUnitOn B cells unit.now }
    ensures mean { IfOk result (λ mean. IsClauseMean cells unit.now mean) }
    ensures small { IfOk result (λ mean. mean.hi ≤ most_clause_mean unit.now.zero) }
{
    match unit.cede {
        Some(_) => {
            let claims = claims_grid(alloc, work, unit, cells)?;
            Ok(cede_mean(unit, &claims))
        }
        None => Ok(claims_mean(unit)),
    }
}

/// The mean of a unit's outcomes. Where its probability of no claim is changed, it needs that
/// before the change, on a grid of one cell.
pub(crate) fn mean_of<const B: u32>(
    alloc: Global,
    work: &mut Workspace,
    unit: &Unit,
    cells: u32,
) -> Result<Iv<B>, AllocError>
    requires on { IsUnitOn B cells unit.now }
    ensures mean { IfOk result (λ mean. IsUnitMean cells unit.now mean) }
    ensures small { IfOk result (λ mean. mean.hi ≤ most_unit_mean) }
{
    let mean = clause_mean(alloc, work, unit, cells)?;
    match unit.zero {
        Some(p) => {
            let none = none_of(alloc, work, &unit.freq)?;
            Ok(changed_mean(unit, mean, none, p, cells))
        }
        None => Ok(mean),
    }
}
