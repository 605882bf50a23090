//! Units under a common factor: the grids and means from the one unit in their place.

ghost use Rattle.std.specs.Prelude.{ℕ, ◌≡◌, ◌<◌, ◌≤◌, ◌^◌, IsSome, IfOk, length, map};
ghost use Rattle.dl_limits.specs.Limits.{most_mean};
ghost use Rattle.dl_plan.specs.Prelude.{IsPlanAt};
ghost use Rattle.dl_budget.specs.Once.{AreAllBudgets};
ghost use Rattle.dl_shares.specs.Drawn.{AreDrawnOf, IsClaimsGrid, IsMeanOf};
ghost use Rattle.dl_sources.specs.Origins.{AreFactorGrids, ReachNamed, factor_origin};
ghost use Rattle.dl_sources.specs.Pooled.{IsPooledAt};

use crate::budgeted::Budgeted;
use crate::outcomes::unit_means;
use dl_budget::{AllBudgets, unit_budget};
use dl_grid::Grid;
use dl_iv::Iv;
use dl_limits::BUDGET_BOUND;
use dl_outcomes::claims_mean;
use dl_plan::{Plan, Unit};
use dl_pool::{pool, raised};
use dl_product::Workspace;
use dl_shares::{Drawn, Origin};
use dl_unit::unit_grid_with;
use std::alloc::{AllocError, Global};

/// The one unit in the place of all units of a plan that share a factor.
pub(crate) fn pooled_unit<const B: u32>(alloc: Global, plan: &Plan) -> Result<Unit, AllocError>
    requires at { IsPlanAt B plan.now }
    requires shares { IsSome plan.now.common }
    ensures { IfOk result (IsPooledAt B plan.now) }
{
    pool(alloc, plan)
}

/// The mean of the total of a plan whose units share a factor, in buckets: that of the one unit in
/// their place.
pub(crate) fn pooled_mean<const B: u32>(plan: &Plan, pooled: &Unit) -> Iv<B>
    requires pooled { IsPooledAt B plan.now pooled.now }
    ensures mean { IsMeanOf plan.now result }
    ensures small { result.hi ≤ most_mean }
{
    claims_mean(pooled)
}

/// The first `reach` cells of the grid of the one unit in the place of all units of a plan that
/// share a factor, with one more in its shape.
#[tactic(auto, using(crate::proofs::Scales::grid_size, crate::proofs::Scales::plan_scale))]
fn raised_grid<const B: u32>(
    alloc: Global,
    work: &mut Workspace,
    plan: &Plan,
    pooled: &Unit,
    reach: u32,
) -> Result<Grid<B>, AllocError>
    requires pooled { IsPooledAt B plan.now pooled.now }
    requires some { 1 ≤ reach }
    requires within { reach ≤ plan.now.cells }
    ensures grid { IfOk result (λ g. (i : ℕ) → i < length plan.now.units
        → IsClaimsGrid plan.now i g) }
    ensures reach { IfOk result (λ g. length g ≡ reach) }
{
    let unit = raised(alloc, pooled)?;
    // its grid is not so wide that the ends are a whole apart
    prove!(unit_budget::<B>(&unit, plan.cells) < BUDGET_BOUND);
    unit_grid_with(alloc, work, &unit, reach)
}

/// The grid of the total of a plan whose units share a factor: that of the one unit in their place;
/// and behind it, where an ask names a unit, the first `reach` cells of that of the raised unit,
/// over which the claims of each unit go.
fn factor_grids<const B: u32>(
    alloc: Global,
    work: &mut Workspace,
    plan: &Plan,
    pooled: &Unit,
    named: bool,
    reach: u32,
) -> Result<Vec<Grid<B>>, AllocError>
    requires pooled { IsPooledAt B plan.now pooled.now }
    requires some { 1 ≤ reach }
    requires within { reach ≤ plan.now.cells }
    ensures { IfOk result (λ made. AreFactorGrids plan.now named reach made.items) }
{
    let total = unit_grid_with::<B>(alloc, work, pooled, plan.cells)?;
    let mut grids = Vec::new(alloc);
    grids.push(total)?;
    if !named {
        return Ok(grids);
    }
    let raised = raised_grid(alloc, work, plan, pooled, reach)?;
    grids.push(raised)?;
    Ok(grids)
}

/// For each unit under a common factor what its joint means come from: its claims over the grid of
/// the raised unit, where an ask names it.
fn factor_origins<const B: u32>(
    alloc: Global,
    budgets: &AllBudgets,
) -> Result<Vec<Origin<B>>, AllocError>
    ensures { IfOk result (λ made. made.items ≡ map factor_origin budgets.now.of_units.items) }
{
    let mut origins = Vec::new(alloc);
    for of in budgets.of_units.as_slice() {
        let origin = match of {
            Some(_) => Origin::Claims(1),
            None => Origin::Nowhere,
        };
        origins.push(origin)?;
    }
    Ok(origins)
}

/// What is drawn of a valid plan whose units share a factor, with joint means at all totals below
/// `reach` for each named unit.
pub(crate) fn factor_drawn<const B: u32>(
    of: &Budgeted,
    work: &mut Workspace,
    reach: u32,
) -> Result<Drawn<B>, AllocError>
    requires at { IsPlanAt B of.now.plan.now }
    requires shares { IsSome of.now.plan.now.common }
    requires budgets { AreAllBudgets (2 ^ B) of.now.plan.now of.now.budgets.now }
    requires some { 1 ≤ reach }
    requires within { reach ≤ of.now.plan.now.cells }
    ensures drawn { IfOk result (AreDrawnOf of.now.plan.now) }
    ensures reached { IfOk result
        (ReachNamed of.now.plan.now of.now.budgets.now.of_units.items reach) }
{
    let means = unit_means(of.alloc, work, of.plan)?;
    let origins = factor_origins(of.alloc, of.budgets)?;
    let named = of.budgets.are_named();
    let pooled = pooled_unit::<B>(of.alloc, of.plan)?;
    let grids = factor_grids(of.alloc, work, of.plan, &pooled, named, reach)?;
    Ok(Drawn {
        grids,
        units: Vec::new(of.alloc),
        means,
        mean: pooled_mean(of.plan, &pooled),
        origins,
    })
}
