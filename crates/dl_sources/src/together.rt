//! The total of independent units where one Poisson unit stands for several.

ghost use Rattle.std.specs.Prelude.{◌≡◌, None, IfOk, OnOk, IfSome, length, replicate};
ghost use Rattle.dl_plan.specs.Prelude.{IsValid};
ghost use Rattle.dl_shares.specs.Drawn.{AreUnitGrids};
ghost use Rattle.dl_sources.specs.Origins.{AreSourcesOf, IsBudgeted, IsTotalIfNarrow, NoneBeside};
ghost use Rattle.dl_sources.specs.Pooled.{rest_of, IsPooledFor};

use crate::budgeted::Budgeted;
use crate::extra::is_without_others;
use crate::origins::{Sources, sources_of};
use crate::same::first_alike;
use crate::units::plain_grid;
use dl_budget::AllBudgets;
use dl_grid::Grid;
use dl_plan::{Plan, Unit};
use dl_pool::{pool_poisson, sharing};
use dl_product::Workspace;
use dl_totals::{Sums, total_with};
use std::alloc::{AllocError, Global};

/// Whether some unit that cannot be pooled is like one before it, so that its grid is copied where
/// no units are pooled.
pub(crate) fn are_copied(units: &[Unit]) -> bool {
    for i in 0..units.len() {
        if !units[i].can_share() && first_alike(&units[..i], &units[i]).is_some() {
            return true;
        }
    }
    false
}

/// Whether the sum of the other units is needed for no named unit.
pub(crate) fn are_without_others(units: &[Unit], budgets: &AllBudgets) -> bool
    requires as_many { length budgets.now.of_units.items ≡ length units.now }
{
    for i in 0..units.len() {
        if budgets.at(i).is_some() && !is_without_others(units, &units[i]) {
            return false;
        }
    }
    true
}

/// One Poisson unit in the place of all units of a plan that can be pooled; none where there are
/// fewer than two, and where it would not be a valid unit.
pub(crate) fn pooled_if_any(alloc: Global, plan: &Plan) -> Result<Option<Unit>, AllocError>
    requires valid { IsValid plan.now }
    ensures { IfOk result (λ made. IfSome made (IsPooledFor plan.now)) }
{
    let units = plan.units.as_slice();
    let shared = sharing(alloc, units)?;
    if shared.len() < 2 {
        return Ok(None);
    }
    pool_poisson(alloc, shared.as_slice())
}

/// The grid of the total, from those of the units that cannot be pooled and from the one unit in
/// the place of the others. It may be wider than the budget of the total.
pub(crate) fn total_together<const B: u32>(
    of: &Budgeted,
    work: &mut Workspace,
    rest: &mut Vec<Grid<B>>,
    pooled: &Unit,
) -> Result<Grid<B>, AllocError>
    requires of { IsBudgeted B of.now }
    requires rest { AreUnitGrids of.now.plan.now.cells (rest_of of.now.plan.now.units)
        rest.old.items }
    requires pooled { IsPooledFor of.now.plan.now pooled.now }
    ensures rest { OnOk result (rest.new.items ≡ rest.old.items) }
    ensures total { IfOk result (IsTotalIfNarrow of.now.plan.now) }
{
    let many = rest.len();
    let grid = plain_grid::<B>(of.alloc, work, pooled, of.plan.cells)?;
    rest.push(grid)?;
    let total = total_with(of.alloc, work, rest.as_slice(), of.plan.cells)?;
    rest.truncate(many);
    Ok(total)
}

/// For each of `many` units, no grid.
fn no_grids<const B: u32>(alloc: Global, many: usize) -> Result<Vec<Option<Grid<B>>>, AllocError>
    ensures { IfOk result (λ grids. grids.items ≡ replicate many None) }
{
    let mut grids = Vec::new(alloc);
    'units: for _ in 0..many {
        grids.push(None)?;
    }
    Ok(grids)
}

/// What the joint means of all units come from, from this grid of the total, where no unit needs
/// the sum of the others; none where the grid is wider than the budget of the total, and where a
/// joint mean would be wider than its own.
pub(crate) fn sources_from<const B: u32>(
    of: &Budgeted,
    work: &mut Workspace,
    total: Grid<B>,
) -> Result<Option<Sources<B>>, AllocError>
    requires of { IsBudgeted B of.now }
    requires total { IsTotalIfNarrow of.now.plan.now total }
    ensures sources { IfOk result (λ made. IfSome made (AreSourcesOf of.now)) }
    ensures beside { IfOk result (λ made. IfSome made NoneBeside) }
{
    if total.spread() > of.budgets.of_total.total {
        return Ok(None);
    }
    let others = no_grids(of.alloc, of.plan.units.as_slice().len())?;
    sources_of(of, work, Sums { total, others })
}
