//! Grids that the claims of one independent unit go over: that of the total, and that of the total
//! with the extra claims of a gamma unit.

ghost use Rattle.std.specs.Prelude.{ℕ, ◌≡◌, ◌^◌, ◌<◌, ◌≤◌, IsTrue, IfOk, IfSome, length};
ghost use Rattle.dl_limits.specs.Limits.{budget_bound, most_plan_cells};
ghost use Rattle.dl_grid.specs.Cells.{spread};
ghost use Rattle.dl_plan.specs.Prelude.{CanRaise, IsIndependentAt, IsUnbounded, IsValidUnit, thinned_mean};
ghost use Rattle.dl_budget.specs.Asks.{joint_budget};
ghost use Rattle.dl_budget.specs.Shared.{shared_joint_budget};
ghost use Rattle.dl_shares.specs.Drawn.{IsTotalOf};
ghost use Rattle.dl_sources.specs.Origins.{IsBudgeted, IsWholeClaimsGrid};

use crate::budgeted::Budgeted;
use crate::units::plain_grid;
use dl_budget::shared_joint_budget;
use dl_grid::Grid;
use dl_limits::BUDGET_BOUND;
use dl_plan::{Plan, Unit};
use dl_pool::extra;
use dl_product::{Workspace, product};
use std::alloc::AllocError;

/// The fewest units of a plan in which the joint means of a gamma unit come from the total with its
/// extra claims. That takes one grid more and one product for each such unit; with fewer units the
/// sum of the others takes no longer.
const FEWEST_FOR_EXTRA: usize = 8;

/// Whether the joint means of a unit come from the total with the unit's extra claims, where that
/// is within its budget.
pub(crate) fn has_extra(units: &[Unit], unit: &Unit) -> bool
    ensures { IsTrue result → CanRaise unit.now }
{
    units.len() >= FEWEST_FOR_EXTRA && unit.can_raise()
}

/// Whether the joint means of a unit come from its claims over the grid of the total, or over that
/// of the total with its extra claims, where that is within its budget.
pub(crate) fn is_without_others(units: &[Unit], unit: &Unit) -> bool {
    unit.can_share() || has_extra(units, unit)
}

/// Whether the joint mean of a Poisson or gamma unit, from its claims over a grid of `cells` cells
/// of this spread, is no wider than `most`; then its share in a tail mean is not either. Spreads
/// and widths are in units of 1 / 2^B.
fn is_narrow(unit: &Unit, spread: u128, cells: u32, most: u128) -> bool
    requires valid { (h : ℕ) × IsValidUnit h unit.now }
    requires unbounded { IsUnbounded unit.now.freq }
    requires few { cells ≤ most_plan_cells }
    ensures bounded { IsTrue result → spread < budget_bound }
    ensures narrow { IsTrue result
        → shared_joint_budget cells spread (thinned_mean unit.now) ≤ most }
{
    if spread >= BUDGET_BOUND {
        return false;
    }
    shared_joint_budget(unit, spread, cells) <= most
}

/// Whether unit `i` is a Poisson unit that can be pooled, and its joint mean from the grid of the
/// total, whose spread is `apart`, is no wider than `most`, its budget.
pub(crate) fn is_from_total<const B: u32>(
    plan: &Plan,
    total: &Grid<B>,
    apart: u128,
    i: u32,
    most: u128,
) -> bool
    requires at { IsIndependentAt B plan.now }
    requires total { IsTotalOf plan.now total.now }
    requires apart { apart ≡ spread total.now }
    requires unit { i < length plan.now.units }
    requires most { most ≡ joint_budget (2 ^ B) plan.now i }
    ensures { IsTrue result → IsWholeClaimsGrid plan.now i total.now }
{
    let unit = &plan.units.as_slice()[i as usize];
    if !unit.can_share() {
        return false;
    }
    is_narrow(unit, apart, plan.cells, most)
}

/// The grid of the total with the extra claims of unit `i`; none where its joint means do not come
/// from that grid, where its extra claims are not a valid unit, and where its joint mean would be
/// wider than `most`, its budget.
pub(crate) fn with_extra<const B: u32>(
    of: &Budgeted,
    work: &mut Workspace,
    total: &Grid<B>,
    i: u32,
    most: u128,
) -> Result<Option<Grid<B>>, AllocError>
    requires of { IsBudgeted B of.now }
    requires total { IsTotalOf of.now.plan.now total.now }
    requires unit { i < length of.now.plan.now.units }
    requires most { most ≡ joint_budget (2 ^ B) of.now.plan.now i }
    ensures { IfOk result (λ made. IfSome made (IsWholeClaimsGrid of.now.plan.now i)) }
{
    let units = of.plan.units.as_slice();
    let unit = &units[i as usize];
    if !has_extra(units, unit) {
        return Ok(None);
    }
    let Some(claims) = extra(of.alloc, unit)? else {
        return Ok(None);
    };
    let grid = plain_grid::<B>(of.alloc, work, &claims, of.plan.cells)?;
    let made = product(of.alloc, work, &grid, total, of.plan.cells)?;
    let narrow = is_narrow(unit, made.spread(), of.plan.cells, most);
    Ok(narrow.then_some(made))
}
