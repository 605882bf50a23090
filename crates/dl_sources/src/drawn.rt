//! What the rows of a plan are drawn from, and the mean of its total alone.

ghost use Rattle.std.specs.Prelude.{ℕ, ◌<◌, ◌≤◌, ◌^◌, None, IfOk, IfSome, IsSome, length, get_or};
ghost use Rattle.dl_limits.specs.Limits.{most_mean};
ghost use Rattle.dl_plan.specs.Prelude.{IsPlanAt};
ghost use Rattle.dl_budget.specs.Once.{AreAllBudgets};
ghost use Rattle.dl_shares.specs.Drawn.{AreDrawnOf, IsMeanOf, Reaches};
ghost use Rattle.dl_sources.specs.Origins.{IsBudgeted, IsDrawnOf};
ghost use Rattle.dl_sources.specs.Pooled.{IsPooledFor};

use crate::budgeted::Budgeted;
use crate::factor::{factor_drawn, pooled_mean, pooled_unit};
use crate::halves::total_by_halves;
use crate::outcomes::{Outcomes, outcomes_of_rest, unit_means, unit_outcomes, with_pooled};
use crate::together::{
    are_copied, are_without_others, pooled_if_any, sources_from, total_together,
};
use crate::totals::{drawn_of_units, drawn_with, total_mean};
use dl_budget::AllBudgets;
use dl_iv::Iv;
use dl_limits::STANDARD_UNITS;
use dl_plan::{Plan, Unit};
use dl_product::Workspace;
use dl_shares::Drawn;
use std::alloc::{AllocError, Global};

/// What is drawn of a valid plan of independent units, first with this one unit in the place of all
/// that can be pooled, and where that is too wide, from all units.
fn drawn_together<const B: u32>(
    of: &Budgeted,
    work: &mut Workspace,
    pooled: &Unit,
) -> Result<Drawn<B>, AllocError>
    requires of { IsBudgeted B of.now }
    requires pooled { IsPooledFor of.now.plan.now pooled.now }
    ensures { IfOk result (IsDrawnOf of.now) }
{
    let made = outcomes_of_rest(of.alloc, work, of.plan)?;
    let means = made.means;
    let mut rest = made.grids;
    let total = total_together(of, work, &mut rest, pooled)?;
    if let Some(sources) = sources_from(of, work, total)? {
        return Ok(drawn_with(of, Vec::new(of.alloc), means, sources));
    }
    let grids = with_pooled(of.alloc, work, of.plan, rest)?;
    drawn_of_units(of, work, Outcomes { grids, means })
}

/// What is drawn of a valid plan of independent units, none of which needs the sum of the others,
/// from the total by halves; none where it or a joint mean would be wider than its budget.
fn drawn_by_halves<const B: u32>(
    of: &Budgeted,
    work: &mut Workspace,
) -> Result<Option<Drawn<B>>, AllocError>
    requires of { IsBudgeted B of.now }
    ensures { IfOk result (λ made. IfSome made (IsDrawnOf of.now)) }
{
    let mut means = Vec::new(of.alloc);
    let total = total_by_halves(of, work, &mut means)?;
    let Some(sources) = sources_from(of, work, total)? else {
        return Ok(None);
    };
    Ok(Some(drawn_with(of, Vec::new(of.alloc), means, sources)))
}

/// What is drawn of a valid plan of independent units. With more units than the standard rules
/// admit the total is made by halves, where it can be, so that few grids are held at once. One unit
/// is put in the place of several only where no named unit needs the sum of the others, and no unit
/// that cannot be pooled is like one before it.
fn independent_drawn<const B: u32>(
    of: &Budgeted,
    work: &mut Workspace,
) -> Result<Drawn<B>, AllocError>
    requires of { IsBudgeted B of.now }
    ensures { IfOk result (IsDrawnOf of.now) }
{
    let units = of.plan.units.as_slice();
    let apart = are_without_others(units, of.budgets);
    if apart && units.len() > STANDARD_UNITS {
        if let Some(drawn) = drawn_by_halves(of, work)? {
            return Ok(drawn);
        }
    }
    if apart && !are_copied(units) {
        if let Some(pooled) = pooled_if_any(of.alloc, of.plan)? {
            return drawn_together(of, work, &pooled);
        }
    }
    let made = unit_outcomes(of.alloc, work, of.plan)?;
    drawn_of_units(of, work, made)
}

/// The grids and means behind the rows of a valid plan, in units of `1 / 2^B` and in buckets: the
/// grid and the mean of the total, the mean of each unit, and for each unit that has budgets what
/// its joint means at all totals below `reach` come from.
pub fn drawn_for<const B: u32>(
    alloc: Global,
    plan: &Plan,
    budgets: &AllBudgets,
    reach: u32,
) -> Result<Drawn<B>, AllocError>
    requires plan { IsPlanAt B plan.now }
    requires budgets { AreAllBudgets (2 ^ B) plan.now budgets.now }
    requires some { 1 ≤ reach }
    requires within { reach ≤ plan.now.cells }
    ensures drawn { IfOk result (AreDrawnOf plan.now) }
    ensures reached { IfOk result (λ drawn. (i : ℕ) → i < length plan.now.units
        → IsSome (get_or budgets.now.of_units.items i None) → Reaches drawn i reach) }
{
    let of = Budgeted {
        alloc,
        plan,
        budgets,
    };
    let mut space = Workspace::new(alloc);
    let work = &mut space;
    match plan.common {
        Some(_) => factor_drawn(&of, work, reach),
        None => independent_drawn(&of, work),
    }
}

/// The mean of the total of a valid plan, in buckets. No grid is made but those of units with an
/// aggregate clause.
pub fn mean_for<const B: u32>(alloc: Global, plan: &Plan) -> Result<Iv<B>, AllocError>
    requires plan { IsPlanAt B plan.now }
    ensures mean { IfOk result (IsMeanOf plan.now) }
    ensures small { IfOk result (λ mean. mean.hi ≤ most_mean) }
{
    match plan.common {
        Some(_) => {
            let pooled = pooled_unit::<B>(alloc, plan)?;
            Ok(pooled_mean(plan, &pooled))
        }
        None => {
            let means = unit_means(alloc, &mut Workspace::new(alloc), plan)?;
            Ok(total_mean(plan, means.as_slice()))
        }
    }
}
