//! The total of independent units from all of them, and for some the sum of all others.

ghost use Rattle.std.specs.Prelude.{ℕ, ◌≡◌, ◌<◌, ◌≤◌, false, IsTrue, None, IfOk, IfSome, IsSome, length, get_or};
ghost use Rattle.dl_limits.specs.Limits.{most_mean};
ghost use Rattle.dl_plan.specs.Prelude.{IsIndependentAt};
ghost use Rattle.dl_shares.specs.declared.drawn.Origin.TheVariants.{Nowhere};
ghost use Rattle.dl_shares.specs.Drawn.{AreUnitGrids, IsMeanOf};
ghost use Rattle.dl_sources.specs.Origins.{AreSourcesOf, IsBeside, IsBudgeted, IsDrawnOf};
ghost use Rattle.dl_sources.specs.Units.{AreMeansOf, AreOutcomesOf};

use crate::budgeted::Budgeted;
use crate::extra::is_without_others;
use crate::origins::{Sources, sources_of};
use crate::outcomes::Outcomes;
use dl_budget::{AllBudgets, budgets_of};
use dl_grid::Grid;
use dl_iv::Iv;
use dl_limits::MOST_MEAN_BUDGET;
use dl_plan::{Plan, Unit};
use dl_product::Workspace;
use dl_shares::Drawn;
use dl_totals::{sums_of_one, total_and_others};
use std::alloc::{AllocError, Global};

/// The mean of the total of a valid plan, in buckets, whose units are independent: the sum of the
/// means of its units.
pub(crate) fn total_mean<const B: u32>(plan: &Plan, means: &[Iv<B>]) -> Iv<B>
    requires at { IsIndependentAt B plan.now }
    requires means { AreMeansOf plan.now.cells plan.now.units means.now }
    ensures mean { IsMeanOf plan.now result }
    ensures small { result.hi ≤ most_mean }
{
    // the budget of the mean is that of a valid plan, so the sum has room
    prove!(budgets_of::<B>(plan).mean <= MOST_MEAN_BUDGET);
    Iv::sum(means)
}

/// What is drawn of these means of all units, of this grid of the total, and of what joint means
/// come from; with the grids of all units where that is the sum of all others.
pub(crate) fn drawn_with<const B: u32>(
    of: &Budgeted,
    units: Vec<Grid<B>>,
    means: Vec<Iv<B>>,
    sources: Sources<B>,
) -> Drawn<B>
    requires of { IsBudgeted B of.now }
    requires units { (i : ℕ) → IsBeside (get_or sources.origins.items i Nowhere)
        → AreUnitGrids of.now.plan.now.cells of.now.plan.now.units units.items }
    requires means { AreMeansOf of.now.plan.now.cells of.now.plan.now.units means.items }
    requires sources { AreSourcesOf of.now sources }
    ensures { IsDrawnOf of.now result }
{
    let mean = total_mean(of.plan, means.as_slice());
    Drawn {
        grids: sources.grids,
        units,
        means,
        mean,
        origins: sources.origins,
    }
}

/// For each unit, whether an ask names it, and `all` or its joint means need the grid of the sum of
/// all other units.
fn beside(
    alloc: Global,
    units: &[Unit],
    budgets: &AllBudgets,
    all: bool,
) -> Result<Vec<bool>, AllocError>
    requires as_many { length budgets.now.of_units.items ≡ length units.now }
    ensures as_many { IfOk result (λ asked. length asked.items ≡ length units.now) }
    ensures all { IfOk result (λ asked. IsTrue all → (i : ℕ) → i < length units.now
        → IsSome (get_or budgets.now.of_units.items i None)
        → IsTrue (get_or asked.items i false)) }
{
    let mut asked = Vec::new(alloc);
    for i in 0..units.len() {
        let others = all | !is_without_others(units, &units[i]);
        asked.push(budgets.at(i).is_some() & others)?;
    }
    Ok(asked)
}

/// What the joint means of all units come from: of each named unit that needs it, or where `all`,
/// of each named unit, from the sum of all others. None where a joint mean would be wider than its
/// budget.
fn sources_beside<const B: u32>(
    of: &Budgeted,
    work: &mut Workspace,
    units: &[Grid<B>],
    all: bool,
) -> Result<Option<Sources<B>>, AllocError>
    requires of { IsBudgeted B of.now }
    requires units { AreUnitGrids of.now.plan.now.cells of.now.plan.now.units units.now }
    ensures sources { IfOk result (λ made. IfSome made (AreSourcesOf of.now)) }
    ensures sure { IfOk result (λ made. IsTrue all → IsSome made) }
{
    let asked = beside(of.alloc, of.plan.units.as_slice(), of.budgets, all)?;
    let sums = total_and_others(of.alloc, work, units, asked.as_slice(), of.plan.cells)?;
    sources_of(of, work, sums)
}

/// What is drawn of a valid plan whose one unit no ask names: the grid of the unit is that of the
/// total, and is moved and not copied.
fn drawn_of_one<const B: u32>(
    of: &Budgeted,
    work: &mut Workspace,
    made: Outcomes<B>,
) -> Result<Drawn<B>, AllocError>
    requires of { IsBudgeted B of.now }
    requires one { length of.now.plan.now.units ≡ 1 }
    requires unnamed { get_or of.now.budgets.now.of_units.items 0 None ≡ None }
    requires made { AreOutcomesOf of.now.plan.now.cells of.now.plan.now.units
        of.now.plan.now.units made }
    ensures { IfOk result (IsDrawnOf of.now) }
{
    let mut grids = made.grids;
    let sums = sums_of_one(of.alloc, grids.pop().unwrap())?;
    let Some(sources) = sources_of(of, work, sums)? else {
        unreachable!();
    };
    Ok(drawn_with(of, grids, made.means, sources))
}

/// What is drawn of a valid plan of independent units, whose grids and means are there: with the
/// sum of the others for those named units that need it, else for all named units.
pub(crate) fn drawn_of_units<const B: u32>(
    of: &Budgeted,
    work: &mut Workspace,
    made: Outcomes<B>,
) -> Result<Drawn<B>, AllocError>
    requires of { IsBudgeted B of.now }
    requires made { AreOutcomesOf of.now.plan.now.cells of.now.plan.now.units
        of.now.plan.now.units made }
    ensures { IfOk result (IsDrawnOf of.now) }
{
    let one = of.plan.units.as_slice().len() == 1;
    if one && of.budgets.at(0).is_none() {
        return drawn_of_one(of, work, made);
    }
    let units = made.grids.as_slice();
    if let Some(sources) = sources_beside(of, work, units, one)? {
        return Ok(drawn_with(of, made.grids, made.means, sources));
    }
    let Some(sources) = sources_beside(of, work, units, true)? else {
        unreachable!();
    };
    Ok(drawn_with(of, made.grids, made.means, sources))
}
