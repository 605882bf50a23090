//! The total of many independent units, by halves: of the grids of the units only some few are held
//! at once.

ghost use Rattle.std.specs.Prelude.{[], ◌≡◌, ◌+◌, ◌++◌, ◌≤◌, All, IfOk, IfSome, OnOk, drop, length, replicate, take};
ghost use Rattle.std.specs.Option.{option_to_list};
ghost use Rattle.dl_plan.specs.Prelude.{IsPlanAt, IsUnitOn};
ghost use Rattle.dl_sources.specs.Origins.{IsBudgeted, IsTotalIfNarrow};
ghost use Rattle.dl_sources.specs.Pooled.{IsPooledFor, unpooled};
ghost use Rattle.dl_sources.specs.Same.{AreAllAlike};
ghost use Rattle.dl_sources.specs.Units.{AddMeans, AreMeansOf, IsSumOfUnits};

use crate::budgeted::Budgeted;
use crate::same::are_all_alike;
use crate::together::pooled_if_any;
use crate::units::{mean_of, outcome_of, plain_grid};
use dl_grid::Grid;
use dl_iv::Iv;
use dl_plan::{Plan, Unit};
use dl_product::Workspace;
use dl_totals::{repeated, sum_of_both};
use std::alloc::{AllocError, Global};

/// Puts the mean of units that are alike behind the others, once for each of `many` units.
fn add_means<const B: u32>(
    means: &mut Vec<Iv<B>>,
    mean: Iv<B>,
    many: usize,
) -> Result<(), AllocError>
    ensures { OnOk result (means.new.items ≡ means.old.items ++ replicate many mean.entry) }
{
    'units: for _ in 0..many {
        means.push(mean)?;
    }
    Ok(())
}

/// The grid of the sum of units that are alike, which is made once; none where they are `pooled`.
/// The mean of each is put behind `means`.
fn sum_of_alike<const B: u32>(
    alloc: Global,
    work: &mut Workspace,
    units: &[Unit],
    pooled: bool,
    cells: u32,
    means: &mut Vec<Iv<B>>,
) -> Result<Option<Grid<B>>, AllocError>
    requires on { All (IsUnitOn B cells) units.now }
    requires some { 1 ≤ length units.now }
    requires alike { AreAllAlike units.now }
    ensures sum { IfOk result (IsSumOfUnits cells (unpooled pooled units.now)) }
    ensures means { OnOk result (AddMeans cells units.now means.old.items means.new.items) }
{
    let unit = &units[0];
    let many = units.len();
    let apart = pooled & unit.can_share();
    if apart {
        let mean = mean_of::<B>(alloc, work, unit, cells)?;
        add_means(means, mean, many)?;
        return Ok(None);
    }
    let one = outcome_of(alloc, work, unit, cells)?;
    add_means(means, one.mean, many)?;
    let sum = repeated(alloc, work, &one.grid, many, cells)?;
    Ok(Some(sum))
}

/// The grid of the sum of `many` units from place `from` on, or with `pooled` of those of them that
/// cannot be pooled, by halves; none where that is no unit. The mean of each of them is put behind
/// `means`.
fn sum_of_units<const B: u32>(
    alloc: Global,
    work: &mut Workspace,
    units: &[Unit],
    from: usize,
    many: usize,
    pooled: bool,
    cells: u32,
    means: &mut Vec<Iv<B>>,
) -> Result<Option<Grid<B>>, AllocError>
    requires on { All (IsUnitOn B cells) units.now }
    requires some { 1 ≤ many }
    requires within { from + many ≤ length units.now }
    ensures sum { IfOk result
        (IsSumOfUnits cells (unpooled pooled (take many (drop from units.now)))) }
    ensures means { OnOk result
        (AddMeans cells (take many (drop from units.now)) means.old.items means.new.items) }
{
    let part = &units[from..from + many];
    if are_all_alike(part) {
        return sum_of_alike(alloc, work, part, pooled, cells, means);
    }
    let half = many / 2;
    let first = sum_of_units(alloc, work, units, from, half, pooled, cells, means)?;
    let rest = many - half;
    let second = sum_of_units(alloc, work, units, from + half, rest, pooled, cells, means)?;
    sum_of_both(alloc, work, first, second, cells)
}

/// The grid of the one unit in the place of all that can be pooled, where there is one.
fn pooled_grid<const B: u32>(
    alloc: Global,
    work: &mut Workspace,
    plan: &Plan,
    pooled: &Option<Unit>,
) -> Result<Option<Grid<B>>, AllocError>
    requires at { IsPlanAt B plan.now }
    requires pooled { IfSome pooled.now (IsPooledFor plan.now) }
    ensures { IfOk result (IsSumOfUnits plan.now.cells (option_to_list pooled.now)) }
{
    match pooled {
        Some(unit) => {
            let grid = plain_grid::<B>(alloc, work, unit, plan.cells)?;
            Ok(Some(grid))
        }
        None => Ok(None),
    }
}

/// The grid of the total of a plan of independent units, with one unit in the place of all that can
/// be pooled, where there is such a unit. It may be wider than the budget of the total. The means
/// of all units are put into `means`.
pub(crate) fn total_by_halves<const B: u32>(
    of: &Budgeted,
    work: &mut Workspace,
    means: &mut Vec<Iv<B>>,
) -> Result<Grid<B>, AllocError>
    requires of { IsBudgeted B of.now }
    requires none { means.old.items ≡ [] }
    ensures total { IfOk result (IsTotalIfNarrow of.now.plan.now) }
    ensures means { OnOk result
        (AreMeansOf of.now.plan.now.cells of.now.plan.now.units means.new.items) }
{
    let plan = of.plan;
    let pooled = pooled_if_any(of.alloc, plan)?;
    let units = plan.units.as_slice();
    let apart = pooled.is_some();
    let many = units.len();
    let rest = sum_of_units(of.alloc, work, units, 0, many, apart, plan.cells, means)?;
    let one = pooled_grid(of.alloc, work, plan, &pooled)?;
    let sum = sum_of_both(of.alloc, work, rest, one, plan.cells)?;
    match sum {
        Some(total) => Ok(total),
        None => unreachable!(),
    }
}
