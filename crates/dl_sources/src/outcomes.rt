//! The grids and means of the units of a plan. Units that are alike are worked out once.

ghost use Rattle.std.specs.Prelude.{ℕ, List, [], ◌∷◌, ◌++◌, ◌≡◌, None, IfOk, OnOk, IsTrue, length};
ghost use Rattle.dl_plan.specs.Prelude.{CanShare, IsPlanAt, IsUnitOn};
ghost use Rattle.dl_shares.specs.Drawn.{IsUnitGrid, AreUnitGrids};
ghost use Rattle.dl_sources.specs.Pooled.{rest_of};
ghost use Rattle.dl_sources.specs.Units.{AreMeansOf, AreOutcomesOf, IsOutcomeOf};

use crate::same::first_alike;
use crate::units::{Outcome, mean_of, outcome_of, plain_grid};
use dl_grid::Grid;
use dl_iv::Iv;
use dl_plan::{Plan, Unit};
use dl_product::Workspace;
use std::alloc::{AllocError, Global};

/// Grids and means of units, in order.
#[derive(Drop)]
pub(crate) struct Outcomes<const B: u32> {
    /// The grids of the outcomes: of all units, or of those that cannot be pooled.
    pub(crate) grids: Vec<Grid<B>>,
    /// The means of the outcomes of all units, in buckets.
    pub(crate) means: Vec<Iv<B>>,
}

impl<const B: u32> Outcomes<B> {
    /// Those of no unit.
    fn new(alloc: Global) -> Self
        ensures grids { result.grids.items ≡ [] }
        ensures means { result.means.items ≡ [] }
    {
        Outcomes {
            grids: Vec::new(alloc),
            means: Vec::new(alloc),
        }
    }

    /// Adds the grid and the mean of one unit more.
    fn push(&mut self, one: Outcome<B>) -> Result<(), AllocError>
        ensures grids { OnOk result
            (self.new.grids.items ≡ self.old.grids.items ++ one.entry.grid ∷ []) }
        ensures means { OnOk result
            (self.new.means.items ≡ self.old.means.items ++ one.entry.mean ∷ []) }
    {
        self.grids.push(one.grid)?;
        self.means.push(one.mean)?;
        Ok(())
    }
}

/// The grid and the mean of a unit, where those of the units before it are there: a copy of those
/// of the first that is like it, where there is one.
fn outcome_after<const B: u32>(
    alloc: Global,
    work: &mut Workspace,
    unit: &Unit,
    cells: u32,
    before: &[Unit],
    made: &Outcomes<B>,
) -> Result<Outcome<B>, AllocError>
    requires on { IsUnitOn B cells unit.now }
    requires made { AreOutcomesOf cells before.now before.now made.now }
    ensures { IfOk result (IsOutcomeOf cells unit.now) }
{
    let Some(j) = first_alike(before, unit) else {
        return outcome_of(alloc, work, unit, cells);
    };
    let grid = Grid::truncate(alloc, &made.grids.as_slice()[j], cells)?;
    let mean = made.means.as_slice()[j];
    Ok(Outcome { grid, mean })
}

/// The grids of the outcomes of a valid plan's units, and their means.
pub(crate) fn unit_outcomes<const B: u32>(
    alloc: Global,
    work: &mut Workspace,
    plan: &Plan,
) -> Result<Outcomes<B>, AllocError>
    requires at { IsPlanAt B plan.now }
    ensures { IfOk result (AreOutcomesOf plan.now.cells plan.now.units plan.now.units) }
{
    let units = plan.units.as_slice();
    let mut made = Outcomes::new(alloc);
    for i in 0..units.len() {
        let unit = &units[i];
        let one = outcome_after(alloc, work, unit, plan.cells, &units[..i], &made)?;
        made.push(one)?;
    }
    Ok(made)
}

/// The means of the outcomes of a valid plan's units, where no more is asked for.
pub(crate) fn unit_means<const B: u32>(
    alloc: Global,
    work: &mut Workspace,
    plan: &Plan,
) -> Result<Vec<Iv<B>>, AllocError>
    requires at { IsPlanAt B plan.now }
    ensures { IfOk result (λ means. AreMeansOf plan.now.cells plan.now.units means.items) }
{
    let units = plan.units.as_slice();
    let mut means = Vec::new(alloc);
    for i in 0..units.len() {
        let unit = &units[i];
        let mean = mean_of::<B>(alloc, work, unit, plan.cells)?;
        means.push(mean)?;
    }
    Ok(means)
}

/// The grids of the units that cannot be pooled, in order, and the means of all.
pub(crate) fn outcomes_of_rest<const B: u32>(
    alloc: Global,
    work: &mut Workspace,
    plan: &Plan,
) -> Result<Outcomes<B>, AllocError>
    requires at { IsPlanAt B plan.now }
    ensures { IfOk result (AreOutcomesOf plan.now.cells (rest_of plan.now.units) plan.now.units) }
{
    let units = plan.units.as_slice();
    let mut made = Outcomes::new(alloc);
    for i in 0..units.len() {
        let unit = &units[i];
        if unit.can_share() {
            let mean = mean_of::<B>(alloc, work, unit, plan.cells)?;
            made.means.push(mean)?;
            continue;
        }
        let one = outcome_of(alloc, work, unit, plan.cells)?;
        made.push(one)?;
    }
    Ok(made)
}

/// The grid of a unit that can be pooled, where those of the units before it are there: a copy of
/// that of the first that is like it, where there is one.
fn pooled_after<const B: u32>(
    alloc: Global,
    work: &mut Workspace,
    unit: &Unit,
    cells: u32,
    before: &[Unit],
    grids: &[Grid<B>],
) -> Result<Grid<B>, AllocError>
    requires on { IsUnitOn B cells unit.now }
    requires pooled { CanShare unit.now }
    requires grids { AreUnitGrids cells before.now grids.now }
    ensures { IfOk result (λ g. IsUnitGrid cells unit.now g) }
{
    match first_alike(before, unit) {
        Some(j) => Grid::truncate(alloc, &grids[j], cells),
        None => plain_grid(alloc, work, unit, cells),
    }
}

/// The grids of all units, in order, where those of the units that cannot be pooled are there.
pub(crate) fn with_pooled<const B: u32>(
    alloc: Global,
    work: &mut Workspace,
    plan: &Plan,
    rest: Vec<Grid<B>>,
) -> Result<Vec<Grid<B>>, AllocError>
    requires at { IsPlanAt B plan.now }
    requires rest { AreUnitGrids plan.now.cells (rest_of plan.now.units) rest.items }
    ensures { IfOk result (λ made. AreUnitGrids plan.now.cells plan.now.units made.items) }
{
    let units = plan.units.as_slice();
    let mut rest = rest;
    let mut made = Vec::new(alloc);
    for i in 0..units.len() {
        let unit = &units[i];
        if !unit.can_share() {
            let grid = rest.remove(0);
            made.push(grid)?;
            continue;
        }
        let before = &units[..i];
        let grid = pooled_after(alloc, work, unit, plan.cells, before, made.as_slice())?;
        made.push(grid)?;
    }
    Ok(made)
}
