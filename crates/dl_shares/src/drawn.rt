//! The grids and means that the rows of a plan are drawn from.

ghost use Rattle.std.specs.Prelude.{ℕ, ◌≡◌, ◌≤◌, IfOk, length};
ghost use Rattle.dl_plan.specs.At.{IsUnitAt};
ghost use Rattle.dl_shares.specs.Drawn.{AreBeside, AreDrawnOf, AreSumsOf, IsClaimsGrid, IsSourceOf, Reaches};
ghost use Rattle.dl_shares.specs.Source.{reach};
ghost use Rattle.dl_shares.specs.declared.source.ShareSource.TheVariants as sources;

use crate::laws::law_beside;
use crate::source::{Beside, OverClaims, ShareSource};
use dl_budget::{others_budget, unit_budget};
use dl_grid::Grid;
use dl_iv::Iv;
use dl_limits::BUDGET_BOUND;
use dl_measures::Distribution;
use dl_plan::Plan;
use std::alloc::{AllocError, Global};

/// What the joint means of a unit come from.
#[derive(Drop)]
pub enum Origin<const B: u32> {
    /// Nothing: no ask names the unit.
    Nowhere,
    /// The grid of the unit, and this one of the sum of all other units.
    Beside(Grid<B>),
    /// The claims of the unit over the grid with this number.
    Claims(u32),
}

/// The grids and means that the rows of a plan are drawn from.
#[derive(Drop)]
pub struct Drawn<const B: u32> {
    /// That of the total, and behind it those that the claims of named units go over: of the total
    /// with the extra claims of a gamma unit, or under a common factor of the raised unit.
    pub grids: Vec<Grid<B>>,
    /// That of each unit, in order, where the joint means of one come from it and from the others.
    pub units: Vec<Grid<B>>,
    /// The mean of each unit, in order, in buckets.
    pub means: Vec<Iv<B>>,
    /// The mean of the total, in buckets.
    pub mean: Iv<B>,
    /// For each unit, in order, what its joint means come from.
    pub origins: Vec<Origin<B>>,
}

/// For each grid that is drawn, in order, its running sums, marked once for all rows.
pub fn sums_of<'a, const B: u32>(
    alloc: Global,
    drawn: &'a Drawn<B>,
) -> Result<Vec<Distribution<'a, B>>, AllocError>
    ensures { IfOk result (λ sums. AreSumsOf drawn.now sums.items) }
{
    let mut sums = Vec::new(alloc);
    for grid in &drawn.grids {
        sums.push(Distribution::of(alloc, grid)?)?;
    }
    Ok(sums)
}

/// The grid of unit `i` of independent units, and that of the sum of all others.
#[tactic(auto, using(crate::proofs::Origins::plan_scale))]
fn beside<'a, const B: u32>(
    plan: &Plan,
    drawn: &'a Drawn<B>,
    others: &'a Grid<B>,
    i: u32,
) -> Beside<'a, B>
    requires unit { IsUnitAt B plan.now i }
    requires grids { AreBeside plan.now drawn.now i others.now }
    ensures source { IsSourceOf plan.now i (sources.Beside result) }
    ensures cells { length result.unit.now ≡ plan.now.cells }
{
    // no grid is so wide that its ends are a whole apart
    prove!(unit_budget::<B>(&plan.units.as_slice()[i as usize], plan.cells) < BUDGET_BOUND);
    prove!(others_budget::<B>(plan, i) < BUDGET_BOUND);
    let unit = &drawn.units.as_slice()[i as usize];
    let from = Beside { unit, others };
    law_beside(&from);
    from
}

/// The claims of unit `i` over a grid.
#[tactic(auto, using(crate::proofs::Origins::plan_scale))]
fn over<'a, const B: u32>(
    plan: &'a Plan,
    grid: &'a Distribution<'a, B>,
    i: u32,
) -> ShareSource<'a, B>
    requires unit { IsUnitAt B plan.now i }
    requires grid { IsClaimsGrid plan.now i grid.now }
    ensures source { IsSourceOf plan.now i result }
    ensures reach { reach result ≡ length grid.now }
{
    ShareSource::OverClaims(OverClaims::of(&plan.units.as_slice()[i as usize], grid))
}

/// What the joint means of unit `i`, counted from 0, are drawn from: those at as many totals as what
/// is drawn for it gives. `sums` are the running sums of the grids.
pub fn source_of<'a, const B: u32>(
    plan: &'a Plan,
    drawn: &'a Drawn<B>,
    sums: &'a [Distribution<'a, B>],
    i: u32,
) -> ShareSource<'a, B>
    requires unit { IsUnitAt B plan.now i }
    requires drawn { AreDrawnOf plan.now drawn.now }
    requires sums { AreSumsOf drawn.now sums.now }
    requires there { Reaches drawn.now i 1 }
    ensures source { IsSourceOf plan.now i result }
    ensures reach { (n : ℕ) → Reaches drawn.now i n → n ≤ reach result }
    ensures within { reach result ≤ plan.now.cells }
{
    match &drawn.origins.as_slice()[i as usize] {
        Origin::Nowhere => unreachable!(),
        Origin::Beside(others) => ShareSource::Beside(beside(plan, drawn, others, i)),
        Origin::Claims(k) => over(plan, &sums[*k as usize], i),
    }
}
