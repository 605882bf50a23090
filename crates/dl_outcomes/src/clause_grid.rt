//! The grid of what a clause keeps.

ghost use Rattle.std.specs.Prelude.{◌≡◌, ◌≢◌, ℕ, ◌+◌, ◌-◌, ◌*◌, ◌^◌, ◌<◌, ◌≤◌, ◌==◌, if◌then◌else◌, min, length, IfOk, IsSome, MatchOption};
ghost use Rattle.dl_outcomes.specs.TakenIn.{width_at, where_whole, sum_elsewhere, IsTakenIn, IsLeft};
ghost use Rattle.dl_grid.specs.Prelude.{low_at, high_at, mass_low, spread, IsGridSize};
ghost use Rattle.dl_exact.specs.Prelude.{whole, count_below};
ghost use Rattle.dl_model.specs.Prelude.{aggregate_of, compound_of, GridEncloses, mapped};
ghost use Rattle.dl_plan.specs.Prelude.{IsHorizonOf, kept, IsClause, IsValidUnit};

use dl_grid::{Grid, empty_grid, units_of_one};
use dl_iv::Iv;
use dl_plan::{Cede, Unit};
use std::alloc::{AllocError, Global};

/// Adds `more` to the cell of `y` buckets, and lowers its high end to 1 where it is above. Nothing
/// is added where `y` lies past the grid.
fn add_at<const B: u32>(grid: &mut Grid<B>, y: u64, more: Iv<B>)
    requires small { more.hi ≤ 2 ^ B }
    requires mass { mass_low grid.old + more.lo ≤ 2 ^ B }
    ensures cells { length grid.new ≡ length grid.old }
    ensures low { (x : ℕ) → x < length grid.old
        → low_at grid.new x ≡ low_at grid.old x + (if y == x then more.entry.lo else 0) }
    ensures high { (x : ℕ) → x < length grid.old
        → high_at grid.new x
        ≡ min (2 ^ B) (high_at grid.old x + (if y == x then more.entry.hi else 0)) }
    ensures mass { mass_low grid.new ≤ mass_low grid.old + more.entry.lo }
    ensures spread { spread grid.new ≤ spread grid.old + (more.entry.hi - more.entry.lo) }
{
    if y < u64::from(grid.cells()) {
        let x = y as u32;
        let sum = grid.at(x).add(more);
        grid.set(x, sum.clamp_to(units_of_one(B)));
    }
}

/// Each cell of `sums` is taken in by the cell of what the clause keeps of its number of buckets.
/// What lies past the first `cells` cells is left out.
fn taken_in<const B: u32>(
    alloc: Global,
    cede: &Cede,
    sums: &Grid<B>,
    cells: u32,
) -> Result<Grid<B>, AllocError>
    requires size { IsGridSize B cells }
    requires clause { IsClause cede.now }
    ensures cells { IfOk result (λ g. length g ≡ cells) }
    ensures ends { IfOk result (λ g. (y : ℕ) → y < cells → IsTakenIn cede.now sums.now g y) }
    ensures mass { IfOk result (λ g. mass_low g
        ≤ count_below (length sums.now) (where_whole cede.now (low_at sums.now))) }
    ensures spread { IfOk result (λ g. spread g
        ≤ count_below (length sums.now) (where_whole cede.now (width_at sums.now))) }
{
    let mut grid = empty_grid(alloc, cells)?;
    for s in 0..sums.cells() {
        if let Some(y) = cede.at(u64::from(s)) {
            add_at(&mut grid, y, sums.at(s));
        }
    }
    Ok(grid)
}

/// The sum of the cells of which the clause does not keep `y`.
fn elsewhere<const B: u32>(cede: &Cede, sums: &Grid<B>, y: u32) -> Iv<B>
    requires scale_above { 1 ≤ B }
    requires scale_below { B ≤ 56 }
    requires clause { IsClause cede.now }
    ensures low { result.lo ≡ sum_elsewhere cede.now (length sums.now) (low_at sums.now) y }
    ensures high { result.hi ≡ sum_elsewhere cede.now (length sums.now) (high_at sums.now) y }
    ensures within { result.lo ≤ 2 ^ B }
{
    let mut total = Iv::point(0);
    for s in 0..sums.cells() {
        if let Some(x) = cede.at(u64::from(s)) {
            if x != u64::from(y) {
                total = total.add(sums.at(s));
            }
        }
    }
    total
}

/// The outcome of the first sum past a grid, where it is a whole number below `cells`.
fn kept_past(cede: &Cede, sums: u32, cells: u32) -> Option<u32>
    requires clause { IsClause cede.now }
    ensures { MatchOption result ((y : ℕ) → y < cells → kept cede.now sums ≢ whole y)
        (λ y. (y < cells) × (kept cede.now sums ≡ whole y)) }
{
    match cede.at(u64::from(sums)) {
        Some(y) if y < u64::from(cells) => Some(y as u32),
        _ => None,
    }
}

/// The first `cells` cells of what the clause keeps of a sum. Each takes in the cells of all sums
/// that the clause maps to it; where the first sum past the grid is one of them, it is what the
/// cells of all other sums leave of 1.
pub fn kept_cells<const B: u32>(
    alloc: Global,
    cede: &Cede,
    sums: &Grid<B>,
    cells: u32,
) -> Result<Grid<B>, AllocError>
    requires size { IsGridSize B cells }
    requires clause { IsClause cede.now }
    ensures cells { IfOk result (λ g. length g ≡ cells) }
    ensures inside { IfOk result (λ g. (y : ℕ) → y < cells
        → kept cede.now (length sums.now) ≢ whole y
        → IsTakenIn cede.now sums.now g y) }
    ensures past { IfOk result (λ g. (y : ℕ) → y < cells → kept cede.now (length sums.now) ≡ whole y
        → IsLeft cede.now sums.now g y) }
    ensures spread { IfOk result (λ g. spread g ≤ 2 * spread sums.now) }
{
    let mut grid = taken_in(alloc, cede, sums, cells)?;
    if let Some(y) = kept_past(cede, sums.cells(), cells) {
        grid.set(y, elsewhere(cede, sums, y).complement());
    }
    Ok(grid)
}

/// The first `cells` cells of what the aggregate clause of a unit keeps, from a grid of the unit's
/// sum of claims on as many cells as its horizon says. The unit is of a valid plan.
///
/// Each cell takes in the cells of the sums that the clause maps to it. Past the horizon the clause
/// has reached the cells, or is constant: then one cell takes in all of the large sums, and it is
/// what the cells of all other sums leave of 1. The result is the one allocation, and `AllocError`
/// its refusal.
pub fn cede_grid<const B: u32>(
    alloc: Global,
    unit: &Unit,
    grid: &Grid<B>,
    cells: u32,
) -> Result<Grid<B>, AllocError>
    requires valid { (all : ℕ) × IsValidUnit all unit.now }
    requires clause { IsSome unit.now.cede }
    requires size { IsGridSize B cells }
    requires horizon { IsHorizonOf unit.now.cede cells (length grid.now) }
    requires encloses { GridEncloses grid.now (compound_of unit.now.freq unit.now.sev) }
    ensures cells { IfOk result (λ g. length g ≡ cells) }
    ensures encloses { IfOk result (λ g. GridEncloses g (mapped (aggregate_of unit.now))) }
    ensures spread { IfOk result (λ g. spread g ≤ 2 * spread grid.now) }
{
    let cede = unit.cede.as_ref().unwrap();
    kept_cells(alloc, cede, grid, cells)
}
