//! The grid of a unit with a changed probability of no claim.

ghost use Rattle.std.specs.Prelude.{◌≡◌, ℕ, ◌+◌, ◌-◌, ◌*◌, ◌^◌, ◌<◌, ◌≤◌, length, IfOk};
ghost use Rattle.dl_limits.specs.Limits.{zero_bound};
ghost use Rattle.dl_exact.specs.Fraction.{whole, ◌<ℚ◌};
ghost use Rattle.dl_grid.specs.Cells.{spread};
ghost use Rattle.dl_model.specs.Prelude.{GridEncloses, Aggregate, changed};
ghost use Rattle.dl_outcomes.specs.Before.{IsBefore};
ghost use Rattle.dl_outcomes.specs.Ends.{HasRoomForNone, AreChangedEnds, changed_spread};

use crate::change::Change;
use dl_frac::Frac;
use dl_grid::Grid;
use dl_iv::Iv;
use std::alloc::{AllocError, Global};

/// The cells of a grid with the probability `p` of no claim in place of `none`, of at most 17 / 18.
/// The low ends are to leave room for `none`. `p` is below 1, with parts below `2^37`. The result
/// is the one allocation, and `AllocError` its refusal.
pub fn changed_cells<const B: u32>(
    alloc: Global,
    grid: &Grid<B>,
    none: Iv<B>,
    p: Frac,
) -> Result<Grid<B>, AllocError>
    requires below_one { p <ℚ whole 1 }
    requires parts { p.den < zero_bound }
    requires some_claim { 18 * none.hi ≤ 17 * 2 ^ B }
    requires room { HasRoomForNone grid.now none }
    ensures cells { IfOk result (λ g. length g ≡ length grid.now) }
    ensures ends { IfOk result (λ g. AreChangedEnds p grid.now none.entry g) }
    ensures spread { IfOk result (λ g. spread g
        ≤ changed_spread (spread grid.now) (none.entry.hi - none.entry.lo) (length grid.now)) }
{
    let change = Change::new(none, p);
    let cells = grid.cells();
    let mut lows = Vec::with_capacity(alloc, cells as usize)?;
    let mut highs = Vec::with_capacity(alloc, cells as usize)?;
    for y in 0..cells {
        let cell = change.cell(grid.at(y), y);
        lows.push(cell.lo)?;
        highs.push(cell.hi)?;
    }
    Ok(Grid::from_ends(lows, highs))
}

/// The grid of a unit with the probability `p` of no claim in place of its own, in units of
/// `1 / 2^B`, on as many cells as `grid`. `grid` encloses the outcomes of the unit before the
/// change, after its aggregate clause, and `none` holds its probability of no claim, of at most
/// 17 / 18. `p` is below 1, with parts below `2^37`. The result is the one allocation, and
/// `AllocError` its refusal.
pub fn zero_grid<const B: u32>(
    alloc: Global,
    grid: &Grid<B>,
    none: Iv<B>,
    p: Frac,
) -> Result<Grid<B>, AllocError>
    requires below_one { p <ℚ whole 1 }
    requires parts { p.den < zero_bound }
    requires some_claim { 18 * none.hi ≤ 17 * 2 ^ B }
    requires before { (u : Aggregate) × IsBefore u grid.now none }
    ensures cells { IfOk result (λ g. length g ≡ length grid.now) }
    ensures encloses { IfOk result (λ g. (u : Aggregate) → IsBefore u grid.now none.entry
        → GridEncloses g (changed p u).family) }
    ensures spread { IfOk result (λ g. spread g
        ≤ changed_spread (spread grid.now) (none.entry.hi - none.entry.lo) (length grid.now)) }
{
    prove!(grid.cells() > 0);
    changed_cells(alloc, grid, none, p)
}
