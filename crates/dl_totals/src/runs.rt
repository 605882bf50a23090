//! Sums of units that have one grid, by squaring.

ghost use Rattle.std.specs.Prelude.{◌≡◌, ℕ, ◌^◌, ◌<◌, ◌≤◌, List, [], length, get_or, replicate, IsTrue, IfOk};
ghost use Rattle.dl_model.specs.Prelude.{Loss, AreDeclarable, total, GridEncloses};
ghost use Rattle.dl_totals.specs.Sums.{EncloseEach};

use dl_grid::Grid;
use dl_product::{Workspace, product, square};
use std::alloc::{AllocError, Global};

/// Whether two grids have the same cells; false where that is not known.
fn are_same<const B: u32>(a: &Grid<B>, b: &Grid<B>) -> bool
    ensures { IsTrue result → a.now ≡ b.now }
{
    a.lows() == b.lows() && a.highs() == b.highs()
}

/// The number of units from the first on whose grids are equal, cell by cell.
pub(crate) fn alike<const B: u32>(units: &[Grid<B>]) -> usize
    requires { 1 ≤ length units.now }
    ensures some { 1 ≤ result }
    ensures few { result ≤ length units.now }
    ensures same { (i : ℕ) → i < result → get_or units.now i [] ≡ get_or units.now 0 [] }
{
    for i in 1..units.len() {
        if !are_same(&units[i], &units[0]) {
            return i;
        }
    }
    units.len()
}

/// The sum of `many` units that have this grid. That of an even number is the square of the sum of
/// half of them, and that of an odd number has one unit more.
pub fn repeated<const B: u32>(
    alloc: Global,
    work: &mut Workspace,
    unit: &Grid<B>,
    many: usize,
    cells: u32,
) -> Result<Grid<B>, AllocError>
    requires units { 1 ≤ many }
    requires some { 1 ≤ cells }
    requires in_unit { cells ≤ length unit.now }
    ensures cells { IfOk result (λ g. length g ≡ cells) }
    ensures encloses { IfOk result (λ g. (us : List Loss) → AreDeclarable us
        → EncloseEach (replicate many unit.now) us → GridEncloses g (total us)) }
{
    if many == 1 {
        return Grid::truncate(alloc, unit, cells);
    }
    let half = repeated(alloc, work, unit, many / 2, cells)?;
    let even = square(alloc, work, &half, cells)?;
    drop(half);
    if many % 2 == 0 {
        return Ok(even);
    }
    product(alloc, work, &even, unit, cells)
}
