//! A fixed number of claims, by squaring.

ghost use Rattle.std.specs.Prelude.{◌≡◌, ℕ, ◌^◌, ◌≤◌, length, IfOk};
ghost use Rattle.dl_grid.specs.Prelude.{spread, power_spread};
ghost use Rattle.dl_model.specs.Family.{Family, IsProper, GridEncloses, times_itself};

use dl_grid::Grid;
use dl_product::{Workspace, product, square};
use std::alloc::{AllocError, Global};

/// The first `cells` cells of the `n`-th convolution power: the outcomes of `n` independent copies
/// of what the base holds, added up. An even power is the square of its half, and an odd one that
/// of the number before it and one copy more, so there are at most two products for each binary
/// digit of `n`. Besides the base at most two grids are held at a time.
pub fn power<const B: u32>(
    alloc: Global,
    work: &mut Workspace,
    base: &Grid<B>,
    n: u32,
    cells: u32,
) -> Result<Grid<B>, AllocError>
    requires some { 1 ≤ cells }
    requires within { cells ≤ length base.now }
    ensures cells { IfOk result (λ g. length g ≡ cells) }
    ensures encloses { IfOk result (λ g. (F : Family) → IsProper F → GridEncloses base.now F
        → GridEncloses g (times_itself F n)) }
    ensures spread { IfOk result (λ g. spread g ≤ power_spread (2 ^ B) cells (spread base.now) n) }
{
    prove!(cells <= base.cells());
    if n == 0 {
        return Grid::zero(alloc, cells);
    }
    if n == 1 {
        return Grid::truncate(alloc, base, cells);
    }
    let half = power(alloc, work, base, n / 2, cells)?;
    let even = square(alloc, work, &half, cells)?;
    drop(half);
    if n % 2 == 0 {
        return Ok(even);
    }
    product(alloc, work, &even, base, cells)
}
