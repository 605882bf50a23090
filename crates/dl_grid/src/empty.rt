//! The grid without any probability.

ghost use Rattle.std.specs.Prelude.{◌≡◌, ℕ, length, IfOk};
ghost use Rattle.dl_grid.specs.Cells.{low_at, high_at, mass_low, spread};
ghost use Rattle.dl_grid.specs.Room.{IsGridSize};

use crate::grid::Grid;
use dl_iv::Iv;
use std::alloc::{AllocError, Global};

/// The grid whose cells are all 0: no probability is in it yet. An error is a want of memory.
pub fn empty_grid<const B: u32>(alloc: Global, cells: u32) -> Result<Grid<B>, AllocError>
    requires { IsGridSize B cells }
    ensures cells { IfOk result (λ g. length g ≡ cells) }
    ensures low { IfOk result (λ g. (x : ℕ) → low_at g x ≡ 0) }
    ensures high { IfOk result (λ g. (x : ℕ) → high_at g x ≡ 0) }
    ensures mass { IfOk result (λ g. mass_low g ≡ 0) }
    ensures spread { IfOk result (λ g. spread g ≡ 0) }
{
    let mut grid = Grid::zero(alloc, cells)?;
    prove!(grid.cells() > 0);
    grid.set(0, Iv::point(0));
    Ok(grid)
}
