//! Cells as a grid.

ghost use Rattle.std.specs.Prelude.{◌≡◌, IfOk};
ghost use Rattle.dl_grid.specs.Cells.{IsGrid};

use dl_grid::Grid;
use dl_iv::Iv;
use std::alloc::{AllocError, Global};

/// The grid of these cells.
pub fn grid_of<const B: u32>(alloc: Global, cells: &[Iv<B>]) -> Result<Grid<B>, AllocError>
    requires { IsGrid cells.now }
    ensures { IfOk result (λ g. g ≡ cells.now) }
{
    let mut lows = Vec::with_capacity(alloc, cells.len())?;
    let mut highs = Vec::with_capacity(alloc, cells.len())?;
    for cell in cells {
        lows.push(cell.lo)?;
        highs.push(cell.hi)?;
    }
    Ok(Grid::from_ends(lows, highs))
}
