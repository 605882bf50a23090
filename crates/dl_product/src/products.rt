//! Products and squares of grids.

ghost use Rattle.std.specs.Prelude.{◌≡◌, ◌^◌, ◌≤◌, length, IfOk};
ghost use Rattle.dl_grid.specs.Prelude.{spread, IsConvolution, convolution_spread};

use crate::behind::grid_of_heads;
use crate::heads::head_of;
use crate::lists::Lists;
use crate::steps::common_step;
use crate::sums::Room;
use crate::windows::window_of;
use dl_grid::Grid;
use std::alloc::{AllocError, Global};

/// Room and tables for products. A new one takes no memory: what a product needs is taken at the
/// first product that needs it, and kept for those after it.
#[derive(Drop)]
pub struct Workspace {
    first: Lists,
    second: Lists,
    room: Room,
}

impl Workspace {
    /// A workspace with no room and no tables yet. It takes no memory.
    pub fn new(alloc: Global) -> Self {
        Workspace {
            first: Lists::new(alloc),
            second: Lists::new(alloc),
            room: Room::new(alloc),
        }
    }
}

/// The first `cells` cells of the convolution of `a` and `b`: the grid of the sum of two
/// independent amounts. Each cell is rounded once, its low end down and its high end up, and what
/// lies past the grid is left out. The spread is at most what the width rule says.
pub fn product<const B: u32>(
    alloc: Global,
    work: &mut Workspace,
    a: &Grid<B>,
    b: &Grid<B>,
    cells: u32,
) -> Result<Grid<B>, AllocError>
    requires in_first { cells ≤ length a.now }
    requires some { 1 ≤ cells }
    requires in_second { cells ≤ length b.now }
    ensures spread { IfOk result (λ g.
        spread g ≤ convolution_spread (2 ^ B) cells (spread a.now) (spread b.now)) }
    ensures convolution { IfOk result (λ g. IsConvolution cells a.now b.now g) }
    ensures cells { IfOk result (λ g. length g ≡ cells) }
{
    let first = head_of(a, cells);
    let second = head_of(b, cells);
    let window = window_of(first.highs);
    let other_window = window_of(second.highs);
    let step = common_step(window.part(first.highs), other_window.part(second.highs));
    let one = work.first.read(first, window, step)?;
    let other = work.second.read(second, other_window, step)?;
    let (lows, highs) = work.room.sums(alloc, one, Some(other), cells)?;
    Ok(grid_of_heads(a, b, first, second, lows, highs))
}

/// The first `cells` cells of the convolution of `a` with itself.
pub fn square<const B: u32>(
    alloc: Global,
    work: &mut Workspace,
    a: &Grid<B>,
    cells: u32,
) -> Result<Grid<B>, AllocError>
    requires some { 1 ≤ cells }
    requires in_first { cells ≤ length a.now }
    ensures cells { IfOk result (λ g. length g ≡ cells) }
    ensures convolution { IfOk result (λ g. IsConvolution cells a.now a.now g) }
    ensures spread { IfOk result (λ g.
        spread g ≤ convolution_spread (2 ^ B) cells (spread a.now) (spread a.now)) }
{
    let head = head_of(a, cells);
    let window = window_of(head.highs);
    let step = common_step(window.part(head.highs), window.part(head.highs));
    let one = work.first.read(head, window, step)?;
    let (lows, highs) = work.room.sums(alloc, one, None, cells)?;
    Ok(grid_of_heads(a, a, head, head, lows, highs))
}
