//! Convolutions of grids by halves.

ghost use Rattle.std.specs.Prelude.{◌≡◌, ℕ, ◌*◌, ◌^◌, ◌<◌, ◌≤◌, length, get_or, IfOk};
ghost use Rattle.dl_grid.specs.Prelude.{spread, IsConvolution, convolution_spread};
ghost use Rattle.dl_convolution.specs.Sums.{pair_sum, ItemsFit};
ghost use Rattle.dl_halves.specs.Halves.{halved_from};

use crate::short::{halved_sums, work_for};
use dl_convolution::{grid_of_sums, room_for_sums};
use dl_grid::Grid;
use std::alloc::{AllocError, Global};

/// `sums` with the sums of the products of items whose places add up to each of its places, by halves
/// where there are many sums.
fn with_halved_sums(a: &[u128], b: &[u128], mut sums: Vec<u128>, work: &mut [u128]) -> Vec<u128>
    requires fits { ItemsFit a.now b.now (length sums.items) }
    requires in_first { length sums.items ≤ length a.now }
    requires in_second { length sums.items ≤ length b.now }
    requires work { halved_from ≤ length sums.items → 6 * length sums.items ≤ length work.old }
    ensures cells { length result.items ≡ length sums.items }
    ensures each { (s : ℕ) → s < length sums.items
        → get_or result.items s 0 ≡ pair_sum a.now b.now s }
{
    halved_sums(a, b, sums.as_mut_slice(), work);
    sums
}

/// The first `cells` cells of the convolution of `a` and `b`. The spread is at most what the width
/// rule says. Where there are many cells, the products of their ends are by halves, in work
/// memory that is taken at the start.
pub fn convolve<const B: u32>(
    alloc: Global,
    a: &Grid<B>,
    b: &Grid<B>,
    cells: u32,
) -> Result<Grid<B>, AllocError>
    requires some { 1 ≤ cells }
    requires in_first { cells ≤ length a.now }
    requires in_second { cells ≤ length b.now }
    ensures cells { IfOk result (λ g. length g ≡ cells) }
    ensures convolution { IfOk result (λ g. IsConvolution cells a.now b.now g) }
    ensures spread { IfOk result (λ g. spread g ≤ convolution_spread (2 ^ B) cells (spread a.now) (spread b.now)) }
{
    let mut work = Vec::from_elem(alloc, 0, work_for(cells))?;
    let (lows, highs) = room_for_sums(alloc, cells)?;
    let lows = with_halved_sums(a.lows(), b.lows(), lows, work.as_mut_slice());
    let highs = with_halved_sums(a.highs(), b.highs(), highs, work.as_mut_slice());
    Ok(grid_of_sums(a, b, lows, highs))
}
