//! Grids that end before the cells they speak of: past its last cell a grid has the ends 0, so a
//! sum of a few short claims takes a short list.

ghost use Rattle.std.specs.Prelude.{◌≡◌, ℕ, suc, ◌+◌, ◌*◌, ◌/◌, ◌<◌, ◌≤◌, length, get_or, All, IfOk};
ghost use Rattle.dl_limits.specs.Limits.{most_cell_end};
ghost use Rattle.dl_exact.specs.Fraction.{Fraction};
ghost use Rattle.dl_grid.specs.Prelude.{low_at, high_at, IsConvolution, IsGridSize};
ghost use Rattle.dl_model.specs.Compound.{power};
ghost use Rattle.dl_claims.specs.Powers.{Between};

use dl_grid::Grid;
use dl_product::{Workspace, product, square};
use std::alloc::{AllocError, Global};

/// The end of cell `x`, 0 past the last cell.
pub(crate) fn end_at(ends: &[u128], x: usize) -> u128
    ensures end { result ≡ get_or ends.now x 0 }
    ensures small { All (λ end. end ≤ most_cell_end) ends.now → result ≤ most_cell_end }
{
    if x < ends.len() {
        return ends[x];
    }
    0
}

/// A list of ends with zeros after it, `many` items in all.
fn padded(alloc: Global, ends: &[u128], many: usize) -> Result<Vec<u128>, AllocError>
    requires { length ends.now ≤ many }
    ensures many { IfOk result (λ list. length list.items ≡ many) }
    ensures each { IfOk result (λ list. (x : ℕ) → get_or list.items x 0 ≡ get_or ends.now x 0) }
{
    let mut list = Vec::with_capacity(alloc, many)?;
    for x in 0..many {
        list.push(end_at(ends, x))?;
    }
    Ok(list)
}

/// The grid on `cells` cells, which are 0 past its own.
pub(crate) fn extended<const B: u32>(
    alloc: Global,
    grid: &Grid<B>,
    cells: u32,
) -> Result<Grid<B>, AllocError>
    requires size { IsGridSize B cells }
    requires within { length grid.now ≤ cells }
    ensures cells { IfOk result (λ g. length g ≡ cells) }
    ensures low { IfOk result (λ g. (x : ℕ) → low_at g x ≡ low_at grid.now x) }
    ensures high { IfOk result (λ g. (x : ℕ) → high_at g x ≡ high_at grid.now x) }
{
    let lows = padded(alloc, grid.lows(), cells as usize)?;
    let highs = padded(alloc, grid.highs(), cells as usize)?;
    Ok(Grid::from_ends(lows, highs))
}

/// The number of the first ends after which all up to `most` are 0, at least 1.
fn filled(ends: &[u128], most: u32) -> u32
    requires some { 1 ≤ most }
    requires within { most ≤ length ends.now }
    ensures some { 1 ≤ result }
    ensures within { result ≤ most }
    ensures zeros { (x : ℕ) → result ≤ x → x < most → get_or ends.now x 0 ≡ 0 }
{
    for past in 0..most - 1 {
        let last = most - 1 - past;
        if ends[last as usize] != 0 {
            return last + 1;
        }
    }
    1
}

/// The first `cells` cells of a grid, without the zeros that they end with.
pub(crate) fn trimmed<const B: u32>(
    alloc: Global,
    base: &Grid<B>,
    cells: u32,
) -> Result<Grid<B>, AllocError>
    requires some { 1 ≤ cells }
    requires within { cells ≤ length base.now }
    ensures few { IfOk result (λ g. length g ≤ cells) }
    ensures between { IfOk result (λ g. (f : ℕ → Fraction) → Between cells base.now f
        → Between cells g (power f 1)) }
{
    Grid::truncate(alloc, base, filled(base.highs(), cells))
}

/// The number of the first `cells` cells of the convolution of two grids that can be above 0: the
/// last of them is the sum of the last cells of both.
fn cells_of_product<const B: u32>(a: &Grid<B>, b: &Grid<B>, cells: u32) -> u32
    requires in_first { length a.now ≤ cells }
    requires in_second { length b.now ≤ cells }
    ensures within { result ≤ cells }
    ensures first { length a.now ≤ result }
    ensures second { length b.now ≤ result }
    ensures some { 1 ≤ result }
    ensures last { result < cells → length a.now + length b.now ≡ suc result }
{
    (a.cells() + b.cells() - 1).min(cells)
}

/// The first `cells` cells of the convolution of two short grids, as a short grid.
pub(crate) fn short_product<const B: u32>(
    alloc: Global,
    work: &mut Workspace,
    a: &Grid<B>,
    b: &Grid<B>,
    cells: u32,
) -> Result<Grid<B>, AllocError>
    requires size { IsGridSize B cells }
    requires in_first { length a.now ≤ cells }
    requires in_second { length b.now ≤ cells }
    ensures few { IfOk result (λ g. length g ≤ cells) }
    ensures convolution { IfOk result (λ g. IsConvolution cells a.now b.now g) }
{
    let long = cells_of_product(a, b, cells);
    let first = extended(alloc, a, long)?;
    let second = extended(alloc, b, long)?;
    product(alloc, work, &first, &second, long)
}

/// The first `cells` cells of the convolution of a short grid with itself, as a short grid.
pub(crate) fn short_square<const B: u32>(
    alloc: Global,
    work: &mut Workspace,
    a: &Grid<B>,
    cells: u32,
) -> Result<Grid<B>, AllocError>
    requires size { IsGridSize B cells }
    requires within { length a.now ≤ cells }
    ensures few { IfOk result (λ g. length g ≤ cells) }
    ensures convolution { IfOk result (λ g. IsConvolution cells a.now a.now g) }
{
    let long = cells_of_product(a, a, cells);
    let first = extended(alloc, a, long)?;
    square(alloc, work, &first, long)
}
