//! Convolutions of grids, from exact sums of products.

ghost use Rattle.std.specs.Prelude.{◌≡◌, ℕ, ◌*◌, ◌/◌, ◌^◌, ◌<◌, ◌≤◌, min, length, replicate, get_or, All, IfOk};
ghost use Rattle.std.specs.Int.{div_ceil};
ghost use Rattle.dl_limits.specs.Limits.{most_high};
ghost use Rattle.dl_grid.specs.Prelude.{low_at, high_at, spread, IsConvolution, convolution_spread};
ghost use Rattle.dl_exact.specs.Count.{count_pairs};
ghost use Rattle.dl_convolution.specs.Sums.{pair_sum, ItemsFit};

use crate::plain::plain_sums;
use dl_grid::{Grid, units_of_one};
use std::alloc::{AllocError, Global};

/// Each item in units of `2^bits`, rounded down.
fn round_down(mut sums: Vec<u128>, bits: u32) -> Vec<u128>
    requires { bits ≤ 56 }
    ensures cells { length result.items ≡ length sums.items }
    ensures each { (s : ℕ) → s < length sums.items
        → get_or result.items s 0 ≡ get_or sums.items s 0 / 2 ^ bits }
{
    let items = sums.as_mut_slice();
    for s in 0..items.len() {
        items[s] >>= bits;
    }
    sums
}

/// Each item in units of `2^bits`, rounded up, and at most 1 by `one`, which is how many units make
/// 1.
fn round_up(mut sums: Vec<u128>, bits: u32) -> Vec<u128>
    requires scale { bits ≤ 56 }
    requires small { All (λ sum. sum ≤ most_high) sums.items }
    ensures cells { length result.items ≡ length sums.items }
    ensures each { (s : ℕ) → s < length sums.items
        → get_or result.items s 0 ≡ min (2 ^ bits) (div_ceil (get_or sums.items s 0) (2 ^ bits)) }
{
    let one = units_of_one(bits);
    let items = sums.as_mut_slice();
    for s in 0..items.len() {
        items[s] = one.min(items[s].div_ceil(one));
    }
    sums
}

/// The grid of the convolution of `a` and `b`, from the sums of the products of their low ends and
/// of their high ends, one for each of its cells. It takes no memory.
pub fn grid_of_sums<const B: u32>(
    a: &Grid<B>,
    b: &Grid<B>,
    lows: Vec<u128>,
    highs: Vec<u128>,
) -> Grid<B>
    requires some { 1 ≤ length lows.items }
    requires paired { length highs.items ≡ length lows.items }
    requires in_first { length lows.items ≤ length a.now }
    requires in_second { length lows.items ≤ length b.now }
    requires low { (s : ℕ) → s < length lows.items
        → get_or lows.items s 0 ≡ count_pairs s (λ i j. low_at a.now i * low_at b.now j) }
    requires high { (s : ℕ) → s < length lows.items
        → get_or highs.items s 0 ≡ count_pairs s (λ i j. high_at a.now i * high_at b.now j) }
    ensures cells { length result ≡ length lows.items }
    ensures convolution { IsConvolution (length lows.items) a.now b.now result }
    ensures spread { spread result ≤ convolution_spread (2 ^ B) (length lows.items) (spread a.now) (spread b.now) }
{
    prove!(lows.len() <= a.cells() as usize);
    prove!(lows.len() <= b.cells() as usize);
    let lows = round_down(lows, B);
    let highs = round_up(highs, B);
    Grid::from_ends(lows, highs)
}

/// Two lists of `cells` zeros: room for the sums of the low and of the high ends of two grids.
pub fn room_for_sums(alloc: Global, cells: u32) -> Result<(Vec<u128>, Vec<u128>), AllocError>
    ensures low { IfOk result (λ v. v.0.items ≡ replicate cells 0) }
    ensures high { IfOk result (λ v. v.1.items ≡ replicate cells 0) }
    ensures low_cells { IfOk result (λ v. length v.0.items ≡ cells) }
    ensures high_cells { IfOk result (λ v. length v.1.items ≡ cells) }
{
    let lows = Vec::from_elem(alloc, 0, cells as usize)?;
    let highs = Vec::from_elem(alloc, 0, cells as usize)?;
    Ok((lows, highs))
}

/// `sums` with the sums of the products of items whose places add up to each of its places, one
/// product after another.
fn with_plain_sums(a: &[u128], b: &[u128], mut sums: Vec<u128>) -> Vec<u128>
    requires { ItemsFit a.now b.now (length sums.items) }
    ensures cells { length result.items ≡ length sums.items }
    ensures each { (s : ℕ) → s < length sums.items
        → get_or result.items s 0 ≡ pair_sum a.now b.now s }
{
    plain_sums(a, b, sums.as_mut_slice());
    sums
}

/// The first `cells` cells of the convolution of `a` and `b`, with each product of two ends by itself.
/// The spread is at most what the width rule says. It takes memory for exactly these cells.
pub fn convolve_plain<const B: u32>(
    alloc: Global,
    a: &Grid<B>,
    b: &Grid<B>,
    cells: u32,
) -> Result<Grid<B>, AllocError>
    requires some { 1 ≤ cells }
    requires in_first { cells ≤ length a.now }
    requires in_second { cells ≤ length b.now }
    ensures cells { IfOk result (λ g. length g ≡ cells) }
    ensures convolution { IfOk result (λ g. IsConvolution cells a.now b.now g) }
    ensures spread { IfOk result (λ g. spread g ≤ convolution_spread (2 ^ B) cells (spread a.now) (spread b.now)) }
{
    let (lows, highs) = room_for_sums(alloc, cells)?;
    let lows = with_plain_sums(a.lows(), b.lows(), lows);
    let highs = with_plain_sums(a.highs(), b.highs(), highs);
    Ok(grid_of_sums(a, b, lows, highs))
}
