//! A mixture of grids: the ends of each cell, each times its grid's weight, over the total of the
//! weights. Past its last cell a grid has the ends 0.

ghost use Rattle.std.specs.Prelude.{◌≡◌, ℕ, ◌+◌, ◌-◌, ◌*◌, ◌/◌, ◌^◌, ◌<◌, ◌≤◌, length, get_or, All, IfOk};
ghost use Rattle.std.specs.Int.{div_ceil};
ghost use Rattle.dl_limits.specs.Limits.{edge_bound, most_weights};
ghost use Rattle.dl_exact.specs.Fraction.{Fraction};
ghost use Rattle.dl_grid.specs.Prelude.{low_at, high_at, IsGridSize};
ghost use Rattle.dl_model.specs.Prelude.{cell_from, probability_at, IsWithinOne};
ghost use Rattle.dl_plan.specs.Weighted.{weight_at, weight_sum};
ghost use Rattle.dl_claims.specs.Powers.{Between, ArePowers, mixture_end};

use crate::shares::weight_of;
use crate::short::end_at;
use dl_grid::{Grid, units_of_one};
use dl_plan::Item;
use std::alloc::{AllocError, Global};

/// The weights of `many` counts from `first` on.
fn weights_from(
    alloc: Global,
    table: &[Item],
    first: u64,
    many: usize,
) -> Result<Vec<u64>, AllocError>
    requires fits { weight_sum table.now ≤ most_weights }
    requires few { many < 2 ^ 32 }
    requires near { first < edge_bound }
    ensures many { IfOk result (λ list. length list.items ≡ many) }
    ensures each { IfOk result (λ list. (i : ℕ) → i < many
        → get_or list.items i 0 ≡ weight_at table.now (first + i)) }
    ensures fits { IfOk result (λ list. All (λ weight. weight ≤ most_weights) list.items) }
{
    let mut weights = Vec::with_capacity(alloc, many)?;
    for i in 0..many {
        weights.push(weight_of(table, first + i as u64))?;
    }
    Ok(weights)
}

/// The sums of the low ends, and of the high ends, of the cells `x`, each times its grid's weight.
fn sums_at<const B: u32>(weights: &[u64], grids: &[Grid<B>], x: usize) -> (u128, u128)
    requires scale { B ≤ 56 }
    requires as_many { length weights.now ≡ length grids.now }
    requires few { length grids.now < 2 ^ 32 }
    requires fits { All (λ weight. weight ≤ most_weights) weights.now }
    ensures low { result.0 ≡ mixture_end weights.now grids.now (λ g. low_at g x) }
    ensures high { result.1 ≡ mixture_end weights.now grids.now (λ g. high_at g x) }
{
    let mut low = 0;
    let mut high = 0;
    for i in 0..grids.len() {
        let grid = &grids[i];
        let weight = u128::from(weights[i]);
        low += weight * end_at(grid.lows(), x);
        high += weight * end_at(grid.highs(), x);
    }
    (low, high)
}

/// The ends of the mixture at the cells `x`: the sums of the weighted ends over the total, the low
/// one rounded down and the high one up.
fn ends_at<const B: u32>(weights: &[u64], grids: &[Grid<B>], x: usize, total: u64) -> (u128, u128)
    requires scale { B ≤ 56 }
    requires as_many { length weights.now ≡ length grids.now }
    requires few { length grids.now < 2 ^ 32 }
    requires fits { All (λ weight. weight ≤ most_weights) weights.now }
    requires positive { 0 < total }
    ensures low { result.0 ≡ mixture_end weights.now grids.now (λ g. low_at g x) / total }
    ensures high { result.1
        ≡ div_ceil (mixture_end weights.now grids.now (λ g. high_at g x)) total }
{
    let (low, high) = sums_at(weights, grids, x);
    let total = u128::from(total);
    (low / total, high.div_ceil(total))
}

/// The number of cells of the longest grid, at least 1.
fn longest<const B: u32>(grids: &[Grid<B>]) -> u32
    ensures some { 1 ≤ result }
    ensures within { All (λ g. length g ≤ result) grids.now }
    ensures least { (n : ℕ) → 1 ≤ n → All (λ g. length g ≤ n) grids.now → result ≤ n }
{
    let mut most = 1;
    for grid in grids {
        most = most.max(grid.cells());
    }
    most
}

/// The counts from `first` on, as many as there are powers: of each its power, times its weight
/// over the total. The cells are rounded once. The grid is as long as the longest power.
pub(crate) fn block<const B: u32>(
    alloc: Global,
    powers: &[Grid<B>],
    table: &[Item],
    first: u64,
    total: u64,
    cells: u32,
) -> Result<Grid<B>, AllocError>
    requires size { IsGridSize B cells }
    requires sum { weight_sum table.now ≡ total }
    requires positive { 0 < total }
    requires within { total ≤ most_weights }
    requires one { 1 ≤ length powers.now }
    requires most { length powers.now < 2 ^ 32 }
    requires near { first < edge_bound }
    requires few { All (λ g. length g ≤ cells) powers.now }
    requires powers { (f : ℕ → Fraction) × IsWithinOne f × ArePowers cells f powers.now }
    ensures few { IfOk result (λ g. length g ≤ cells) }
    ensures between { IfOk result (λ g. (f : ℕ → Fraction) → IsWithinOne f
        → ArePowers cells f powers.now
        → Between cells g (λ s. cell_from (probability_at table.now) f first s
        (length powers.now - 1))) }
{
    let weights = weights_from(alloc, table, first, powers.len())?;
    let one = units_of_one(B);
    let long = longest(powers) as usize;
    let mut lows = Vec::with_capacity(alloc, long)?;
    let mut highs = Vec::with_capacity(alloc, long)?;
    for x in 0..long {
        let (low, high) = ends_at(weights.as_slice(), powers, x, total);
        lows.push(one.min(low))?;
        highs.push(one.min(high))?;
    }
    Ok(Grid::from_ends(lows, highs))
}
