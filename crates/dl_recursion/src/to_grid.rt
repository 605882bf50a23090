//! From the cells of the recursion to a grid.

ghost use Rattle.std.specs.Prelude.{◌≡◌, ◌+◌, ◌*◌, ◌/◌, ◌^◌, ◌<◌, ◌≤◌, ◌⊎◌, length, IfOk};
ghost use Rattle.dl_limits.specs.Limits.{start_bits, most_end, most_start};
ghost use Rattle.dl_grid.specs.Prelude.{low_at, high_at, IsGridSize};
ghost use Rattle.dl_recursion.specs.Recursion.{AreScaledCells};
ghost use Rattle.dl_recursion.specs.ToGrid.{HasGridEnds};

use crate::cells::ScaledCells;
use dl_grid::{Grid, units_of_one};
use dl_start::Scaled;
use std::alloc::{AllocError, Global};

/// The product of two ends has fewer bits.
const PRODUCT_BITS: u64 = 126;

/// The number over `2^down`, rounded down, by a shift of both its words.
#[inline(never)]
fn shifted_words(x: u128, down: u64) -> u128
    requires down { down < 64 }
    ensures { result ≡ x / 2 ^ down }
{
    x >> down
}

/// The number over `2^down`, rounded down. From 64 bits on a shift of the high word is enough.
#[tactic(auto, using(crate::proofs::GridEnds::high_word))]
fn shifted(x: u128, down: u64) -> u128
    requires down { down ≤ 126 }
    ensures { result ≡ x / 2 ^ down }
{
    if down < 64 {
        return shifted_words(x, down);
    }
    u128::from(((x >> 64) as u64) >> (down - 64))
}

/// The product by `down` bits down, rounded down, and at most `one`.
#[tactic(auto, using(crate::proofs::GridEnds::down_reaches))]
fn narrow_low(a: u64, b: u64, down: u64, one: u128) -> u128
    requires a_small { a ≤ most_end }
    requires b_small { b ≤ most_start }
    ensures top { result ≤ one }
    ensures below { result * 2 ^ down ≤ a * b }
{
    let d = down.min(PRODUCT_BITS);
    let x = shifted(u128::from(a) * u128::from(b), d);
    x.min(one)
}

/// The product by `down` bits down, rounded up, or `one` where it is more.
#[tactic(auto, using(crate::proofs::GridEnds::up_reaches))]
fn narrow_high(a: u64, b: u64, down: u64, one: u128) -> u128
    requires a_small { a ≤ most_end }
    requires b_small { b ≤ most_start }
    ensures top { result ≤ one }
    ensures above { (a * b ≤ result * 2 ^ down) ⊎ (result ≡ one) }
{
    let d = down.min(PRODUCT_BITS);
    let product = u128::from(a) * u128::from(b);
    if product == 0 {
        return 0;
    }
    let x = shifted(product - 1, d) + 1;
    if x > one { one } else { x }
}

/// The grid of `cells` cells with each cell of the recursion times the probability of no claim,
/// over `2^down`, at every `step`-th cell, and 0 between. A low end is lowered to its high end, and
/// to 1 less the low ends before it.
pub(crate) fn to_grid<const B: u32>(
    alloc: Global,
    x: &ScaledCells,
    start: Scaled,
    down: u64,
    step: u32,
    cells: u32,
) -> Result<Grid<B>, AllocError>
    requires size { IsGridSize B cells }
    requires apart { 0 < step }
    requires within { step * length x.now.low.items < cells + step }
    requires settled { AreScaledCells x.now.low.items x.now.high.items x.now.first }
    requires scale { start_bits + start.exponent ≡ down + (x.now.shift + B) }
    ensures cells { IfOk result (λ g. length g ≡ cells) }
    ensures ends { IfOk result (λ g. HasGridEnds B start x.now.shift step (length x.now.low.items)
        x.now.low.items x.now.high.items (low_at g) (high_at g)) }
{
    let mut lows = Vec::from_elem(alloc, 0, cells as usize)?;
    let mut highs = Vec::from_elem(alloc, 0, cells as usize)?;
    let one = units_of_one(B);
    let mut room = one;
    'rows: for i in 0..x.low.len() {
        let high = narrow_high(x.high[i], start.high, down, one);
        let most = high.min(room);
        let low = narrow_low(x.low[i], start.low, down, one).min(most);
        room -= low;
        let at = step as usize * i;
        lows[at] = low;
        highs[at] = high;
    }
    Ok(Grid::from_ends(lows, highs))
}
