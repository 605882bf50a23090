//! The first cells of a grid, up to where all further ones are alike: behind the claims that a
//! count without a greatest number makes likely each cell has the low end 0 and the high end 1
//! unit, and in sums of such counts some units.

ghost use Rattle.std.specs.Prelude.{◌≡◌, ℕ, ◌≤◌, length, get_or};
ghost use Rattle.dl_product.specs.Heads.{IsHead};

use crate::ends::Head;
use dl_grid::Grid;

/// The place from which on all low ends are 0 and all high ends are `rest`.
fn end_of_head(lows: &[u128], highs: &[u128], rest: u128) -> usize
    requires { length highs.now ≡ length lows.now }
    ensures within { result ≤ length highs.now }
    ensures low { (i : ℕ) → result ≤ i → get_or lows.now i 0 ≡ 0 }
    ensures high { (i : ℕ) → result ≤ i → get_or highs.now i rest ≡ rest }
{
    for i in 0..highs.len() {
        let end = highs.len() - i;
        if highs[end - 1] != rest || lows[end - 1] != 0 {
            return end;
        }
    }
    0
}

/// The head of the first `cells` cells of a grid.
pub(crate) fn head_of<'a, const B: u32>(grid: &'a Grid<B>, cells: u32) -> Head<'a>
    requires some { 1 ≤ cells }
    requires within { cells ≤ length grid.now }
    ensures { IsHead cells grid.now result }
{
    let many = cells as usize;
    let lows = &grid.lows()[..many];
    let highs = &grid.highs()[..many];
    let rest = highs[many - 1];
    let end = end_of_head(lows, highs, rest);
    Head {
        lows: &lows[..end],
        highs: &highs[..end],
        rest,
    }
}
