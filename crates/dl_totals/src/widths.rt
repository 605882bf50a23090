//! How wide the grid of a sum of units may be, from the spreads of the units' grids.

ghost use Rattle.std.specs.Prelude.{◌≡◌, ◌^◌, ◌<◌, ◌≤◌, length, map, IfSome};
ghost use Rattle.std.specs.List.{fold, remove};
ghost use Rattle.dl_grid.specs.Prelude.{spread, convolution_spread, sum_spread};

use dl_grid::{Grid, convolution_spread};

/// The spread that a sum of units may have where they are taken in one by one, in order, from a sum
/// with the spread `sum`, in units of `1 / 2^B`. None where a part of it passes 128 bits.
fn spread_with<const B: u32>(sum: u128, units: &[Grid<B>], cells: u32) -> Option<u128>
    ensures { IfSome result (λ most. most ≡ fold (convolution_spread (2 ^ B) cells) sum (map spread units.now)) }
{
    let mut most = sum;
    for unit in units {
        prove!(unit.cells() > 0);
        most = convolution_spread::<B>(most, unit.spread(), cells)?;
    }
    Some(most)
}

/// The spread that the sum of all units may have, taken in one by one; there is at least one unit.
pub(crate) fn spread_of_sum<const B: u32>(units: &[Grid<B>], cells: u32) -> Option<u128>
    requires { 1 ≤ length units.now }
    ensures { IfSome result (λ most. most ≡ sum_spread (2 ^ B) cells (map spread units.now)) }
{
    spread_with(units[0].spread(), &units[1..], cells)
}

/// The spread that the sum of all units but `i`, counted from 0, may have; 0 where it has none.
pub(crate) fn spread_without<const B: u32>(units: &[Grid<B>], i: u32, cells: u32) -> Option<u128>
    requires { i < length units.now }
    ensures { IfSome result (λ most. most ≡ sum_spread (2 ^ B) cells
        (map spread (remove units.now i))) }
{
    let before = &units[..i as usize];
    let after = &units[i as usize + 1..];
    if !before.is_empty() {
        return spread_with(spread_of_sum(before, cells)?, after, cells);
    }
    if !after.is_empty() {
        return spread_of_sum(after, cells);
    }
    Some(0)
}
