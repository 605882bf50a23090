//! How wide the grid of a listed number of claims may be, from the spread of one claim's grid.

ghost use Rattle.std.specs.Prelude.{◌≡◌, ◌^◌, ◌≤◌, IfSome};
ghost use Rattle.dl_grid.specs.Width.{mixed_spread};

use dl_grid::convolution_spread;

/// The spread that Horner's rule may come to, in units of `1 / 2^B`, where one claim's grid has the
/// spread `base`. None where a part of it passes 128 bits.
pub(crate) fn spread_of_counts<const B: u32>(base: u128, greatest: u32, cells: u32) -> Option<u128>
    requires { B ≤ 56 }
    ensures { IfSome result (λ most. most ≡ mixed_spread (2 ^ B) cells base greatest) }
{
    let mut most = 1;
    for _ in 0..greatest {
        most = convolution_spread::<B>(base, most, cells)?.checked_add(2)?;
    }
    Some(most)
}
