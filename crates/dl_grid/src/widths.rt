//! The width rule, computed.

ghost use Rattle.std.specs.Prelude.{◌≡◌, ◌*◌, ◌^◌, ◌<◌, ◌≤◌, IfSome, IsSome};
ghost use Rattle.dl_grid.specs.Width.{convolution_spread};

use dl_iv::units_of_one;

/// The spread that a convolution on `cells` cells may have, of grids with the spreads `x` and `y`,
/// in units of `1 / 2^B`. None only where it, or the product of the two spreads, passes 128 bits.
pub fn convolution_spread<const B: u32>(x: u128, y: u128, cells: u32) -> Option<u128>
    requires { B ≤ 56 }
    ensures value { IfSome result (λ most. most ≡ convolution_spread (2 ^ B) cells x y) }
    ensures room { x * y < 2 ^ 128 → convolution_spread (2 ^ B) cells x y < 2 ^ 128 → IsSome result }
{
    let sum = x.checked_add(y)?;
    let crossed = x.checked_mul(y)?.div_ceil(units_of_one(B));
    let rounded = 2 * u128::from(cells);
    sum.checked_add(crossed)?.checked_add(rounded)
}
