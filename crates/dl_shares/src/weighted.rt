//! What sums of products of ends are made of: products of words, and the interval of two sums.

ghost use Rattle.std.specs.Prelude.{◌≡◌, ◌*◌, ◌/◌, ◌^◌, ◌<◌, ◌≤◌};
ghost use Rattle.std.specs.Int.{div_ceil};
ghost use Rattle.dl_limits.specs.Limits.{most_high};

use dl_grid::units_of_one;
use dl_iv::Iv;

/// The product of two numbers of 64 bits: one multiplication.
pub(crate) fn word_product(x: u128, y: u128) -> u128
    requires first { x < 2 ^ 64 }
    requires second { y < 2 ^ 64 }
    ensures { result ≡ x * y }
{
    u128::from(x as u64) * u128::from(y as u64)
}

/// The interval from `low` to `high`, both in units of `1 / 2^(2B)`: the low end rounded down, and
/// the high end up.
#[tactic(auto, using(dl_iv::proofs::Rounding::floor_le_ceiling))]
pub(crate) fn outward<const B: u32>(low: u128, high: u128) -> Iv<B>
    requires scale_above { 1 ≤ B }
    requires scale_below { B ≤ 56 }
    requires order { low ≤ high }
    requires fits { div_ceil high (2 ^ B) ≤ most_high }
    ensures low { result.lo ≡ low / 2 ^ B }
    ensures high { result.hi ≡ div_ceil high (2 ^ B) }
{
    let one = units_of_one(B);
    Iv {
        lo: low / one,
        hi: high.div_ceil(one),
    }
}
