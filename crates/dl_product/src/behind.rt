//! The sums of the products of ends behind the heads of two grids.

ghost use Rattle.std.specs.Prelude.{◌≡◌, ℕ, ◌+◌, ◌-◌, ◌*◌, ◌^◌, ◌<◌, ◌≤◌, length, get_or};
ghost use Rattle.dl_exact.specs.Count.{count_below};
ghost use Rattle.dl_grid.specs.Prelude.{spread, IsConvolution, convolution_spread};
ghost use Rattle.dl_convolution.specs.Sums.{pair_sum};
ghost use Rattle.dl_product.specs.Heads.{IsHead};

use crate::ends::Head;
use dl_convolution::grid_of_sums;
use dl_grid::Grid;

/// Item `k` of a list, or 0 past its end.
fn item_or_zero(list: &[u128], k: usize) -> u128
    ensures { result ≡ get_or list.now k 0 }
{
    if k < list.len() { list[k] } else { 0 }
}

/// `sums`, at each place with the products of the items of a list and of those of another one from
/// `from` on, each of which is `rest`: `rest` times a running sum.
fn with_rest(rest: u128, from: usize, items: &[u128], mut sums: Vec<u128>) -> Vec<u128>
    requires { (s : ℕ) → s < length sums.items → get_or sums.items s 0
        + rest * count_below (s + 1 - from) (λ k. get_or items.now k 0) < 2 ^ 128 }
    ensures cells { length result.items ≡ length sums.items }
    ensures each { (s : ℕ) → s < length sums.items → get_or result.items s 0 ≡ get_or sums.items s 0
        + rest * count_below (s + 1 - from) (λ k. get_or items.now k 0) }
{
    if rest == 0 {
        return sums;
    }
    let out = sums.as_mut_slice();
    let mut sum = 0;
    for s in from..out.len() {
        sum += item_or_zero(items, s - from);
        out[s] += rest * sum;
    }
    sums
}

/// The grid of the convolution of `a` and `b`, from the sums of products of the ends of their heads.
pub(crate) fn grid_of_heads<const B: u32>(
    a: &Grid<B>,
    b: &Grid<B>,
    first: Head<'_>,
    second: Head<'_>,
    lows: Vec<u128>,
    highs: Vec<u128>,
) -> Grid<B>
    requires some { 1 ≤ length lows.items }
    requires paired { length highs.items ≡ length lows.items }
    requires in_first { length lows.items ≤ length a.now }
    requires in_second { length lows.items ≤ length b.now }
    requires first { IsHead (length lows.items) a.now first }
    requires second { IsHead (length lows.items) b.now second }
    requires low { (s : ℕ) → s < length lows.items
        → get_or lows.items s 0 ≡ pair_sum first.lows.now second.lows.now s }
    requires high { (s : ℕ) → s < length lows.items
        → get_or highs.items s 0 ≡ pair_sum first.highs.now second.highs.now s }
    ensures cells { length result ≡ length lows.items }
    ensures convolution { IsConvolution (length lows.items) a.now b.now result }
    ensures spread { spread result ≤ convolution_spread (2 ^ B) (length lows.items) (spread a.now) (spread b.now) }
{
    let highs = with_rest(first.rest, first.highs.len(), b.highs(), highs);
    let highs = with_rest(second.rest, second.highs.len(), first.highs, highs);
    grid_of_sums(a, b, lows, highs)
}
