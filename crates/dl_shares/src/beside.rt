//! Joint means.

ghost use Rattle.std.specs.Prelude.{◌≡◌, ℕ, ◌-◌, ◌*◌, ◌/◌, ◌^◌, ◌<◌, ◌≤◌, length, get_or, All};
ghost use Rattle.std.specs.Int.{div_ceil};
ghost use Rattle.dl_limits.specs.Limits.{most_high, most_cell_end};
ghost use Rattle.dl_exact.specs.Count.{count_pairs};
ghost use Rattle.dl_grid.specs.Prelude.{spread, convolution_spread};
ghost use Rattle.dl_shares.specs.Weighted.{low_weighted, high_weighted};

use crate::weighted::{outward, word_product};
use dl_grid::Grid;
use dl_iv::Iv;

/// The sum of `y * own[y] * other[z]` over all `y + z = x`. As `y` falls from `x` to 1, the sums of
/// the products so far are added up, so that the product at `y` is in `y` of them.
fn weighted_sum(own: &[u128], other: &[u128], x: u32) -> u128
    requires in_own { x < length own.now }
    requires in_other { x < length other.now }
    requires own_words { All (λ end. end ≤ most_cell_end) own.now }
    requires other_words { All (λ end. end ≤ most_cell_end) other.now }
    requires fits { count_pairs x (λ y z. y * get_or own.now y 0 * get_or other.now z 0) < 2 ^ 128 }
    ensures { result ≡ count_pairs x (λ y z. y * get_or own.now y 0 * get_or other.now z 0) }
{
    let mut so_far = 0;
    let mut sum = 0;
    for z in 0..x {
        so_far += word_product(own[(x - z) as usize], other[z as usize]);
        sum += so_far;
    }
    sum
}

/// The joint mean of one unit at `x`, in buckets: the mean of the unit's outcome where the total is
/// `x`, and of 0 elsewhere. `unit` is the grid of that unit, and `others` that of all other units
/// together. It is a convolution (Loss Models, "Aggregate loss models"): where the unit has `y` of
/// a total of `x`, the others have `x - y`. The low end is rounded down once, and the high end up;
/// what is rounded holds the declared joint mean, by `law_joint_ends`.
pub fn joint_mean<const B: u32>(unit: &Grid<B>, others: &Grid<B>, x: u32) -> Iv<B>
    requires in_unit { x < length unit.now }
    requires in_others { x < length others.now }
    requires unit_narrow { spread unit.now < 2 ^ B }
    requires others_narrow { spread others.now < 2 ^ B }
    ensures low { result.lo ≡ low_weighted unit.now others.now x / 2 ^ B }
    ensures high { result.hi ≡ div_ceil (high_weighted unit.now others.now x) (2 ^ B) }
    ensures width { result.hi - result.lo
        ≤ length unit.now * convolution_spread (2 ^ B) (length unit.now) (spread unit.now) (spread others.now) }
    // the high ends of so narrow a grid add up to less than 2
    ensures small { result.hi ≤ 4 * x * 2 ^ B }
    // so it can be divided by a probability, where 4 * x in units of 1 / 2^(2B) fits a word
    ensures divisible { 4 * x * 2 ^ B * 2 ^ B ≤ most_high → result.hi * 2 ^ B ≤ most_high }
{
    let low = weighted_sum(unit.lows(), others.lows(), x);
    let high = weighted_sum(unit.highs(), others.highs(), x);
    outward(low, high)
}
