//! Sums of joint means.

ghost use Rattle.std.specs.Prelude.{◌≡◌, ℕ, ◌-◌, ◌*◌, ◌^◌, ◌<◌, ◌≤◌, length, get_or, All};
ghost use Rattle.dl_limits.specs.Limits.{most_cell_end};
ghost use Rattle.dl_exact.specs.Prelude.{◌over◌, count_below, sum_to};
ghost use Rattle.dl_grid.specs.Cells.{spread};
ghost use Rattle.dl_shares.specs.Weighted.{AreBeside, low_weighted, high_weighted};
ghost use Rattle.dl_model.specs.Prelude.{Series, Holds};
ghost use Rattle.dl_model.specs.Series.{Rises};
ghost use Rattle.dl_shares.specs.Sums.{weighted_to};
ghost use Rattle.dl_shares.specs.Widths.{beside_width};

use crate::weighted::{outward, word_product};
use dl_grid::Grid;
use dl_iv::Iv;

/// The sum of `y * own[y] * (others[0] + .. + others[z])` over all `y + z = q`: that of
/// `y * own[y] * others[z]` over all `y + z <= q`. As `y` falls from `q` to 1, the sums of the
/// products so far are added up, so that the product at `y` is in `y` of them.
fn weighted_sum(own: &[u128], others: &[u128], q: u32) -> u128
    requires in_own { q < length own.now }
    requires in_others { q < length others.now }
    requires own_words { All (λ end. end ≤ most_cell_end) own.now }
    requires mass { count_below q (λ z. get_or others.now z 0) < 2 ^ 64 }
    requires fits { weighted_to (λ y. get_or own.now y 0) (λ z. get_or others.now z 0) q < 2 ^ 128 }
    ensures { result ≡ weighted_to (λ y. get_or own.now y 0) (λ z. get_or others.now z 0) q }
{
    let mut end = 0;
    let mut so_far = 0;
    let mut sum = 0;
    for z in 0..q {
        end += others[z as usize];
        so_far += word_product(own[(q - z) as usize], end);
        sum += so_far;
    }
    sum
}

/// The sum of the joint means of one unit at the totals up to `q`, in buckets: the mean of the
/// unit's outcome where the total is at most `q`, and of 0 elsewhere. `unit` is the grid of that
/// unit, and `others` that of all other units together. The low end is rounded down once, and the
/// high end up.
pub(crate) fn joint_sums<const B: u32>(unit: &Grid<B>, others: &Grid<B>, q: u32) -> Iv<B>
    requires { AreBeside unit.now others.now q }
    ensures holds { (joint : ℕ → Series) (R : Series) → ((x : ℕ) → Rises (joint x))
        → ((x : ℕ) → x ≤ q → Holds (joint x) R
        (low_weighted unit.now others.now x over (2 ^ B * 2 ^ B))
        (high_weighted unit.now others.now x over (2 ^ B * 2 ^ B)))
        → Holds (λ N. sum_to q (λ x. joint x N)) R (result.lo over 2 ^ B) (result.hi over 2 ^ B) }
    ensures width { result.hi - result.lo
        ≤ beside_width (2 ^ B) (length unit.now) (spread unit.now) (spread others.now) }
{
    let low = weighted_sum(unit.lows(), others.lows(), q);
    let high = weighted_sum(unit.highs(), others.highs(), q);
    outward(low, high)
}
