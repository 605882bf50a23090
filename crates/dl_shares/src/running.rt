//! Sums over the amounts of one claim of what a total has up to the rest of a total.

ghost use Rattle.std.specs.Prelude.{◌≡◌, ◌<◌, ◌≤◌, length};
ghost use Rattle.dl_limits.specs.Limits.{most_weights};
ghost use Rattle.dl_grid.specs.Cells.{low_at};
ghost use Rattle.dl_plan.specs.Prelude.{weight_sum};
ghost use Rattle.dl_shares.specs.Amounts.{amounts_to};
ghost use Rattle.dl_shares.specs.Sums.{sums_of};

use dl_measures::Distribution;
use dl_plan::Item;

/// How many cells a running sum is walked down at most; further down it is read from the marks.
const LONGEST_WALK: u32 = 64;

/// What the low ends of the cells up to `x` add up to.
fn low_sum<const B: u32>(total: &Distribution<B>, x: u32) -> u128
    requires inside { x < length total.now }
    ensures { result ≡ sums_of (low_at total.now) x }
{
    prove!(total.cells() > 0);
    total.cdf(x).lo
}

/// What the low ends of the cells up to `to` add up to, from that of the cells up to `from`: by a
/// walk down where it is short.
fn sum_from<const B: u32>(total: &Distribution<B>, from: u32, sum: u128, to: u32) -> u128
    requires from { from < length total.now }
    requires to { to < length total.now }
    requires sum { sum ≡ sums_of (low_at total.now) from }
    ensures { result ≡ sums_of (low_at total.now) to }
{
    if from < to || from - to > LONGEST_WALK {
        return low_sum(total, to);
    }
    let mut lowered = sum;
    for step in 0..from - to {
        lowered -= total.at(from - step).lo;
    }
    lowered
}

/// The sums over the amounts up to `q`, each times its weight times what the low ends of the cells
/// up to the rest of `q` add up to, and each times its weight.
pub(crate) fn running_sums<const B: u32>(
    items: &[Item],
    total: &Distribution<B>,
    q: u32,
) -> (u128, u128)
    requires inside { q < length total.now }
    requires within { weight_sum items.now ≤ most_weights }
    ensures low { result.0 ≡ amounts_to q (sums_of (low_at total.now)) items.now }
    ensures parts { result.1 ≡ amounts_to q (λ _. 1) items.now }
{
    prove!(total.cells() > 0);
    let mut place = q;
    let mut sum = low_sum(total, q);
    let mut low = 0;
    let mut all = 0;
    'items: for item in items {
        if item.amount <= q {
            let rest = q - item.amount;
            sum = sum_from(total, place, sum, rest);
            place = rest;
            let parts = item.amount as u128 * item.weight as u128;
            low += parts * sum;
            all += parts;
        }
    }
    (low, all)
}
