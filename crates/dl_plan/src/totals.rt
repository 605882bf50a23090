//! Sums over items.

ghost use Rattle.std.specs.Prelude.{◌≡◌, ◌*◌, ◌≤◌, ◌^◌, All};
ghost use Rattle.dl_limits.specs.Limits.{most_amount, most_weights};
ghost use Rattle.dl_plan.specs.Weighted.{weight_sum, weighted_sum, greatest};

use crate::item::Item;

/// The sum of amount times weight, for amounts of at most 2^22 and weights that sum to at most
/// 2^40.
pub fn weighted_sum(items: &[Item]) -> u64
    requires near { All (λ item. item.amount ≤ most_amount) items.now }
    requires within { weight_sum items.now ≤ most_weights }
    ensures value { result ≡ weighted_sum items.now }
    ensures small { result ≤ most_amount * weight_sum items.now }
{
    let mut sum = 0;
    'items: for item in items {
        sum += item.amount as u64 * item.weight;
    }
    sum
}

/// The sum of the weights, where it is at most 2^40.
pub(crate) fn total_weight(items: &[Item]) -> u64
    requires { weight_sum items.now ≤ most_weights }
    ensures { result ≡ weight_sum items.now }
{
    let mut total = 0;
    'items: for item in items {
        total += item.weight;
    }
    total
}

/// The greatest amount, 0 of none.
#[tactic(auto, using(crate::proofs::Weights::greatest_more))]
pub fn greatest_amount(items: &[Item]) -> u32
    ensures { result ≡ greatest items.now }
{
    let mut greatest = 0;
    for item in items {
        greatest = item.amount.max(greatest);
    }
    greatest
}
