//! Items in any order as a severity.

ghost use Rattle.std.specs.Prelude.{◌≡◌, ◌<◌, ◌≤◌, ◌^◌, ℕ, List, All, IsPermutation, IfOk};
ghost use Rattle.std.specs.List.Sorted.{IsNonDecreasingBy, IsStrictlyIncreasing};
ghost use Rattle.dl_limits.specs.Limits.{most_weights};
ghost use Rattle.dl_exact.specs.Fraction.{◌over◌};
ghost use Rattle.dl_plan.specs.Prelude.{amounts_of, weight_sum, weight_at, probability_of};
ghost use Rattle.dl_severity.specs.Steps.{with_weighed};

use dl_plan::{Item, Sev};
use std::alloc::{AllocError, Global};

/// The severity of these items: equal amounts are added up, and weights of 0 dropped.
pub(crate) fn gathered(alloc: Global, items: Vec<Item>) -> Result<Sev, AllocError>
    requires some { 0 < weight_sum items.items }
    requires within { weight_sum items.items ≤ most_weights }
    ensures { IfOk result (λ sev. (x : ℕ)
        → probability_of sev x ≡ weight_at items.items x over weight_sum items.items) }
{
    let sorted = sorted(items);
    let rising = added_up(alloc, &sorted)?;
    Ok(Sev::from_rising(rising))
}

/// The items by rising amount.
fn sorted(mut items: Vec<Item>) -> Vec<Item>
    ensures order { IsNonDecreasingBy (λ item. item.amount) result.items }
    ensures same { IsPermutation items.items result.items }
{
    items.sort_unstable_by_key(|item| item.amount);
    items
}

/// Sorted items with equal amounts added up, and weights of 0 dropped.
fn added_up(alloc: Global, items: &[Item]) -> Result<Vec<Item>, AllocError>
    requires order { IsNonDecreasingBy (λ item. item.amount) items.now }
    requires within { weight_sum items.now ≤ most_weights }
    ensures rising { IfOk result (λ made. IsStrictlyIncreasing (amounts_of made.items)) }
    ensures positive { IfOk result (λ made. All (λ item. 0 < item.weight) made.items) }
    ensures sum { IfOk result (λ made. weight_sum made.items ≡ weight_sum items.now) }
    ensures weights { IfOk result (λ made. (x : ℕ)
        → weight_at made.items x ≡ weight_at items.now x) }
{
    let mut made = Vec::new(alloc);
    let mut last = Item {
        amount: 0,
        weight: 0,
    };
    'items: for &item in items {
        if item.amount == last.amount {
            last.weight += item.weight;
        } else {
            push_weighed(&mut made, last)?;
            last = item;
        }
    }
    push_weighed(&mut made, last)?;
    Ok(made)
}

/// Pushes an item that has a weight.
fn push_weighed(made: &mut Vec<Item>, item: Item) -> Result<(), AllocError>
    ensures { IfOk result (λ _. made.new.items ≡ with_weighed made.old.items item) }
{
    if item.weight > 0 {
        made.push(item)?;
    }
    Ok(())
}
