//! Severities of rising amounts, and the part of a severity above an amount.

ghost use Rattle.std.specs.Prelude.{◌≡◌, ◌/◌, ◌<◌, ◌≤◌, ◌^◌, ℕ, nat_lt, List, [], ◌∷◌, filter, length, map, All, IfOk, MatchOption};
ghost use Rattle.std.specs.List.Sorted.{IsStrictlyIncreasing};
ghost use Rattle.dl_limits.specs.Limits.{most_weights};
ghost use Rattle.dl_exact.specs.Fraction.{◌over◌};
ghost use Rattle.dl_plan.specs.Weighted.{amounts_of, weight_sum, weight_at, common_weight, divided_by};
ghost use Rattle.dl_plan.specs.Severity.{probability_of, pairs_of, conditioned, HasDistribution};

use crate::item::Item;
use crate::severity::Sev;
use crate::totals::total_weight;
use dl_bytes::Items;
use dl_frac::divisor;
use std::alloc::{AllocError, Global};

impl Sev {
    /// The severity of rising amounts with weights above 0: their greatest common divisor is taken
    /// out. Takes no memory.
    #[tactic(auto, using(crate::proofs::Weights::common_pos))]
    pub fn from_rising(items: Vec<Item>) -> Sev
        requires some { 0 < length items.items }
        requires rising { IsStrictlyIncreasing (amounts_of items.items) }
        requires positive { All (λ item. 0 < item.weight) items.items }
        requires within { weight_sum items.items ≤ most_weights }
        ensures { (x : ℕ) → probability_of result x
            ≡ weight_at items.items x over weight_sum items.items }
    {
        let common = divisor_of_weights(&items);
        let total = total_weight(&items) / common;
        Sev {
            items: Items::from_vec(divided(items, common)),
            total,
        }
    }

    /// The severity of one amount alone. Its list is the one allocation, and `AllocError` its
    /// refusal.
    pub fn alone(alloc: Global, amount: u32) -> Result<Sev, AllocError>
        ensures items { IfOk result (λ sev.
            sev.items ≡ record { amount = amount; weight = 1 } ∷ []) }
        ensures total { IfOk result (λ sev. sev.total ≡ 1) }
    {
        let mut items = Vec::new(alloc);
        items.push(Item { amount, weight: 1 })?;
        Ok(Sev {
            items: Items::from_vec(items),
            total: 1,
        })
    }

    /// The severity conditioned on amounts above `attach`; `None` exactly where there is none.
    pub fn exceeding(&self, alloc: Global, attach: u32) -> Result<Option<Sev>, AllocError>
        ensures { IfOk result (λ made. MatchOption made
            (All (λ item. item.amount ≤ attach) self.now.items)
            (λ sev. HasDistribution sev (conditioned attach (pairs_of self.now)))) }
    {
        let kept = items_above(alloc, self.items.as_slice(), attach)?;
        if kept.is_empty() {
            return Ok(None);
        }
        Ok(Some(Sev::from_rising(kept)))
    }

    /// The severity conditioned on amounts above 0; `None` exactly where there is none.
    pub fn positive(&self, alloc: Global) -> Result<Option<Sev>, AllocError>
        ensures { IfOk result (λ made. MatchOption made
            (All (λ item. item.amount ≤ 0) self.now.items)
            (λ sev. HasDistribution sev (conditioned 0 (pairs_of self.now)))) }
    {
        self.exceeding(alloc, 0)
    }
}

/// The items above an amount.
fn items_above(alloc: Global, items: &[Item], attach: u32) -> Result<Vec<Item>, AllocError>
    ensures { IfOk result (λ kept. kept.items
        ≡ filter (λ item. nat_lt attach item.amount) items.now) }
{
    let mut kept = Vec::new(alloc);
    'items: for &item in items {
        if item.amount > attach {
            kept.push(item)?;
        }
    }
    Ok(kept)
}

/// The greatest common divisor of the weights.
fn divisor_of_weights(items: &[Item]) -> u64
    ensures { result ≡ common_weight items.now }
{
    let mut common = 0;
    'items: for item in items {
        common = divisor(common, item.weight);
    }
    common
}

/// Each weight divided by a number.
fn divided(mut items: Vec<Item>, common: u64) -> Vec<Item>
    requires { 0 < common }
    ensures { result.items ≡ map (divided_by common) items.items }
{
    'items: for item in items.iter_mut() {
        item.weight /= common;
    }
    items
}
