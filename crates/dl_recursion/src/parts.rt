//! The amounts of a claim with their weights in whole numbers, in steps of the greatest common
//! divisor of the amounts in buckets: those that lie one step apart and have one weight as runs,
//! and the others one by one.

ghost use Rattle.std.specs.Prelude.{◌≡◌, ℕ, ◌+◌, ◌*◌, ◌/◌, ◌^◌, ◌<◌, ◌≤◌, All, IfOk, sum_by};
ghost use Prim.Native.Nat.{◌∣◌};
ghost use Rattle.dl_plan.specs.Weighted.{weight_sum, weight_at, common_amount};
ghost use Rattle.dl_recursion.specs.declared.parts.Part.{Part};
ghost use Rattle.dl_recursion.specs.Runs.{run_parts, all_parts, part_sum, part_at, ArePositiveAmounts};

use dl_frac::small_divisor;
use dl_plan::Item;
use std::alloc::{AllocError, Global};

/// An amount that a claim can have, and what its probability comes to in whole numbers.
#[derive(Clone, Copy)]
pub struct Part {
    /// The amount in steps.
    pub amount: usize,
    /// A factor common to all parts times the probability of the amount.
    pub weight: u64,
}

/// Amounts that lie one step apart, all of one weight.
#[derive(Clone, Copy)]
pub struct Run {
    /// The least of them, in steps.
    pub amount: usize,
    /// How many they are.
    pub count: usize,
    /// The weight of each, as that of a part.
    pub weight: u64,
}

/// The amounts that a claim can have.
#[derive(Drop)]
pub struct Amounts {
    /// Those that are taken one by one.
    pub parts: Vec<Part>,
    /// Those in long runs.
    pub runs: Vec<Run>,
}

/// The least number of amounts that make a run: fewer are as fast one by one.
const LONG: usize = 8;

/// Adds the amounts of a run: as a run where it is long, else one by one.
#[tactic(auto, using(crate::proofs::Runs::row_none))]
fn add(amounts: &mut Amounts, run: Run) -> Result<(), AllocError>
    requires sound { ArePositiveAmounts amounts.old }
    requires amount { 0 < run.amount }
    requires end { run.amount + run.count ≤ 2 ^ 32 }
    ensures sound { IfOk result (λ u. ArePositiveAmounts amounts.new) }
    ensures parts { IfOk result (λ u. (f : Part → ℕ) → sum_by f (all_parts amounts.new)
        ≡ sum_by f (all_parts amounts.old) + sum_by f (run_parts run)) }
{
    if run.count >= LONG {
        amounts.runs.push(run)?;
        return Ok(());
    }
    'each: for k in 0..run.count {
        amounts.parts.push(Part {
            amount: run.amount + k,
            weight: run.weight,
        })?;
    }
    Ok(())
}

/// The run of one item alone, its amount in steps, its weight times the factor.
fn alone(item: Item, step: u32, factor: u64) -> Run
    requires apart { 0 < step }
    requires room { factor * item.weight < 2 ^ 64 }
    ensures amount { result.amount ≡ item.amount / step }
    ensures count { result.count ≡ 1 }
    ensures weight { result.weight ≡ factor * item.weight }
    ensures end { result.amount < 2 ^ 32 }
{
    Run {
        amount: (item.amount / step) as usize,
        count: 1,
        weight: factor * item.weight,
    }
}

/// The greatest common divisor of the amounts of the items, in buckets.
pub(crate) fn common_amount(items: &[Item]) -> u32
    ensures { result ≡ common_amount items.now }
{
    let mut common = 0;
    'items: for item in items {
        common = small_divisor(common, item.amount);
    }
    common
}

/// The rising amounts of the items, each over `step`, of which it is a multiple, with its weight
/// times `factor`.
#[tactic(auto, using(crate::proofs::Runs::row_none))]
pub(crate) fn amounts_of(
    alloc: Global,
    items: &[Item],
    step: u32,
    factor: u64,
) -> Result<Amounts, AllocError>
    requires apart { 0 < step }
    requires whole { All (λ item. step ∣ item.amount) items.now }
    requires room { factor * weight_sum items.now < 2 ^ 64 }
    requires no_zero { All (λ item. 0 < item.amount) items.now }
    ensures sound { IfOk result (λ amounts. ArePositiveAmounts amounts) }
    ensures sum { IfOk result (λ amounts. part_sum (all_parts amounts)
        ≡ factor * weight_sum items.now) }
    ensures each { IfOk result (λ amounts. (j : ℕ) → part_at (all_parts amounts) j
        ≡ factor * weight_at items.now (step * j)) }
{
    let mut amounts = Amounts {
        parts: Vec::new(alloc),
        runs: Vec::new(alloc),
    };
    let mut run = Run {
        amount: 1,
        count: 0,
        weight: 0,
    };
    'items: for item in items {
        let next = alone(*item, step, factor);
        if next.amount == run.amount + run.count && next.weight == run.weight {
            run.count += 1;
        } else {
            add(&mut amounts, run)?;
            run = next;
        }
    }
    add(&mut amounts, run)?;
    Ok(amounts)
}
