//! The last cells of the recursion, once the low ends have become 0. Where
//! `(before * n + max(after - before, 0) * top) * weight <= q * n`, with `top` the greatest amount
//! and `weight` the sum of the weights, no cell from `n` on is above the greatest of the `top`
//! cells before it: all of them get that one high end, and the low end 0.

ghost use Rattle.std.specs.Prelude.{◌≡◌, ℕ, ◌+◌, ◌-◌, ◌*◌, ◌^◌, ◌<◌, ◌≤◌, false, List, length, slice_index, flat_map, All, IfOk, IsTrue};
ghost use Rattle.dl_limits.specs.Limits.{most_end};
ghost use Rattle.dl_exact.specs.Fraction.{Fraction};
ghost use Rattle.dl_recursion.specs.declared.parts.Part.{Part};
ghost use Rattle.dl_recursion.specs.Runs.{run_parts, all_parts, part_sum, IsRun, ArePositiveAmounts};
ghost use Rattle.dl_recursion.specs.Recursion.{HasRoomOver, AreScaledCells, AreFalling, AreLast, FollowsInWhole, EncloseScaled, AreFirst};

use crate::cells::ScaledCells;
use crate::parts::{Amounts, Part, Run};
use std::alloc::AllocError;

/// How far amounts go.
#[derive(Clone, Copy)]
pub struct Reach {
    /// None of them is above this one.
    pub amount: usize,
    /// Their weights together.
    pub weight: u64,
}

/// How far amounts taken one by one go.
#[tactic(auto, using(std::proofs::lemmas::List::Sums::sum_by_more_le))]
fn reach_alone(parts: &[Part]) -> Reach
    requires room { part_sum parts.now < 2 ^ 64 }
    ensures amount { All (λ p. p.amount ≤ result.amount) parts.now }
    ensures weight { result.weight ≡ part_sum parts.now }
{
    let mut amount = 0;
    let mut weight = 0;
    for part in parts {
        amount = amount.max(part.amount);
        weight += part.weight;
    }
    Reach { amount, weight }
}

/// How far the amounts of runs go.
fn reach_together(runs: &[Run]) -> Reach
    requires runs { All IsRun runs.now }
    requires room { part_sum (flat_map run_parts runs.now) < 2 ^ 64 }
    ensures amount { All (λ p. p.amount ≤ result.amount) (flat_map run_parts runs.now) }
    ensures weight { result.weight ≡ part_sum (flat_map run_parts runs.now) }
{
    let mut amount = 0;
    let mut weight = 0;
    for run in runs {
        amount = amount.max(run.amount + run.count - 1);
        weight += run.count as u64 * run.weight;
    }
    Reach { amount, weight }
}

/// How far all amounts go.
pub(crate) fn reach_of(amounts: &Amounts) -> Reach
    requires amounts { ArePositiveAmounts amounts.now }
    requires room { part_sum (all_parts amounts.now) < 2 ^ 64 }
    ensures amount { All (λ p. p.amount ≤ result.amount) (all_parts amounts.now) }
    ensures weight { result.weight ≡ part_sum (all_parts amounts.now) }
{
    let alone = reach_alone(&amounts.parts);
    let together = reach_together(&amounts.runs);
    Reach {
        amount: alone.amount.max(together.amount),
        weight: alone.weight + together.weight,
    }
}

/// Whether no amount is above `n`, and
/// `(before * n + max(after - before, 0) * top) * weight <= q * n` with the greatest amount `top`
/// and the sum `weight` of the weights; then that holds for each later cell, too.
fn is_falling(reach: Reach, before: u64, after: u64, q: u64, n: usize) -> bool
    requires room { HasRoomOver q before after reach.weight n }
    ensures within { IsTrue result → reach.amount ≤ n }
    ensures falling { IsTrue result
        → (before * n + (after - before) * reach.amount) * reach.weight ≤ q * n }
{
    if reach.amount > n {
        return false;
    }
    let n = n as u64;
    let more = after.saturating_sub(before);
    (before * n + more * (reach.amount as u64)) * reach.weight <= q * n
}

/// The greatest of the ends from one cell on.
pub(crate) fn greatest_from(ends: &[u64], from: usize) -> u64
    requires small { (k : ℕ) → slice_index ends.now k ≤ most_end }
    ensures small { result ≤ most_end }
    ensures last { AreLast ends.now from result }
{
    let mut greatest = 0;
    for i in from..ends.len() {
        greatest = greatest.max(ends[i]);
    }
    greatest
}

/// Adds cells with the low end 0 and this high end, until there are `cells`.
fn fill(x: &mut ScaledCells, high: u64, cells: usize) -> Result<(), AllocError>
    requires sound { AreScaledCells x.old.low.items x.old.high.items x.old.first }
    requires some { 0 < length x.old.low.items }
    requires few { length x.old.low.items ≤ cells }
    requires small { high ≤ most_end }
    ensures sound { IfOk result (λ u. AreScaledCells x.new.low.items x.new.high.items x.new.first) }
    ensures cells { IfOk result (λ u. length x.new.low.items ≡ cells) }
    ensures shift { IfOk result (λ u. x.new.shift ≡ x.old.shift) }
    ensures round { IfOk result (λ u. (parts : List Part) (before after q top : ℕ)
        (r : ℕ → Fraction)
        → AreFalling parts before after q top (length x.old.low.items)
        → AreLast x.old.high.items (length x.old.low.items - top) high
        → All (λ p. 0 < p.amount) parts → 0 < q → FollowsInWhole parts before after q r
        → EncloseScaled r x.old.shift (length x.old.low.items) x.old.low.items x.old.high.items
        → EncloseScaled r x.new.shift cells x.new.low.items x.new.high.items) }
{
    'cells: for n in x.low.len()..cells {
        x.low.push(0)?;
        x.high.push(high)?;
    }
    Ok(())
}

/// Whether the rest of the cells is added with one high end: where no low end after cell `last` is
/// above 0 and no later cell can be above the high ends before it. Else the cells stay as they are.
pub(crate) fn fill_rest(
    x: &mut ScaledCells,
    reach: Reach,
    last: usize,
    before: u64,
    after: u64,
    q: u64,
    cells: usize,
) -> Result<bool, AllocError>
    requires sound { AreScaledCells x.old.low.items x.old.high.items x.old.first }
    requires some { 0 < length x.old.low.items }
    requires few { length x.old.low.items ≤ cells }
    requires room { HasRoomOver q before after reach.weight (length x.old.low.items) }
    ensures kept { IfOk result (λ filled. filled ≡ false → x.new ≡ x.old) }
    ensures first { IfOk result (λ filled. IsTrue filled → (parts : List Part)
        → All (λ p. 0 < p.amount) parts → All (λ p. p.amount ≤ reach.amount) parts
        → reach.weight ≡ part_sum parts
        → AreFirst parts before after q (length x.old.low.items) x.old
        → AreFirst parts before after q cells x.new) }
{
    let n = x.low.len();
    if n.saturating_sub(last) <= reach.amount || !is_falling(reach, before, after, q, n) {
        return Ok(false);
    }
    let high = greatest_from(x.high.as_slice(), n - reach.amount);
    fill(x, high, cells)?;
    Ok(true)
}
