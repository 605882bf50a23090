//! What the amounts give to the next cell, before the division: a sum for each end. An amount alone
//! gives one product. A run gives two products, from sums over the cells that lie its amounts
//! before: they are its window, which moves on with each cell.

ghost use Rattle.std.specs.Prelude.{◌≡◌, ℕ, ◌+◌, ◌-◌, ◌*◌, ◌/◌, ◌^◌, ◌<◌, ◌≤◌, ◌⊎◌, length, slice_index, sum_by, flat_map, not, nat_le, max, All, IfOk, IsTrue};
ghost use Rattle.dl_limits.specs.Limits.{most_end};
ghost use Rattle.dl_recursion.specs.Runs.{run_parts, all_parts, part_sum, IsRun, ArePositiveAmounts};
ghost use Rattle.dl_recursion.specs.Recursion.{cell_before, contribution, HasRoom, AreEnds, IsWindow, AreWindows, AreInScale, HasCellsOf, AreGiven, AreContributions};

use crate::cells::{Ends, ScaledCells, Window, Windows};
use crate::parts::{Amounts, Part, Run};
use std::alloc::AllocError;

/// `before * (s - amount) + after * amount`, also where `after` is below `before`: the steps wrap
/// round at 2^64, and the number is below that.
#[tactic(auto, using(crate::proofs::Contributions::wrapped))]
fn amount_factor(before: u64, after: u64, s: usize, amount: usize) -> u64
    requires within { amount ≤ s }
    requires room { max before after * s < 2 ^ 64 }
    ensures { result ≡ before * (s - amount) + after * amount }
{
    let step = after.wrapping_sub(before);
    let first = before.wrapping_mul(s as u64);
    first.wrapping_add(step.wrapping_mul(amount as u64))
}

/// What an amount taken alone gives to cell `s`, the next one, for one end: its factor times the
/// end of the cell that lies it before.
#[tactic(auto, using(crate::proofs::Contributions::factor_le))]
fn contribution(part: Part, before: u64, after: u64, s: usize, cells: &[u64]) -> u128
    requires next { length cells.now ≡ s }
    requires room { HasRoom before after part.weight s }
    requires amount { 0 < part.amount }
    requires within { part.amount ≤ s }
    requires small { (k : ℕ) → slice_index cells.now k ≤ most_end }
    ensures { result ≡ contribution before after cells.now s part }
{
    let factor = amount_factor(before, after, s, part.amount) * part.weight;
    u128::from(factor) * u128::from(cells[s - part.amount])
}

/// Whether the amount is above cell `s`; where `NEAR` says that none is, none is compared.
fn is_above<const NEAR: bool>(part: Part, s: usize) -> bool
    requires near { IsTrue NEAR → part.amount ≤ s }
    ensures { result ≡ not (nat_le part.amount s) }
{
    !NEAR && part.amount > s
}

/// What amounts taken one by one give. One that is above the cell gives nothing; with `NEAR` none
/// is. As a function of its own, which adds one product before it makes the other, it keeps both
/// sums in registers.
#[inline(never)]
fn parts_contribution<const NEAR: bool>(
    parts: &[Part],
    before: u64,
    after: u64,
    low: &[u64],
    high: &[u64],
) -> Ends
    requires ends { AreEnds most_end low.now high.now }
    requires room { HasRoom before after (part_sum parts.now) (length low.now) }
    requires amounts { All (λ p. 0 < p.amount) parts.now }
    requires near { IsTrue NEAR → All (λ p. p.amount ≤ length low.now) parts.now }
    ensures low { result.low ≡ sum_by (contribution before after low.now (length low.now))
        parts.now }
    ensures high { result.high ≡ sum_by (contribution before after high.now (length high.now))
        parts.now }
{
    let s = low.len();
    let mut low_sum: u128 = 0;
    let mut high_sum: u128 = 0;
    for part in parts {
        if is_above::<NEAR>(*part, s) {
            continue;
        }
        low_sum += contribution(*part, before, after, s, low);
        high_sum += contribution(*part, before, after, s, high);
    }
    Ends {
        low: low_sum,
        high: high_sum,
    }
}

/// What amounts taken one by one give. None is above `reach`.
pub(crate) fn alone(
    parts: &[Part],
    reach: usize,
    before: u64,
    after: u64,
    low: &[u64],
    high: &[u64],
) -> Ends
    requires ends { AreEnds most_end low.now high.now }
    requires room { HasRoom before after (part_sum parts.now) (length low.now) }
    requires amounts { All (λ p. 0 < p.amount) parts.now }
    requires reach { All (λ p. p.amount ≤ reach) parts.now }
    ensures low { result.low ≡ sum_by (contribution before after low.now (length low.now))
        parts.now }
    ensures high { result.high ≡ sum_by (contribution before after high.now (length low.now))
        parts.now }
{
    if parts.is_empty() {
        return Ends { low: 0, high: 0 };
    }
    if reach <= low.len() {
        return parts_contribution::<true>(parts, before, after, low, high);
    }
    parts_contribution::<false>(parts, before, after, low, high)
}

/// The end that lies this amount before cell `s`, or 0 where there is none.
pub(crate) fn cell_before(cells: &[u64], s: usize, amount: usize) -> u64
    requires within { s ≤ length cells.now }
    requires amount { 0 < amount }
    ensures { result ≡ cell_before cells.now s amount }
{
    if amount > s {
        return 0;
    }
    cells[s - amount]
}

/// The window of the last cell for one end, added up.
fn window_of(run: Run, cells: &[u64]) -> Window
    requires some { 0 < length cells.now }
    requires small { (k : ℕ) → slice_index cells.now k ≤ most_end }
    requires run { IsRun run }
    ensures { IsWindow cells.now (length cells.now - 1) run result }
{
    let s = cells.len() - 1;
    let reached = run.count.min((s + 1).saturating_sub(run.amount));
    let mut sum: u128 = 0;
    let mut steps: u128 = 0;
    for k in 0..reached {
        let end = u128::from(cell_before(cells, s, run.amount + k));
        sum += end;
        steps += u128::from(k as u64) * end;
    }
    Window { cells: sum, steps }
}

/// The window of the next cell for one end, from that of the last: the cell that lies the run's
/// first amount before comes in, each other one moves on by an amount, and the one past the run's
/// last amount goes out.
fn next_window(last: Window, run: Run, cells: &[u64]) -> Window
    requires some { 0 < length cells.now }
    requires small { (k : ℕ) → slice_index cells.now k ≤ most_end }
    requires run { IsRun run }
    requires last { IsWindow cells.now (length cells.now - 1) run last }
    ensures { IsWindow cells.now (length cells.now) run result }
{
    let s = cells.len();
    let first = u128::from(cell_before(cells, s, run.amount));
    let past = u128::from(cell_before(cells, s, run.amount + run.count));
    Window {
        cells: last.cells + first - past,
        steps: last.steps + last.cells - u128::from(run.count as u64) * past,
    }
}

/// What a run gives, for one end.
fn run_contribution(run: Run, window: Window, before: u64, after: u64, cells: &[u64]) -> u128
    requires small { (k : ℕ) → slice_index cells.now k ≤ most_end }
    requires room { HasRoom before after (part_sum (run_parts run)) (length cells.now) }
    requires run { IsRun run }
    requires window { IsWindow cells.now (length cells.now) run window }
    ensures { result ≡ sum_by (contribution before after cells.now (length cells.now))
        (run_parts run) }
{
    let s = cells.len();
    if run.amount > s {
        return 0;
    }
    let factor = amount_factor(before, after, s, run.amount) * run.weight;
    let first = u128::from(factor) * window.cells;
    if after < before {
        return first - u128::from((before - after) * run.weight) * window.steps;
    }
    first + u128::from((after - before) * run.weight) * window.steps
}

/// Adds up the windows of the last cell, where they are not known.
fn add_up(
    windows: &mut Vec<Windows>,
    runs: &[Run],
    low: &[u64],
    high: &[u64],
) -> Result<(), AllocError>
    requires some { 0 < length low.now }
    requires ends { AreEnds most_end low.now high.now }
    requires runs { All IsRun runs.now }
    requires windows { AreWindows runs.now low.now high.now (length low.now - 1) windows.old.items }
    requires all_or_none { (length windows.old.items ≡ length runs.now)
        ⊎ (length windows.old.items ≡ 0) }
    ensures windows { IfOk result (λ u.
        AreWindows runs.now low.now high.now (length low.now - 1) windows.new.items) }
    ensures each_run { IfOk result (λ u. length windows.new.items ≡ length runs.now) }
{
    if !windows.is_empty() {
        return Ok(());
    }
    'runs: for i in 0..runs.len() {
        windows.push(Windows {
            low: window_of(runs[i], low),
            high: window_of(runs[i], high),
        })?;
    }
    Ok(())
}

/// What runs give. Their windows move on from the last cell to the next.
#[inline(never)]
fn runs_contribution(
    windows: &mut [Windows],
    runs: &[Run],
    before: u64,
    after: u64,
    low: &[u64],
    high: &[u64],
) -> Ends
    requires some { 0 < length low.now }
    requires ends { AreEnds most_end low.now high.now }
    requires room { HasRoom before after (part_sum (flat_map run_parts runs.now)) (length low.now) }
    requires runs { All IsRun runs.now }
    requires windows { AreWindows runs.now low.now high.now (length low.now - 1) windows.old }
    requires each_run { length windows.old ≡ length runs.now }
    ensures low { result.low ≡ sum_by (contribution before after low.now (length low.now))
        (flat_map run_parts runs.now) }
    ensures high { result.high ≡ sum_by (contribution before after high.now (length low.now))
        (flat_map run_parts runs.now) }
    ensures windows { AreWindows runs.now low.now high.now (length low.now) windows.new }
    ensures each_run { length windows.new ≡ length runs.now }
{
    let mut low_sum: u128 = 0;
    let mut high_sum: u128 = 0;
    for i in 0..runs.len() {
        let run = runs[i];
        let last = windows[i];
        let next = Windows {
            low: next_window(last.low, run, low),
            high: next_window(last.high, run, high),
        };
        windows[i] = next;
        low_sum += run_contribution(run, next.low, before, after, low);
        high_sum += run_contribution(run, next.high, before, after, high);
    }
    Ends {
        low: low_sum,
        high: high_sum,
    }
}

/// What runs give.
fn together(x: &mut ScaledCells, runs: &[Run], before: u64, after: u64) -> Result<Ends, AllocError>
    requires in_scale { AreInScale runs.now x.old }
    requires room { HasRoom before after (part_sum (flat_map run_parts runs.now))
        (length x.old.low.items) }
    requires runs { All IsRun runs.now }
    ensures low { IfOk result (λ ends. ends.low
        ≡ sum_by (contribution before after x.old.low.items (length x.old.low.items))
        (flat_map run_parts runs.now)) }
    ensures high { IfOk result (λ ends. ends.high
        ≡ sum_by (contribution before after x.old.high.items (length x.old.low.items))
        (flat_map run_parts runs.now)) }
    ensures windows { IfOk result (λ ends. AreWindows runs.now x.new.low.items x.new.high.items
        (length x.new.low.items) x.new.windows.items) }
    ensures each_run { IfOk result (λ ends. length x.new.windows.items ≡ length runs.now) }
    ensures same { HasCellsOf x.old x.new }
{
    add_up(&mut x.windows, runs, x.low.as_slice(), x.high.as_slice())?;
    let (low, high) = (x.low.as_slice(), x.high.as_slice());
    Ok(runs_contribution(x.windows.as_mut_slice(), runs, before, after, low, high))
}

/// The sum of what each amount adds to the next cell, by its low and its high ends; `alone` is what
/// those give that are taken one by one.
pub(crate) fn contributions(
    x: &mut ScaledCells,
    amounts: &Amounts,
    alone: Ends,
    before: u64,
    after: u64,
) -> Result<Ends, AllocError>
    requires in_scale { AreInScale amounts.now.runs.items x.old }
    requires room { HasRoom before after (part_sum (all_parts amounts.now))
        (length x.old.low.items) }
    requires amounts { ArePositiveAmounts amounts.now }
    requires alone { AreGiven amounts.now.parts.items before after x.old alone }
    ensures { IfOk result (AreContributions amounts.now before after x.old x.new) }
{
    if amounts.runs.is_empty() {
        return Ok(alone);
    }
    let together = together(x, &amounts.runs, before, after)?;
    Ok(Ends {
        low: alone.low + together.low,
        high: alone.high + together.high,
    })
}
