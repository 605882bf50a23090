//! The recursion: cells that share one exponent and are scaled down together.

ghost use Rattle.std.specs.Prelude.{◌≡◌, ℕ, ◌+◌, ◌-◌, ◌*◌, ◌/◌, ◌^◌, ◌<◌, ◌≤◌, ◌⊎◌, List, [], ◌∷◌, length, slice_index, IfOk};
ghost use Rattle.dl_limits.specs.Limits.{most_cells, most_end, most_given, start_bits};
ghost use Rattle.dl_exact.specs.Fraction.{Fraction, whole, ◌*ℚ◌, ◌≤ℚ◌};
ghost use Rattle.dl_recursion.specs.declared.parts.Run.{Run};
ghost use Rattle.dl_recursion.specs.Runs.{all_parts, part_sum, ArePositiveAmounts};
ghost use Rattle.dl_recursion.specs.Recursion.{HasRoomOver, AreWindows, EncloseScaled, AreScaledCells, AreInScale, IsShifted, IsBegun, HasCellsOf, AreGiven, IsGrown, AreFirst};

use crate::cells::{Ends, ScaledCells};
use crate::parts::Amounts;
use crate::quotient::{Inverse, inverse_of, quotient};
use crate::rest::{fill_rest, reach_of};
use crate::sums::{alone, contributions};
use dl_limits::{FIRST_END, MOST_END};
use std::alloc::{AllocError, Global};

/// Each number over 256, rounded down. Those before `first` are 0.
fn lower(cells: &mut [u64], first: usize)
    requires settled { (k : ℕ) → k < first → slice_index cells.old k ≡ 0 }
    ensures each { (k : ℕ) → slice_index cells.new k ≡ slice_index cells.old k / 256 }
{
    for i in first..cells.len() {
        cells[i] = cells[i] / 256;
    }
}

/// Each number over 256, rounded up. Those before `first` are at most 1.
fn raise(cells: &mut [u64], first: usize)
    requires settled { (k : ℕ) → k < first → slice_index cells.old k ≤ 1 }
    requires small { (k : ℕ) → slice_index cells.old k ≤ most_end }
    ensures each { (k : ℕ) → slice_index cells.new k ≡ (slice_index cells.old k + 255) / 256 }
{
    for i in first..cells.len() {
        cells[i] = (cells[i] + 255) / 256;
    }
}

/// How many cells from the first on have the ends 0 and 0, or 0 and 1; `first` of them are known.
fn advance(low: &[u64], high: &[u64], first: usize) -> usize
    requires alike { length high.now ≡ length low.now }
    requires low_settled { (k : ℕ) → k < first → slice_index low.now k ≡ 0 }
    requires high_settled { (k : ℕ) → k < first → slice_index high.now k ≤ 1 }
    requires within { first ≤ length low.now }
    ensures low_settled { (k : ℕ) → k < result → slice_index low.now k ≡ 0 }
    ensures high_settled { (k : ℕ) → k < result → slice_index high.now k ≤ 1 }
    ensures within { result ≤ length low.now }
{
    for i in first..low.len() {
        if low[i] > 0 || high[i] > 1 {
            return i;
        }
    }
    low.len()
}

/// Shifts all cells down by 8 bits, low ends by floor and high ends by ceiling.
fn shift_cells(x: &mut ScaledCells)
    requires sound { AreScaledCells x.old.low.items x.old.high.items x.old.first }
    requires room { x.old.shift + 8 < 2 ^ 64 }
    ensures shifted { IsShifted x.old x.new }
{
    lower(x.low.as_mut_slice(), x.first);
    raise(x.high.as_mut_slice(), x.first);
    x.first = advance(x.low.as_slice(), x.high.as_slice(), x.first);
    x.shift += 8;
}

/// Shifts all cells down by 8 bits. The windows are then outdated, and none is kept.
fn shrink(x: &mut ScaledCells)
    requires sound { AreScaledCells x.old.low.items x.old.high.items x.old.first }
    requires room { x.old.shift + 8 < 2 ^ 64 }
    ensures shifted { IsShifted x.old x.new }
    ensures windows { x.new.windows.items ≡ [] }
{
    shift_cells(x);
    x.windows.clear();
}

/// Shifts all cells down, and the next one with them, until that one is at most 2^62.
fn shift_down(x: &mut ScaledCells, next: Ends) -> Ends
    requires sound { AreScaledCells x.old.low.items x.old.high.items x.old.first }
    requires room { x.old.shift + 64 < 2 ^ 64 }
    requires small { next.high ≤ most_given }
    ensures sound { AreScaledCells x.new.low.items x.new.high.items x.new.first }
    ensures cells { length x.new.low.items ≡ length x.old.low.items }
    ensures shift { x.new.shift ≤ x.old.shift + 64 }
    ensures order { result.low ≤ result.high }
    ensures small { result.high ≤ most_end }
    ensures round { (r : ℕ → Fraction) (n : ℕ)
        → EncloseScaled r x.old.shift n x.old.low.items x.old.high.items
        → EncloseScaled r x.new.shift n x.new.low.items x.new.high.items }
    ensures low { (y : Fraction) → whole (next.low * 2 ^ x.old.shift) ≤ℚ y
        → whole (result.low * 2 ^ x.new.shift) ≤ℚ y }
    ensures high { (y : Fraction) → y ≤ℚ whole (next.high * 2 ^ x.old.shift)
        → y ≤ℚ whole (result.high * 2 ^ x.new.shift) }
    ensures kept { x.new.shift ≡ x.old.shift → HasCellsOf x.old x.new }
    ensures windows { (runs : List Run) (s : ℕ)
        → AreWindows runs x.old.low.items x.old.high.items s x.old.windows.items
        → AreWindows runs x.new.low.items x.new.high.items s x.new.windows.items }
    ensures all_or_none { (length x.new.windows.items ≡ length x.old.windows.items)
        ⊎ (length x.new.windows.items ≡ 0) }
{
    if next.high <= MOST_END {
        return Ends {
            low: next.low.min(next.high),
            high: next.high,
        };
    }
    let mut low = next.low;
    let mut high = next.high;
    for k in 0..8u32 {
        if high > MOST_END {
            low = low / 256;
            high = (high + 255) / 256;
            shrink(x);
        }
    }
    if low > high {
        low = high;
    }
    Ends { low, high }
}

/// The sums over `d`, the low one rounded down and the high one up.
fn divided(sums: Ends, d: u64, inverse: Inverse) -> Ends
    requires positive { 0 < d }
    requires high_room { sums.high ≤ most_given }
    ensures low { result.low ≡ sums.low / d }
    ensures high { result.high ≡ (sums.high + (d - 1)) / d }
{
    let up = sums.high + u128::from(d - 1);
    Ends {
        low: quotient(sums.low, d, inverse),
        high: quotient(up, d, inverse),
    }
}

/// Adds the next cell. The inverse is a guess for the divisor of the last one, and then of this
/// one; `alone` is what the amounts that are taken one by one give to it.
pub(crate) fn grow(
    x: &mut ScaledCells,
    inverse: &mut Inverse,
    amounts: &Amounts,
    alone: Ends,
    before: u64,
    after: u64,
    q: u64,
) -> Result<(), AllocError>
    requires in_scale { AreInScale amounts.now.runs.items x.old }
    requires shift { x.old.shift + 64 < 2 ^ 64 }
    requires amounts { ArePositiveAmounts amounts.now }
    requires alone { AreGiven amounts.now.parts.items before after x.old alone }
    requires room { HasRoomOver q before after (part_sum (all_parts amounts.now))
        (length x.old.low.items) }
    ensures { IfOk result (λ u. IsGrown amounts.now before after q x.old x.new) }
{
    let n = x.low.len();
    let d = q * (n as u64);
    *inverse = inverse_of(d, n, *inverse);
    let sums = contributions(x, amounts, alone, before, after)?;
    let ends = shift_down(x, divided(sums, d, *inverse));
    x.low.push(ends.low as u64)?;
    x.high.push(ends.high as u64)?;
    Ok(())
}

/// Cell 0 in a list with room for `cells` cells.
fn first_end(alloc: Global, cells: usize) -> Result<Vec<u64>, AllocError>
    ensures { IfOk result (λ list. list.items ≡ 2 ^ start_bits ∷ []) }
{
    let mut list = Vec::with_capacity(alloc, cells)?;
    list.push(FIRST_END)?;
    Ok(list)
}

/// Cell 0. It takes memory once: for each end of `cells` cells, and for the windows of the runs.
pub(crate) fn begin(
    alloc: Global,
    amounts: &Amounts,
    cells: usize,
) -> Result<ScaledCells, AllocError>
    ensures { IfOk result IsBegun }
{
    let low = first_end(alloc, cells)?;
    let high = first_end(alloc, cells)?;
    let windows = Vec::with_capacity(alloc, amounts.runs.len())?;
    Ok(ScaledCells {
        low,
        high,
        first: 0,
        shift: 0,
        windows,
    })
}

/// The first `cells` cells of the recursion: one by one until as many low ends as an amount reaches
/// are 0, and the rest with one high end where no later cell can be above it.
pub(crate) fn recur(
    alloc: Global,
    amounts: &Amounts,
    before: u64,
    after: u64,
    q: u64,
    cells: usize,
) -> Result<ScaledCells, AllocError>
    requires some { 0 < cells }
    requires few { cells ≤ most_cells }
    requires amounts { ArePositiveAmounts amounts.now }
    requires some_step { 0 < after }
    requires room { HasRoomOver q before after (part_sum (all_parts amounts.now)) cells }
    ensures { IfOk result (AreFirst (all_parts amounts.now) before after q cells) }
{
    let mut x = begin(alloc, amounts, cells)?;
    let mut inverse = Inverse::none();
    let reach = reach_of(amounts);
    let mut last = 0;
    'cells: for n in 1..cells {
        if fill_rest(&mut x, reach, last, before, after, q, cells)? {
            return Ok(x);
        }
        let (low, high) = (x.low.as_slice(), x.high.as_slice());
        let alone = alone(&amounts.parts, reach.amount, before, after, low, high);
        grow(&mut x, &mut inverse, amounts, alone, before, after, q)?;
        if x.low[n] > 0 {
            last = n;
        }
    }
    Ok(x)
}
