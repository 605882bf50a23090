//! The cells of a count of whole shape, where the amounts are one run: each pass over the cells
//! makes them those of one shape more, from the sum of the cells that lie an amount before.

ghost use Rattle.std.specs.Prelude.{◌≡◌, ℕ, ◌+◌, ◌-◌, ◌*◌, ◌/◌, ◌^◌, ◌<◌, ◌≤◌, length, set, replicate, slice_index, IfOk, IfSome, IsTrue};
ghost use Rattle.dl_limits.specs.Limits.{most_cells, most_end, start_bits, least_pass_end};
ghost use Rattle.dl_exact.specs.Fraction.{Fraction};
ghost use Rattle.dl_recursion.specs.Runs.{run_parts, IsRun};
ghost use Rattle.dl_recursion.specs.Recursion.{cell_before, EncloseScaled, AreEnds, AreFirst};
ghost use Rattle.dl_recursion.specs.Geometric.{IsRaisedBy, only_first};
ghost use Rattle.dl_recursion.specs.Passes.{window_sum, IsFactor, AreUpTo};

use crate::cells::ScaledCells;
use crate::parts::Run;
use crate::rest::greatest_from;
use crate::sums::cell_before;
use dl_limits::{FIRST_END, MOST_END};
use std::alloc::{AllocError, Global};

/// The greatest shape that is reached by passes.
pub(crate) const MOST_PASSES: u64 = 8;

/// The most amounts of a run whose sums fit their words.
const MOST_COUNT: usize = 64;

/// A cell one by one takes as long as about 11 cells of a pass, and the low ends are 0 after about
/// 45 times the middle amount over 1 less all probabilities: 11 * 45 cells of passes in these units
/// are as much work.
const EQUAL_WORK: u64 = 500;

/// The cell that lies this amount before cell `s`, where `last` is the cell right before it. That
/// one was written just now, and is read sooner from its variable than from the list.
fn coming_in(last: u64, cells: &[u64], s: usize, amount: usize) -> u64
    requires some { 0 < s }
    requires within { s ≤ length cells.now }
    requires amount { 0 < amount }
    requires last { last ≡ slice_index cells.now (s - 1) }
    ensures { result ≡ cell_before cells.now s amount }
{
    if amount == 1 {
        return last;
    }
    cell_before(cells, s, amount)
}

/// The sum of the cells that lie an amount of the run before cell `s`, from `sum`, that of cell
/// `s - 1`: one cell comes in, and one goes out. `last` is cell `s - 1` itself.
fn slid(sum: u64, last: u64, run: Run, cells: &[u64], s: usize) -> u64
    requires some { 0 < s }
    requires within { s ≤ length cells.now }
    requires run { IsRun run }
    requires last { last ≡ slice_index cells.now (s - 1) }
    requires sum { sum ≡ window_sum cells.now (s - 1) run }
    requires room { sum + cell_before cells.now s run.amount < 2 ^ 64 }
    ensures { result ≡ window_sum cells.now s run }
{
    sum + coming_in(last, cells, s, run.amount) - cell_before(cells, s, run.amount + run.count)
}

/// The sum times the factor, which is in units of 1 / 2^64, rounded down.
fn share(sum: u64, factor: u64) -> u64
    ensures { result ≡ sum * factor / 2 ^ 64 }
{
    ((u128::from(sum) * u128::from(factor)) >> 64) as u64
}

/// The end over `2^down`, rounded up.
fn raised(end: u64, down: u32) -> u64
    requires down { down ≤ 16 }
    requires small { end ≤ most_end }
    ensures { result ≡ (end + (2 ^ down - 1)) / 2 ^ down }
{
    (end + ((1 << down) - 1)) >> down
}

/// One pass, in place: the cells become those of one shape more, shifted down by `down` bits. False,
/// with cells that say nothing, where an end would be above `most`.
fn pass(run: Run, factor: u64, down: u32, most: u64, low: &mut [u64], high: &mut [u64]) -> bool
    requires some { 0 < length low.old }
    requires run { IsRun run }
    requires factor { factor + 1 < 2 ^ 64 }
    requires down { down ≤ 16 }
    requires most { most ≤ most_end }
    requires room { (run.count + 1) * most + 1 < 2 ^ 64 }
    requires ends { AreEnds most low.old high.old }
    ensures low_small { IsTrue result → (k : ℕ) → slice_index low.new k ≤ most }
    ensures high_small { IsTrue result → (k : ℕ) → slice_index high.new k ≤ most }
    ensures round { IsTrue result → (q e : ℕ) (u r : ℕ → Fraction) → 0 < q
        → IsFactor run.weight q factor → IsRaisedBy (run_parts run) q u r
        → EncloseScaled u e (length low.old) low.old high.old
        → EncloseScaled r (e + down) (length low.old) low.new high.new }
{
    low[0] = low[0] >> down;
    high[0] = raised(high[0], down);
    let mut low_end = low[0];
    let mut high_end = high[0];
    let mut low_sum = 0;
    let mut high_sum = 0;
    'cells: for s in 1..low.len() {
        low_sum = slid(low_sum, low_end, run, low, s);
        high_sum = slid(high_sum, high_end, run, high, s);
        low_end = share(low_sum, factor) + (low[s] >> down);
        high_end = share(high_sum, factor + 1) + 1 + raised(high[s], down);
        if low_end.max(high_end) > most {
            return false;
        }
        low[s] = low_end;
        high[s] = high_end;
    }
    true
}

/// The weight over `q`, in units of 1 / 2^64, rounded down. None where it is 1 or more, or so near
/// below that the next number does not fit its word.
fn factor_of(weight: u64, q: u64) -> Option<u64>
    requires divisor { 0 < q }
    ensures small { IfSome result (λ factor. factor + 1 < 2 ^ 64) }
    ensures factor { IfSome result (λ factor. IsFactor weight q factor) }
{
    let unit: u128 = 1 << 64;
    let factor = u128::from(weight) * unit / u128::from(q);
    if factor >= u128::from(u64::MAX) {
        return None;
    }
    Some(factor as u64)
}

/// The least shift by which cell 0 is at most `most`.
fn first_shift(most: u64) -> u32
    requires most { least_pass_end ≤ most }
    ensures few { result ≤ 4 }
    ensures small { 2 ^ start_bits / 2 ^ result ≤ most }
{
    for shift in 0..4u32 {
        if FIRST_END >> shift <= most {
            return shift;
        }
    }
    4
}

/// Cell 0, and zeros after it.
fn first_end(alloc: Global, first: u64, cells: usize) -> Result<Vec<u64>, AllocError>
    requires some { 0 < cells }
    ensures { IfOk result (λ list. list.items ≡ set (replicate cells 0) 0 first) }
{
    let mut list = vec![in alloc; 0; cells]?;
    list[0] = first;
    Ok(list)
}

/// The cells of shape 0, shifted down: cell 0, and zeros after it. It takes memory once for each
/// end.
fn begin(alloc: Global, shift: u32, most: u64, cells: usize) -> Result<ScaledCells, AllocError>
    requires some { 0 < cells }
    requires few { shift ≤ 4 }
    requires small { 2 ^ start_bits / 2 ^ shift ≤ most }
    ensures cells { IfOk result (λ x. AreUpTo cells most x) }
    ensures shift { IfOk result (λ x. x.shift ≡ shift) }
    ensures round { IfOk result (λ x. EncloseScaled only_first x.shift cells x.low.items
        x.high.items) }
{
    let low = first_end(alloc, FIRST_END >> shift, cells)?;
    let high = first_end(alloc, FIRST_END >> shift, cells)?;
    let windows = vec![in alloc]?;
    Ok(ScaledCells {
        low,
        high,
        first: 0,
        shift: u64::from(shift),
        windows,
    })
}

/// One pass over the cells. False, with cells that say nothing, where an end would be above `most`.
fn raise_all(run: Run, factor: u64, down: u32, most: u64, x: &mut ScaledCells) -> bool
    requires some { 0 < length x.old.low.items }
    requires cells { AreUpTo (length x.old.low.items) most x.old }
    requires shift { x.old.shift + down < 2 ^ 64 }
    requires run { IsRun run }
    requires factor { factor + 1 < 2 ^ 64 }
    requires down { down ≤ 16 }
    requires most { most ≤ most_end }
    requires room { (run.count + 1) * most + 1 < 2 ^ 64 }
    ensures cells { IsTrue result → AreUpTo (length x.old.low.items) most x.new }
    ensures shift { x.new.shift ≡ x.old.shift + down }
    ensures round { IsTrue result → (q : ℕ) (u r : ℕ → Fraction) → 0 < q
        → IsFactor run.weight q factor → IsRaisedBy (run_parts run) q u r
        → EncloseScaled u x.old.shift (length x.old.low.items) x.old.low.items x.old.high.items
        → EncloseScaled r x.new.shift (length x.old.low.items) x.new.low.items x.new.high.items }
{
    let done = pass(
        run,
        factor,
        down,
        most,
        x.low.as_mut_slice(),
        x.high.as_mut_slice(),
    );
    x.shift += u64::from(down);
    done
}

/// What the probabilities of all amounts leave of 1, in units of 1 / 2^64.
fn left_of_one(run: Run, factor: u64) -> u128
    ensures { result ≤ 2 ^ 64 }
{
    let one: u128 = 1 << 64;
    one.saturating_sub(u128::from(factor) * u128::from(run.count as u64))
}

/// The greatest end before a pass for which no end after it is above `most`: a pass makes no end
/// greater than by 1 over `left`, but for its rounding.
fn room_before(left: u128, most: u64) -> u64
    requires left { left ≤ 2 ^ 64 }
    requires most { most ≤ most_end }
{
    ((u128::from(most) * left) >> 64) as u64
}

/// Whether passes over all cells are less work than the cells one by one, which end early where
/// their low ends are 0.
fn is_less_work(run: Run, left: u128, shape: u64, cells: usize) -> bool
    requires left { left ≤ 2 ^ 64 }
    requires end { run.amount + run.count ≤ 2 ^ 32 }
    requires shape { shape ≤ 8 }
    requires few { cells ≤ most_cells }
{
    let middle = (run.amount + run.count / 2) as u64;
    let work = u128::from(shape * cells as u64);
    (work * left) >> 64 <= u128::from(EQUAL_WORK * middle)
}

/// The bits, at most 16, by which the ends have to be shifted down to be at most `room`.
fn bits_down(high: &[u64], room: u64) -> u32
    requires small { (k : ℕ) → slice_index high.now k ≤ most_end }
    ensures { result ≤ 16 }
{
    let greatest = greatest_from(high, 0);
    for down in 0..16u32 {
        if greatest >> down <= room {
            return down;
        }
    }
    16
}

/// The first `cells` cells of a shape, by as many passes. Or None: no clause says when passes are
/// more work or an end grows too large, so a caller has to have another way, and None costs it time
/// alone.
pub(crate) fn by_passes(
    alloc: Global,
    run: Run,
    shape: u64,
    q: u64,
    cells: usize,
) -> Result<Option<ScaledCells>, AllocError>
    requires run { IsRun run }
    requires few { cells ≤ most_cells }
    requires shape { 0 < shape }
    requires divisor { 0 < q }
    ensures { IfOk result (λ made.
        IfSome made (AreFirst (run_parts run) 1 shape q cells)) }
{
    if cells < 2 || shape > MOST_PASSES || run.count > MOST_COUNT {
        return Ok(None);
    }
    let Some(factor) = factor_of(run.weight, q) else {
        return Ok(None);
    };
    let left = left_of_one(run, factor);
    if !is_less_work(run, left, shape, cells) {
        return Ok(None);
    }
    let most = ((u64::MAX - 1) / (run.count as u64 + 1)).min(MOST_END as u64);
    let room = room_before(left, most);
    let mut x = begin(alloc, first_shift(most), most, cells)?;
    if !raise_all(run, factor, 0, most, &mut x) {
        return Ok(None);
    }
    'shapes: for k in 1..shape {
        let down = bits_down(x.high.as_slice(), room);
        if !raise_all(run, factor, down, most, &mut x) {
            return Ok(None);
        }
    }
    Ok(Some(x))
}
