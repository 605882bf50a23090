//! The cells of a Poisson count by blocks, where many amounts are taken one by one. What all cells
//! before a block give to the cells of the block comes from one product of two lists; what the
//! cells of a block give to one another is added up one by one.

ghost use Rattle.std.specs.Prelude.{◌≡◌, ℕ, ◌+◌, ◌*◌, ◌^◌, ◌<◌, ◌≤◌, [], length, slice_index, All, IfOk, IfSome, IsTrue};
ghost use Rattle.dl_limits.specs.Limits.{most_cells, most_end};
ghost use Rattle.dl_recursion.specs.Runs.{all_parts, part_sum, ArePositiveAmounts};
ghost use Rattle.dl_recursion.specs.Recursion.{HasRoom, HasRoomOver, AreScaledCells, AreEnds, AreGiven, AreFirst};
ghost use Rattle.dl_recursion.specs.Blocks.{AreFactors, AreWidths, AreGivenBefore};

use crate::cells::{Ends, ScaledCells};
use crate::parts::{Amounts, Part};
use crate::quotient::Inverse;
use crate::recursion::{begin, grow};
use crate::rest::{fill_rest, reach_of};
use dl_transform::{Buffers, Cells, Setup, product, set_up};
use std::alloc::{AllocError, Global};

/// The number of cells of a block: at this many the sums within blocks take about as long as the
/// products for them.
const BLOCK: usize = 4_096;

/// The least number of amounts taken one by one for which blocks are faster.
pub(crate) const MANY: usize = 8_192;

/// What the first cells give to each of some cells, by low and by high ends.
#[derive(Drop)]
pub struct Given {
    /// By low ends, at cell `n` to that cell.
    pub low: Vec<u128>,
    /// By high ends, as many.
    pub high: Vec<u128>,
    /// How many cells give it: the sums are for the cells from there on.
    pub cells: usize,
    /// The shift of these cells.
    pub shift: u64,
}

/// What no cell gives, to none.
fn nothing_given(alloc: Global) -> Given
    ensures cells { result.cells ≡ 0 }
    ensures low { result.low.items ≡ [] }
    ensures high { result.high.items ≡ [] }
{
    Given {
        low: Vec::new(alloc),
        high: Vec::new(alloc),
        cells: 0,
        shift: 0,
    }
}

/// The factors of the amounts below `cells`: each is `after` times the amount times its weight.
fn factors_of(
    alloc: Global,
    parts: &[Part],
    after: u64,
    cells: usize,
) -> Result<Vec<u64>, AllocError>
    requires room { HasRoom 0 after (part_sum parts.now) cells }
    ensures { IfOk result (λ list. AreFactors parts.now after cells list.items) }
{
    let mut factors = vec![in alloc; 0; cells]?;
    for part in parts {
        if part.amount < cells {
            factors[part.amount] += after * (part.amount as u64) * part.weight;
        }
    }
    Ok(factors)
}

/// The same numbers in 128 bits.
fn widened(alloc: Global, list: &[u64]) -> Result<Vec<u128>, AllocError>
    ensures same { IfOk result (λ wide. wide.items ≡ list.now) }
    ensures small { IfOk result (λ wide. All (λ x. x < 2 ^ 64) wide.items) }
{
    let mut wide = Vec::with_capacity(alloc, list.len())?;
    for x in list {
        wide.push(u128::from(*x))?;
    }
    Ok(wide)
}

/// How far each high end is above its low end; None where one is below.
fn widths_of(alloc: Global, low: &[u64], high: &[u64]) -> Result<Option<Vec<u128>>, AllocError>
    requires alike { length high.now ≡ length low.now }
    ensures { IfOk result (λ made. IfSome made (λ w. AreWidths low.now high.now w.items)) }
{
    let mut widths = Vec::with_capacity(alloc, low.len())?;
    'cells: for k in 0..low.len() {
        if high[k] < low[k] {
            return Ok(None);
        }
        widths.push(u128::from(high[k] - low[k]))?;
    }
    Ok(Some(widths))
}

/// What all cells give to each of the next ones before cell `end`. Or None, where the sums do not
/// fit the transforms: no clause excludes it.
fn given_before(
    alloc: Global,
    x: &ScaledCells,
    factors: &[u64],
    end: usize,
    setup: &Setup,
    buffers: &mut Buffers,
) -> Result<Option<Given>, AllocError>
    requires alike { length x.now.high.items ≡ length x.now.low.items }
    requires end { end ≤ length factors.now }
    ensures given { IfOk result (λ made. IfSome made (AreGivenBefore factors.now x.now)) }
    ensures cells { IfOk result (λ made.
        IfSome made (λ given. given.cells ≡ length x.now.low.items)) }
    ensures shift { IfOk result (λ made. IfSome made (λ given. given.shift ≡ x.now.shift)) }
    ensures end { IfOk result (λ made. IfSome made (λ given. length given.low.items ≡ end)) }
{
    let lows = widened(alloc, x.low.as_slice())?;
    let Some(widths) = widths_of(alloc, x.low.as_slice(), x.high.as_slice())? else {
        return Ok(None);
    };
    let wide = widened(alloc, &factors[..end])?;
    let cells = Cells {
        lows: lows.as_slice(),
        widths: widths.as_slice(),
    };
    let factors = Cells {
        lows: wide.as_slice(),
        widths: &[],
    };
    let mut low = vec![in alloc; 0; end]?;
    let mut high = vec![in alloc; 0; end]?;
    let (lows, highs) = (low.as_mut_slice(), high.as_mut_slice());
    if !product(alloc, cells, Some(factors), setup, buffers, lows, highs)? {
        return Ok(None);
    }
    Ok(Some(Given {
        low,
        high,
        cells: x.low.len(),
        shift: x.shift,
    }))
}

/// Makes `given` what the cells so far give to those of a new block, unless it has a sum for the
/// next cell and no cell was shifted since. False, where the sums do not fit the transforms.
fn next_block(
    alloc: Global,
    given: &mut Given,
    x: &ScaledCells,
    factors: &[u64],
    setup: &Setup,
    buffers: &mut Buffers,
) -> Result<bool, AllocError>
    requires alike { length x.now.high.items ≡ length x.now.low.items }
    requires more { length x.now.low.items < length factors.now }
    requires given { given.old.shift ≡ x.now.shift → AreGivenBefore factors.now x.now given.old }
    ensures given { IfOk result (λ known. IsTrue known
        → AreGivenBefore factors.now x.now given.new) }
    ensures shift { IfOk result (λ known. IsTrue known → given.new.shift ≡ x.now.shift) }
    ensures more { IfOk result (λ known. IsTrue known
        → length x.now.low.items < length given.new.low.items) }
{
    let n = x.low.len();
    if n < given.low.len() && given.shift == x.shift {
        return Ok(true);
    }
    let end = factors.len().min(n + BLOCK);
    match given_before(alloc, x, factors, end, setup, buffers)? {
        Some(next) => *given = next,
        None => return Ok(false),
    }
    Ok(true)
}

/// What amounts taken one by one give to the next cell: what is given by the first cells, and what
/// the others give.
fn with_block(parts: &[Part], after: u64, given: &Given, factors: &[u64], x: &ScaledCells) -> Ends
    requires sound { AreScaledCells x.now.low.items x.now.high.items x.now.first }
    requires room { HasRoom 0 after (part_sum parts.now) (length x.now.low.items) }
    requires amounts { All (λ p. 0 < p.amount) parts.now }
    requires factors { AreFactors parts.now after (length factors.now) factors.now }
    requires within { length x.now.low.items < length factors.now }
    requires given { AreGivenBefore factors.now x.now given.now }
    requires more { length x.now.low.items < length given.now.low.items }
    requires some { 0 < length x.now.low.items }
    ensures { AreGiven parts.now 0 after x.now result }
{
    let s = x.low.len();
    let mut low = given.low[s];
    let mut high = given.high[s];
    for k in given.cells..s {
        let factor = u128::from(factors[s - k]);
        low += u128::from(x.low[k]) * factor;
        high += u128::from(x.high[k]) * factor;
    }
    Ends { low, high }
}

/// Levels of transforms with room for two lists of so many cells.
fn levels_for(cells: usize) -> u32
    requires some { 0 < cells }
    requires few { cells ≤ most_cells }
    ensures { result ≤ 17 }
{
    (2 * cells - 1).ilog2() + 1
}

/// The first `cells` cells of the recursion of a Poisson count by blocks. Or None: no clause says
/// when the sums do not fit the transforms, so a caller has to have another way, and None costs it
/// time alone.
pub(crate) fn by_blocks(
    alloc: Global,
    amounts: &Amounts,
    after: u64,
    q: u64,
    cells: usize,
) -> Result<Option<ScaledCells>, AllocError>
    requires some { 0 < cells }
    requires few { cells ≤ most_cells }
    requires amounts { ArePositiveAmounts amounts.now }
    requires some_step { 0 < after }
    requires room { HasRoomOver q 0 after (part_sum (all_parts amounts.now)) cells }
    ensures { IfOk result (λ made. IfSome made (AreFirst (all_parts amounts.now) 0 after q cells)) }
{
    let Some(setup) = set_up(alloc, levels_for(cells))? else {
        return Ok(None);
    };
    let mut buffers = Buffers::new(alloc);
    let factors = factors_of(alloc, &amounts.parts, after, cells)?;
    let mut given = nothing_given(alloc);
    let mut x = begin(alloc, amounts, cells)?;
    let mut inverse = Inverse::none();
    let reach = reach_of(amounts);
    let mut last = 0;
    'cells: for n in 1..cells {
        if fill_rest(&mut x, reach, last, 0, after, q, cells)? {
            return Ok(Some(x));
        }
        if !next_block(alloc, &mut given, &x, &factors, &setup, &mut buffers)? {
            return Ok(None);
        }
        let alone = with_block(&amounts.parts, after, &given, &factors, &x);
        grow(&mut x, &mut inverse, amounts, alone, 0, after, q)?;
        if x.low[n] > 0 {
            last = n;
        }
    }
    Ok(Some(x))
}
