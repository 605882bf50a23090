//! The sums of products of the ends of two operands: of both kinds at once by transforms, or of one
//! kind after the other, by transforms or plainly.

ghost use Rattle.std.specs.Prelude.{◌≡◌, ℕ, ◌+◌, ◌*◌, ◌^◌, ◌<◌, ◌≤◌};
ghost use Rattle.std.specs.Prelude.{true, length, get_or, unwrap_or, IfOk, IfSome};
ghost use Rattle.dl_limits.specs.Limits.{most_cells};
ghost use Rattle.dl_exact.specs.Count.{count_pairs};
ghost use Rattle.dl_convolution.specs.Sums.{ItemsFit};
ghost use Rattle.dl_transform.specs.Products.{other, AreHighSums, AreLowSums};
ghost use Rattle.dl_transform.specs.declared.cells.Cells.{Cells};
ghost use Rattle.dl_product.specs.declared.ends.Ends.{Ends};
ghost use Rattle.dl_product.specs.declared.operand.Operand.{Operand};
ghost use Rattle.dl_product.specs.Operand.{AreEndSums, AreFactors, ArePairSums};
ghost use Rattle.dl_product.specs.Places.{LieFrom};

use crate::ends::Ends;
use crate::operand::Operand;
use crate::steps::{count_before, set_length, spread_out};
use dl_convolution::plain_sums;
use dl_transform::{Buffers, Cells, Setup, product, set_up};
use std::alloc::{AllocError, Global};

/// How many products of items of two lists take the time of one item of a transform at one level:
/// measured.
const PRODUCTS_A_STEP: usize = 8;

/// The tables of transforms, and their buffers.
#[derive(Drop)]
pub(crate) struct Tables {
    setup: Option<Setup>,
    buffers: Buffers,
}

/// Room for sums of products of low ends and of high ends, and what transforms need.
#[derive(Drop)]
pub(crate) struct Room {
    tables: Tables,
    lows: Vec<u128>,
    highs: Vec<u128>,
}

/// The least levels of a transform with room for so many items, at most 17: two lists of at most
/// 65,536 items fit a transform of `2^17` items.
fn levels_for(items: usize) -> u32
    ensures { result ≤ 17 }
{
    for levels in 0..17u32 {
        if items <= 1usize << levels {
            return levels;
        }
    }
    17
}

/// The steps of a transform of `2^levels` items: one for each item at each level.
fn steps_of(levels: u32) -> usize
    requires { levels ≤ 17 }
    ensures { result ≤ 17 * 2 ^ 17 }
{
    (levels as usize) << levels
}

/// The levels of the transform that multiplies two lists, where it takes less time than the
/// products of their items for the first `count` places do.
fn levels_if_shorter(first: usize, second: usize, count: usize) -> Option<u32>
    requires first { first ≤ most_cells }
    requires second { second ≤ most_cells }
    ensures { IfSome result (λ levels. levels ≤ 17) }
{
    let left_out = (first + second).saturating_sub(count);
    let products = (first * second).saturating_sub(left_out * left_out / 2);
    let levels = levels_for(first + second);
    if products > PRODUCTS_A_STEP * steps_of(levels) {
        Some(levels)
    } else {
        None
    }
}

/// The levels of the transform that multiplies both kinds of ends of two operands at once, where it
/// takes less time than other ways and the low ends alone need as many.
fn levels_at_once(a: Operand<'_>, b: Operand<'_>, count: usize) -> Option<u32>
    ensures { IfSome result (λ levels. levels ≤ 17) }
{
    let levels = levels_if_shorter(a.highs.items.len(), b.highs.items.len(), count)?;
    if levels_for(a.lows.items.len() + b.lows.items.len()) < levels {
        return None;
    }
    Some(levels)
}

/// The low ends and widths of an operand that is there.
fn cells_of(b: Option<Operand<'_>>) -> Option<Cells<'_>>
    ensures { (a : Operand) → other a.cells result ≡ (unwrap_or b.entry a).cells }
{
    match b {
        Some(b) => Some(b.cells),
        None => None,
    }
}

/// Its low ends alone.
fn lows_of(b: Option<Operand<'_>>) -> Option<Ends<'_>>
    ensures { (a : Operand) → unwrap_or result a.lows ≡ (unwrap_or b.entry a).lows }
{
    match b {
        Some(b) => Some(b.lows),
        None => None,
    }
}

/// Its high ends.
fn highs_of(b: Option<Operand<'_>>) -> Option<Ends<'_>>
    ensures { (a : Operand) → unwrap_or result a.highs ≡ (unwrap_or b.entry a).highs }
{
    match b {
        Some(b) => Some(b.highs),
        None => None,
    }
}

/// The items of ends that are there, as cells with no widths.
fn items_of(b: Option<Ends<'_>>) -> Option<Cells<'_>>
    ensures { (a : Ends) → (first : Cells) → first.lows ≡ a.items
        → (other first result).lows ≡ (unwrap_or b.entry a).items }
{
    match b {
        Some(b) => Some(b.cells()),
        None => None,
    }
}

impl Tables {
    /// Makes the tables for transforms of `2^levels` items, unless there are some for as many.
    fn prepare(&mut self, alloc: Global, levels: u32) -> Result<(), AllocError>
        requires { levels < 40 }
    {
        if let Some(setup) = &self.setup {
            if setup.levels() >= levels {
                return Ok(());
            }
        }
        self.setup = set_up(alloc, levels)?;
        Ok(())
    }

    /// Whether transforms of `2^levels` items find the first sums of products of two lists of
    /// cells, or of one with itself, as many as `lows` and `highs` have room for; then these have
    /// them.
    fn transform(
        &mut self,
        alloc: Global,
        levels: u32,
        a: Cells<'_>,
        b: Option<Cells<'_>>,
        lows: &mut [u128],
        highs: &mut [u128],
    ) -> Result<bool, AllocError>
        requires levels { levels < 40 }
        requires fewer { length highs.old ≤ length lows.old }
        ensures low { IfOk result (λ found. found ≡ true
            → AreLowSums a.entry (other a.entry b.entry) (length lows.old) lows.new) }
        ensures high { IfOk result (λ found. found ≡ true
            → AreHighSums a.entry (other a.entry b.entry) (length highs.old) highs.new) }
    {
        self.prepare(alloc, levels)?;
        let Some(setup) = &self.setup else {
            return Ok(false);
        };
        product(alloc, a, b, setup, &mut self.buffers, lows, highs)
    }
}

/// The first sums of products of two lists of ends, or of one with itself, as many as `out` has
/// room for, the shorter way.
fn write_sums(
    alloc: Global,
    tables: &mut Tables,
    a: Ends<'_>,
    b: Option<Ends<'_>>,
    out: &mut [u128],
) -> Result<(), AllocError>
    requires { ItemsFit a.items.now (unwrap_or b a).items.now (length out.old) }
    ensures { IfOk result (λ _.
        ArePairSums a.entry (unwrap_or b.entry a.entry) (length out.old) out.new) }
{
    let other = b.unwrap_or(a);
    let levels = levels_if_shorter(a.items.len(), other.items.len(), out.len());
    if let Some(levels) = levels {
        if tables.transform(alloc, levels, a.cells(), items_of(b), out, &mut [])? {
            return Ok(());
        }
    }
    plain_sums(a.items, other.items, out);
    Ok(())
}

impl Room {
    /// Room for nothing yet. It takes no memory.
    pub(crate) fn new(alloc: Global) -> Self {
        Room {
            tables: Tables {
                setup: None,
                buffers: Buffers::new(alloc),
            },
            lows: Vec::new(alloc),
            highs: Vec::new(alloc),
        }
    }

    /// Whether transforms of `2^levels` items find the sums of products of both kinds of ends of
    /// two operands at once; then the room has the first `count` of them.
    fn multiply(
        &mut self,
        alloc: Global,
        levels: u32,
        a: Operand<'_>,
        b: Option<Operand<'_>>,
        count: usize,
    ) -> Result<bool, AllocError>
        requires { levels < 40 }
        ensures low_count { IfOk result (λ _. length self.new.lows.items ≡ count) }
        ensures high_count { IfOk result (λ _. length self.new.highs.items ≡ count) }
        ensures low { IfOk result (λ found. found ≡ true → AreLowSums a.entry.cells
            (unwrap_or b.entry a.entry).cells count self.new.lows.items) }
        ensures high { IfOk result (λ found. found ≡ true → ArePairSums a.entry.highs
            (unwrap_or b.entry a.entry).highs count self.new.highs.items) }
    {
        set_length(&mut self.lows, count)?;
        set_length(&mut self.highs, count)?;
        let lows = self.lows.as_mut_slice();
        let highs = self.highs.as_mut_slice();
        let second = cells_of(b);
        self.tables
            .transform(alloc, levels, a.cells, second, lows, highs)
    }

    /// The sums of the products of the low ends and of the high ends of two grids, both at once,
    /// where that takes less time than one kind after the other.
    fn sums_at_once(
        &mut self,
        alloc: Global,
        a: Operand<'_>,
        b: Option<Operand<'_>>,
        cells: u32,
    ) -> Result<Option<(Vec<u128>, Vec<u128>)>, AllocError>
        requires { (unwrap_or b a).step ≡ a.step }
        ensures { IfOk result (λ o. IfSome o (λ v.
            AreEndSums a.entry (unwrap_or b.entry a.entry) cells v.0.items v.1.items)) }
    {
        let other = b.unwrap_or(a);
        let start = a.highs.start + other.highs.start;
        let most = a.highs.items.len() + other.highs.items.len();
        let count = count_before(cells as usize, start, a.step, most);
        let Some(levels) = levels_at_once(a, other, count) else {
            return Ok(None);
        };
        if !self.multiply(alloc, levels, a, b, count)? {
            return Ok(None);
        }
        let lows = spread_out(alloc, self.lows.as_slice(), start, a.step, cells)?;
        let highs = spread_out(alloc, self.highs.as_slice(), start, a.step, cells)?;
        Ok(Some((lows, highs)))
    }

    /// The sums of the products of two lists of ends that lie `step` apart, one for each of the
    /// first `cells` cells.
    fn list_sums(
        &mut self,
        alloc: Global,
        a: Ends<'_>,
        b: Option<Ends<'_>>,
        step: usize,
        cells: u32,
    ) -> Result<Vec<u128>, AllocError>
        requires some { 0 < step }
        requires fit { ItemsFit a.items.now (unwrap_or b a).items.now cells }
        ensures cells { IfOk result (λ v. length v.items ≡ cells) }
        ensures sums { IfOk result (λ v. (f h : ℕ → ℕ)
            → LieFrom a.entry.start step (λ k. get_or a.entry.items.now k 0) f
            → LieFrom (unwrap_or b.entry a.entry).start step
            (λ k. get_or (unwrap_or b.entry a.entry).items.now k 0) h
            → (s : ℕ) → s < cells → get_or v.items s 0 ≡ count_pairs s (λ i j. f i * h j)) }
    {
        let other = b.unwrap_or(a);
        let start = a.start + other.start;
        let most = a.items.len() + other.items.len();
        let count = count_before(cells as usize, start, step, most);
        set_length(&mut self.lows, count)?;
        write_sums(alloc, &mut self.tables, a, b, self.lows.as_mut_slice())?;
        spread_out(alloc, self.lows.as_slice(), start, step, cells)
    }

    /// The sums of the products of the low ends and of the high ends of two grids, one for each of
    /// the first `cells` cells. Where `b` is none, that of a grid and itself. Where the low ends
    /// alone need shorter transforms than the high ends, one kind of ends is multiplied after the
    /// other, and else both at once.
    pub(crate) fn sums(
        &mut self,
        alloc: Global,
        a: Operand<'_>,
        b: Option<Operand<'_>>,
        cells: u32,
    ) -> Result<(Vec<u128>, Vec<u128>), AllocError>
        requires { AreFactors a (unwrap_or b a) cells }
        ensures { IfOk result (λ v.
            AreEndSums a.entry (unwrap_or b.entry a.entry) cells v.0.items v.1.items) }
    {
        if let Some(sums) = self.sums_at_once(alloc, a, b, cells)? {
            return Ok(sums);
        }
        let lows = self.list_sums(alloc, a.lows, lows_of(b), a.step, cells)?;
        let highs = self.list_sums(alloc, a.highs, highs_of(b), a.step, cells)?;
        Ok((lows, highs))
    }
}
