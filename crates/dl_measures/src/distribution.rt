//! The running sums of a grid.

ghost use Rattle.std.specs.Prelude.{◌≡◌, ◌+◌, ◌-◌, ◌^◌, ◌<◌, ◌≤◌, min, suc, take, length, IfOk, IfSome};
ghost use Rattle.dl_exact.specs.Count.{count_below};
ghost use Rattle.dl_grid.specs.Cells.{low_at, high_at, mass_low, mass_high, spread, IsGrid};
ghost use Rattle.dl_measures.specs.Running.{AreFew, AreMarks, IsRunning, IsRunningOf};

use crate::marks::{Mark, Running, marks_of};
use dl_grid::{Grid, units_of_one};
use dl_iv::Iv;
use std::alloc::{AllocError, Global};
use std::marker::Model;

/// A grid with marks of its running sums, from which the distribution at an amount is read, and the
/// mean of a layer is a difference. A clause sees it as the grid.
#[derive(Drop)]
pub struct Distribution<'a, const B: u32> {
    grid: &'a Grid<B>,
    /// The marks of the low ends; none where each sum is read by a walk over the grid.
    lows: Option<Vec<Mark>>,
    /// Those of the high ends.
    highs: Option<Vec<Mark>>,
}

impl<'a, const B: u32> Model for Distribution<'a, B> {
    ghost use Rattle.std.specs.Prelude.{◌^◌, List, IfSome};
    ghost use Rattle.dl_iv.specs.declared.interval.Iv.{Iv};
    ghost use Rattle.dl_grid.specs.Cells.{IsGrid, low_ends, high_ends};
    ghost use Rattle.dl_measures.specs.Running.{AreMarks};

    ghost Value = { List (Iv B) };

    ghost view = { λ d. d.grid.now };

    ghost invariant = { λ d. IsGrid d.grid.now
        × (IfSome d.lows (λ marks. AreMarks (2 ^ B) (low_ends d.grid.now) marks.items)
        × IfSome d.highs (λ marks. AreMarks (2 ^ B) (high_ends d.grid.now) marks.items)) };
}

/// The running sums of these ends, from the marks that there are.
fn running<'a>(ends: &'a [u128], marks: &'a Option<Vec<Mark>>, one: u128) -> Running<'a>
    requires few { AreFew one ends.now }
    requires marks { IfSome marks.now (λ marks. AreMarks one ends.now marks.items) }
    ensures one { result.one ≡ one }
    ensures ends { result.ends.now ≡ ends.now }
    ensures running { IsRunning result.one result.ends.now result.marks.now }
{
    let marks = match marks {
        Some(marks) => marks.as_slice(),
        None => &[],
    };
    Running { one, ends, marks }
}

impl<'a, const B: u32> Distribution<'a, B> {
    /// A grid with its running sums marked: two passes over its cells, and memory for one mark of
    /// each block of cells.
    pub fn of(alloc: Global, grid: &'a Grid<B>) -> Result<Self, AllocError>
        ensures { IfOk result (λ distribution. distribution ≡ grid.now) }
    {
        let (lows, highs) = (grid.lows(), grid.highs());
        let one = units_of_one(B);
        Ok(Distribution {
            grid,
            lows: Some(marks_of(alloc, one, lows)?),
            highs: Some(marks_of(alloc, one, highs)?),
        })
    }

    /// A grid of which few sums are asked: each is a walk over its cells from the first on. It
    /// takes no memory.
    pub fn walked(grid: &'a Grid<B>) -> Self
        ensures { result ≡ grid.now }
    {
        prove!(grid.cells() > 0);
        Distribution {
            grid,
            lows: None,
            highs: None,
        }
    }

    /// How many cells there are, and what is true of those of every grid.
    pub fn cells(&self) -> u32
        ensures count { result ≡ length self.now }
        ensures grid { IsGrid self.now }
    {
        self.grid.cells()
    }

    /// The probability of `x` buckets.
    pub fn at(&self, x: u32) -> Iv<B>
        requires { x < length self.now }
        ensures low { result.lo ≡ low_at self.now x }
        ensures high { result.hi ≡ high_at self.now x }
        ensures small { result.hi ≤ 2 ^ B }
    {
        self.grid.at(x)
    }

    /// The running sums of the low ends.
    pub(crate) fn lows(&self) -> Running<'_>
        ensures grid { IsGrid self.now }
        ensures sums { IsRunningOf (2 ^ B) (low_at self.now) (length self.now) result.one result.ends.now result.marks.now }
    {
        running(self.grid.lows(), &self.lows, units_of_one(B))
    }

    /// The running sums of the high ends.
    pub(crate) fn highs(&self) -> Running<'_>
        ensures grid { IsGrid self.now }
        ensures sums { IsRunningOf (2 ^ B) (high_at self.now) (length self.now) result.one result.ends.now result.marks.now }
    {
        running(self.grid.highs(), &self.highs, units_of_one(B))
    }

    /// The probability of at most `x` buckets: the sums of the ends up to `x`, lowered to 1 where
    /// they are above it.
    pub fn cdf(&self, x: u32) -> Iv<B>
        requires { x < length self.now }
        ensures low { result.lo ≡ min (mass_low (take (x + 1) self.now)) (2 ^ B) }
        ensures high { result.hi ≡ min (mass_high (take (x + 1) self.now)) (2 ^ B) }
    {
        let next = x as usize + 1;
        let low = self.lows().at(next).sum;
        let high = self.highs().at(next).sum;
        let one = units_of_one(B);
        Iv {
            lo: low.min(one),
            hi: high.min(one),
        }
    }

    /// The sum of the widths, in units of `1 / 2^B`.
    pub fn spread(&self) -> u128
        ensures { result ≡ spread self.now }
    {
        let cells = self.cells() as usize;
        self.highs().at(cells).sum - self.lows().at(cells).sum
    }

    /// The mean of the layer of `limit` above `attach`, in buckets: what the distribution leaves of
    /// 1, added up over the layer.
    pub(crate) fn finite_layer(&self, limit: u32, attach: u32) -> Iv<B>
        requires inside { attach + limit ≤ length self.now }
        ensures low { result.lo ≡ count_below limit
            (λ i. 2 ^ B - min (2 ^ B) (count_below (suc (attach + i)) (high_at self.now))) }
        ensures high { result.hi ≡ count_below limit
            (λ i. 2 ^ B - count_below (suc (attach + i)) (low_at self.now)) }
    {
        let first = attach as usize;
        let last = first + limit as usize;
        Iv {
            lo: self.highs().layer(first, last),
            hi: self.lows().layer(first, last),
        }
    }
}
