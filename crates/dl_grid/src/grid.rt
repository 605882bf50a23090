//! Grids: an interval for each number of buckets.

ghost use Rattle.std.specs.Prelude.{◌≡◌, ℕ, ◌+◌, ◌-◌, ◌^◌, ◌<◌, ◌≤◌, min, length, take, get_or, slice_set, sum, All, IfOk, true, false};
ghost use Rattle.dl_limits.specs.Limits.{most_cell_end, most_ends};
ghost use Rattle.dl_grid.specs.Cells.{low_at, high_at, low_ends, high_ends, mass_low, mass_high, spread, all_at_zero};
ghost use Rattle.dl_grid.specs.Cells.{IsGrid, AreEnds};
ghost use Rattle.dl_grid.specs.Room.{IsGridSize};

use dl_iv::{Iv, units_of_one};
use std::alloc::{AllocError, Global};
use std::marker::Model;

/// A cell for each number of buckets from 0 on, 1 to `most_cells_at B` of them. Each cell is at
/// most 1, and the low ends sum to at most 1. A clause sees a grid as the list of its cells; the
/// low ends and the high ends lie in two lists, so that what reads one kind of end reads no other.
#[derive(Drop)]
pub struct Grid<const B: u32> {
    lows: Vec<u128>,
    highs: Vec<u128>,
}

impl<const B: u32> Model for Grid<B> {
    ghost use Rattle.std.specs.Prelude.{List};
    ghost use Rattle.dl_iv.specs.declared.interval.Iv.{Iv};
    ghost use Rattle.dl_grid.specs.Cells.{cells_of, AreEnds};

    ghost Value = { List (Iv B) };

    ghost view = { λ g. cells_of B g.lows.items g.highs.items };

    ghost invariant = { λ g. AreEnds B g.lows.items g.highs.items };
}

fn sum_of(ends: &[u128]) -> u128
    requires { sum ends.now ≤ most_ends }
    ensures { result ≡ sum ends.now }
{
    let mut total = 0;
    for end in ends {
        total += *end;
    }
    total
}

impl<const B: u32> Grid<B> {
    /// The grid with these low ends and these high ends, cell by cell, in units of `1 / 2^B`. It
    /// takes no memory.
    pub fn from_ends(lows: Vec<u128>, highs: Vec<u128>) -> Self
        requires { AreEnds B lows.items highs.items }
        ensures low { low_ends result ≡ lows.items }
        ensures high { high_ends result ≡ highs.items }
        ensures grid { IsGrid result }
    {
        Grid { lows, highs }
    }

    /// The sum that is surely 0, on `cells` cells: cell 0 is the one number 1, and the others are
    /// 0.
    pub fn zero(alloc: Global, cells: u32) -> Result<Self, AllocError>
        requires { IsGridSize B cells }
        ensures cells { IfOk result (λ g. length g ≡ cells) }
        ensures low { IfOk result (λ g. (x : ℕ) → low_at g x ≡ all_at_zero (2 ^ B) x) }
        ensures high { IfOk result (λ g. (x : ℕ) → high_at g x ≡ all_at_zero (2 ^ B) x) }
    {
        let mut lows = Vec::from_elem(alloc, 0, cells as usize)?;
        let mut highs = Vec::from_elem(alloc, 0, cells as usize)?;
        lows[0] = units_of_one(B);
        highs[0] = units_of_one(B);
        Ok(Grid { lows, highs })
    }

    /// The first `cells` cells of a grid. No cells are added.
    #[tactic(auto, using(crate::proofs::EndLists::views))]
    pub fn truncate(alloc: Global, g: &Grid<B>, cells: u32) -> Result<Self, AllocError>
        requires some { 1 ≤ cells }
        requires within { cells ≤ length g.now }
        ensures { IfOk result (λ t. t ≡ take cells g.now) }
    {
        let lows = Vec::from_slice(alloc, &g.lows.as_slice()[..cells as usize])?;
        let highs = Vec::from_slice(alloc, &g.highs.as_slice()[..cells as usize])?;
        Ok(Grid { lows, highs })
    }

    /// How many cells there are, and what is true of those of every grid.
    #[tactic(auto, using(crate::proofs::EndLists::views))]
    pub fn cells(&self) -> u32
        ensures count { result ≡ length self.now }
        ensures grid { IsGrid self.now }
    {
        self.lows.len() as u32
    }

    /// The low ends of the cells, in units of `1 / 2^B`.
    #[tactic(auto, using(crate::proofs::EndLists::views))]
    pub fn lows(&self) -> &[u128]
        ensures ends { result.now ≡ low_ends self.now }
        ensures cells { length result.now ≡ length self.now }
        ensures each { (x : ℕ) → get_or result.now x 0 ≡ low_at self.now x }
        ensures order { (x : ℕ) → low_at self.now x ≤ high_at self.now x }
        ensures small { All (λ low. low ≤ 2 ^ B) result.now }
        ensures fits { All (λ low. low ≤ most_cell_end) result.now }
        ensures grid { IsGrid self.now }
    {
        self.lows.as_slice()
    }

    /// The high ends of the cells, in units of `1 / 2^B`.
    #[tactic(auto, using(crate::proofs::EndLists::views))]
    pub fn highs(&self) -> &[u128]
        ensures ends { result.now ≡ high_ends self.now }
        ensures cells { length result.now ≡ length self.now }
        ensures each { (x : ℕ) → get_or result.now x 0 ≡ high_at self.now x }
        ensures order { (x : ℕ) → low_at self.now x ≤ high_at self.now x }
        ensures small { All (λ high. high ≤ 2 ^ B) result.now }
        ensures fits { All (λ high. high ≤ most_cell_end) result.now }
        ensures grid { IsGrid self.now }
    {
        self.highs.as_slice()
    }

    /// The probability of `x` buckets.
    #[tactic(auto, using(crate::proofs::EndLists::views))]
    pub fn at(&self, x: u32) -> Iv<B>
        requires { x < length self.now }
        ensures low { result.lo ≡ low_at self.now x }
        ensures high { result.hi ≡ high_at self.now x }
        ensures small { result.hi ≤ 2 ^ B }
    {
        Iv {
            lo: self.lows[x as usize],
            hi: self.highs[x as usize],
        }
    }

    /// The probability of at most `x` buckets: the sums of the ends up to `x`, lowered to 1 where
    /// they are above it.
    #[tactic(auto, using(crate::proofs::EndLists::views))]
    pub fn cdf(&self, x: u32) -> Iv<B>
        requires { x < length self.now }
        ensures low { result.lo ≡ min (mass_low (take (x + 1) self.now)) (2 ^ B) }
        ensures high { result.hi ≡ min (mass_high (take (x + 1) self.now)) (2 ^ B) }
    {
        let low = sum_of(&self.lows.as_slice()[..x as usize + 1]);
        let high = sum_of(&self.highs.as_slice()[..x as usize + 1]);
        let one = units_of_one(B);
        Iv {
            lo: low.min(one),
            hi: high.min(one),
        }
    }

    /// The sum of the low ends, in units of `1 / 2^B`.
    #[tactic(auto, using(crate::proofs::EndLists::views))]
    pub fn mass_low(&self) -> u128
        ensures units { result ≡ mass_low self.now }
        ensures small { result ≤ 2 ^ B }
    {
        sum_of(self.lows.as_slice())
    }

    /// The sum of the widths, in units of `1 / 2^B`.
    #[tactic(auto, using(crate::proofs::EndLists::views))]
    pub fn spread(&self) -> u128
        ensures { result ≡ spread self.now }
    {
        let low = sum_of(self.lows.as_slice());
        let high = sum_of(self.highs.as_slice());
        high - low
    }

    /// Writes one cell, and leaves the others as they are.
    #[tactic(auto, using(crate::proofs::EndLists::views))]
    pub fn set(&mut self, x: u32, v: Iv<B>)
        requires within { x < length self.old }
        requires small { v.hi ≤ 2 ^ B }
        requires mass { mass_low self.old - low_at self.old x + v.lo ≤ 2 ^ B }
        ensures { self.new ≡ slice_set self.old x v.entry }
    {
        self.lows[x as usize] = v.lo;
        self.highs[x as usize] = v.hi;
    }

    /// Writes one cell where the grid stays one, and leaves the others as they are; whether it did.
    pub fn try_set(&mut self, x: u32, v: Iv<B>) -> bool
        ensures written { result ≡ true → self.new ≡ slice_set self.old x v.entry }
        ensures left { result ≡ false → self.new ≡ self.old }
        ensures room { x < length self.old → v.entry.hi ≤ 2 ^ B
            → mass_low self.old - low_at self.old x + v.entry.lo ≤ 2 ^ B → result ≡ true }
    {
        let one = units_of_one(B);
        if x >= self.cells() || v.hi > one {
            return false;
        }
        if self.mass_low().saturating_sub(self.at(x).lo) + v.lo > one {
            return false;
        }
        self.set(x, v);
        true
    }
}
