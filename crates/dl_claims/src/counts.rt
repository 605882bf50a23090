//! A listed number of claims.

ghost use Rattle.std.specs.Prelude.{◌≡◌, ℕ, suc, ◌+◌, ◌-◌, ◌*◌, ◌/◌, ◌^◌, ◌<◌, ◌≤◌, min, length, IfOk};
ghost use Rattle.std.specs.Int.{div_ceil};
ghost use Rattle.dl_limits.specs.Limits.{most_weights};
ghost use Rattle.dl_grid.specs.Prelude.{low_at, high_at, mass_low, spread, all_at_zero, convolution_spread, mixed_spread};
ghost use Rattle.dl_exact.specs.Count.{count_pairs};
ghost use Rattle.dl_plan.specs.Weighted.{weight_at, weight_sum, greatest};
ghost use Rattle.dl_claims.specs.Powers.{EnclosesListed};

use crate::listed::Listed;
use crate::shares::{greatest_of, share, weight_of};
use crate::widths::spread_of_counts;
use dl_grid::{Grid, empty_grid, units_of_one};
use dl_iv::Iv;
use dl_plan::Item;
use dl_product::{Workspace, product};
use std::alloc::{AllocError, Global};

/// Adds an interval to cell 0, and lowers its high end to 1 where it is above.
#[tactic(auto, using(dl_grid::proofs::CellSets::low_added, dl_grid::proofs::CellSets::high_added, dl_grid::proofs::CellSets::high_kept, dl_grid::proofs::CellSets::mass_set, dl_grid::proofs::CellSets::spread_set, dl_grid::proofs::CellSets::low_in_mass))]
fn add_at_zero<const B: u32>(grid: &mut Grid<B>, more: Iv<B>)
    requires some { 1 ≤ length grid.old }
    requires small { more.hi ≤ 2 ^ B }
    requires mass { mass_low grid.old + more.lo ≤ 2 ^ B }
    ensures cells { length grid.new ≡ length grid.old }
    ensures low { (x : ℕ) → low_at grid.new x ≡ low_at grid.old x + all_at_zero more.entry.lo x }
    ensures high { high_at grid.new 0 ≡ min (high_at grid.old 0 + more.entry.hi) (2 ^ B) }
    ensures others { (x : ℕ) → high_at grid.new (suc x) ≡ high_at grid.old (suc x) }
    ensures mass { mass_low grid.new ≡ mass_low grid.old + more.entry.lo }
    ensures spread { spread grid.new ≤ spread grid.old + (more.entry.hi - more.entry.lo) }
{
    let sum = grid.at(0).add(more);
    grid.set(0, sum.clamp_to(units_of_one(B)));
}

/// One step of Horner's rule: one claim more before each of the counts so far, and the next lower
/// count's share, which leaves no claim, at 0. The base is a factor of each step.
fn one_claim_more<const B: u32>(
    alloc: Global,
    work: &mut Workspace,
    base: &Grid<B>,
    later: &Grid<B>,
    share: Iv<B>,
    cells: u32,
) -> Result<Grid<B>, AllocError>
    requires some { 1 ≤ cells }
    requires in_base { cells ≤ length base.now }
    requires in_later { cells ≤ length later.now }
    requires small { share.hi ≤ 2 ^ B }
    requires mass { mass_low later.now + share.lo ≤ 2 ^ B }
    ensures cells { IfOk result (λ g. length g ≡ cells) }
    ensures low { IfOk result (λ g. (s : ℕ) → s < cells → low_at g s
        ≡ count_pairs s (λ i j. low_at base.now i * low_at later.now j) / 2 ^ B
        + all_at_zero share.entry.lo s) }
    ensures high { IfOk result (λ g. (s : ℕ) → s < cells → high_at g s
        ≡ min (min (2 ^ B)
        (div_ceil (count_pairs s (λ i j. high_at base.now i * high_at later.now j)) (2 ^ B))
        + all_at_zero share.entry.hi s) (2 ^ B)) }
    ensures mass { IfOk result (λ g. mass_low g ≤ mass_low later.now + share.entry.lo) }
    ensures spread { IfOk result (λ g. spread g ≤ convolution_spread (2 ^ B) cells (spread base.now)
        (spread later.now) + (share.entry.hi - share.entry.lo)) }
{
    prove!(cells <= base.cells());
    let mut grid = product(alloc, work, base, later, cells)?;
    add_at_zero(&mut grid, share);
    Ok(grid)
}

/// The share of the total that the weight of the number `count` has, rounded outward.
fn share_of<const B: u32>(table: &[Item], count: u32, total: u64) -> Iv<B>
    requires scale_above { 1 ≤ B }
    requires scale_below { B ≤ 56 }
    requires sum { weight_sum table.now ≡ total }
    requires positive { 0 < total }
    ensures low { result.lo ≡ 2 ^ B * weight_at table.now count / total }
    ensures high { result.hi ≡ div_ceil (2 ^ B * weight_at table.now count) total }
    ensures small { result.hi ≤ 2 ^ B }
{
    share(weight_of(table, u64::from(count)), total)
}

impl<const B: u32> Listed<'_, B> {
    /// The sum by Horner's rule: it goes from the greatest number down, with one product for each
    /// number below it. Besides the base two grids are held at a time.
    fn by_horner(self, alloc: Global, work: &mut Workspace) -> Result<Grid<B>, AllocError>
        ensures cells { IfOk result (λ g. length g ≡ self.entry.cells) }
        ensures encloses { IfOk result (λ g.
            EnclosesListed self.entry.base.now self.entry.table.now g) }
        ensures spread { IfOk result (λ g. spread g ≤ mixed_spread (2 ^ B) self.entry.cells
            (spread self.entry.base.now) (greatest self.entry.table.now)) }
    {
        prove!(self.base.cells() > 0);
        let greatest = greatest_of(self.table);
        let mut grid = empty_grid(alloc, self.cells)?;
        add_at_zero(&mut grid, share_of(self.table, greatest, self.total));
        for step in 0..greatest {
            let share = share_of(self.table, greatest - step - 1, self.total);
            grid = one_claim_more(alloc, work, self.base, &grid, share, self.cells)?;
        }
        Ok(grid)
    }
}

/// The first `cells` cells of the sum of a listed number of claims: `table` has the numbers of
/// claims, each with its weight out of `total`, which is at most 2^40, and `base` is the grid of one
/// claim. It is made by halves; where that comes out wider than by Horner's rule it may be, by
/// Horner's rule.
pub fn mix_counts<const B: u32>(
    alloc: Global,
    work: &mut Workspace,
    base: &Grid<B>,
    table: &[Item],
    total: u64,
    cells: u32,
) -> Result<Grid<B>, AllocError>
    requires sum { weight_sum table.now ≡ total }
    requires positive { 0 < total }
    requires most { total ≤ most_weights }
    requires some { 1 ≤ cells }
    requires within { cells ≤ length base.now }
    ensures cells { IfOk result (λ g. length g ≡ cells) }
    ensures encloses { IfOk result (λ g. EnclosesListed base.now table.now g) }
    ensures spread { IfOk result (λ g. spread g ≤ mixed_spread (2 ^ B) cells (spread base.now)
        (greatest table.now)) }
{
    let listed = Listed {
        base,
        table,
        total,
        cells,
    };
    let grid = listed.by_halves(alloc, work)?;
    if let Some(most) = spread_of_counts::<B>(base.spread(), greatest_of(table), cells) {
        if grid.spread() <= most {
            return Ok(grid);
        }
    }
    listed.by_horner(alloc, work)
}
