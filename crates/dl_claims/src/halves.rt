//! A listed number of claims by halves: neighbouring blocks of counts are joined pair by pair until
//! two are left. A pair is its first block and, before each count of its second, as many claims as
//! the first has counts; these claims are the same for all pairs of a level.

ghost use Rattle.std.specs.Prelude.{◌≡◌, ℕ, suc, ◌+◌, ◌*◌, ◌/◌, ◌<◌, ◌≤◌, min, max, length, get_or, All, IfOk};
ghost use Rattle.dl_limits.specs.Limits.{most_cell_end};
ghost use Rattle.dl_exact.specs.Fraction.{Fraction};
ghost use Rattle.dl_grid.specs.Prelude.{low_at, high_at, IsGridSize};
ghost use Rattle.dl_model.specs.Compound.{cell_from};
ghost use Rattle.dl_claims.specs.Powers.{EnclosesListed, Between, AreParts, ArePairable, IsStep};

use crate::blocks::{blocks_of, next_power, powers_to};
use crate::listed::Listed;
use crate::powers::power;
use crate::shares::greatest_of;
use crate::short::{end_at, extended, short_product, short_square};
use dl_grid::{Grid, units_of_one};
use dl_product::Workspace;
use std::alloc::{AllocError, Global};

/// The sums of two lists of ends, place by place, each at most `one`; past its end a list has 0.
fn added(alloc: Global, first: &[u128], second: &[u128], one: u128) -> Result<Vec<u128>, AllocError>
    requires in_first { All (λ end. end ≤ most_cell_end) first.now }
    requires in_second { All (λ end. end ≤ most_cell_end) second.now }
    ensures many { IfOk result (λ list. length list.items
        ≡ max (length first.now) (length second.now)) }
    ensures each { IfOk result (λ list. (x : ℕ)
        → get_or list.items x 0 ≡ min one (get_or first.now x 0 + get_or second.now x 0)) }
{
    let many = first.len().max(second.len());
    let mut sums = Vec::with_capacity(alloc, many)?;
    for x in 0..many {
        sums.push(one.min(end_at(first, x) + end_at(second, x)))?;
    }
    Ok(sums)
}

/// A block of counts and the counts after it: `block + step * later`, where `step` is the sum of as
/// many claims as the block has counts.
fn block_with_later<const B: u32>(
    alloc: Global,
    work: &mut Workspace,
    block: &Grid<B>,
    step: &Grid<B>,
    later: &Grid<B>,
    cells: u32,
) -> Result<Grid<B>, AllocError>
    requires size { IsGridSize B cells }
    requires in_block { length block.now ≤ cells }
    requires in_step { length step.now ≤ cells }
    requires in_later { length later.now ≤ cells }
    requires step { (w : ℕ → Fraction) × (f : ℕ → Fraction) × (k : ℕ) × (m : ℕ) × (n : ℕ)
        × IsStep cells w f k m n block.now step.now later.now }
    ensures few { IfOk result (λ g. length g ≤ cells) }
    ensures between { IfOk result (λ g. (w f : ℕ → Fraction) (k m n : ℕ)
        → IsStep cells w f k m n block.now step.now later.now
        → Between cells g (λ s. cell_from w f k s (suc m + n))) }
{
    let moved = short_product(alloc, work, step, later, cells)?;
    let one = units_of_one(B);
    let lows = added(alloc, moved.lows(), block.lows(), one)?;
    let highs = added(alloc, moved.highs(), block.highs(), one)?;
    Ok(Grid::from_ends(lows, highs))
}

/// The blocks of a level joined pair by pair: half as many, each of twice as many counts.
fn paired<const B: u32>(
    alloc: Global,
    work: &mut Workspace,
    parts: &[Grid<B>],
    step: &Grid<B>,
    cells: u32,
) -> Result<Vec<Grid<B>>, AllocError>
    requires size { IsGridSize B cells }
    requires few { All (λ g. length g ≤ cells) parts.now }
    requires in_step { length step.now ≤ cells }
    requires parts { (w : ℕ → Fraction) × (f : ℕ → Fraction) × (m : ℕ)
        × ArePairable cells w f m parts.now step.now }
    ensures many { IfOk result (λ list. length list.items ≡ length parts.now / 2) }
    ensures few { IfOk result (λ list. All (λ g. length g ≤ cells) list.items) }
    ensures parts { IfOk result (λ list. (w f : ℕ → Fraction) (m : ℕ)
        → ArePairable cells w f m parts.now step.now
        → AreParts cells w f (suc m + m) list.items) }
{
    let mut pairs = Vec::new(alloc);
    for i in 0..parts.len() / 2 {
        let block = &parts[2 * i];
        let later = &parts[2 * i + 1];
        let pair = block_with_later(alloc, work, block, step, later, cells)?;
        pairs.push(pair)?;
    }
    Ok(pairs)
}

/// How often the blocks are joined in pairs until two are left, for numbers of claims up to
/// `greatest`: so often that there are about as many blocks as each has counts.
fn levels_of(greatest: u32) -> u32
    ensures { result ≤ 14 }
{
    (greatest.saturating_add(1).ilog2() / 2).saturating_sub(1)
}

impl<const B: u32> Listed<'_, B> {
    /// The sum by halves, with about twice as many products as the square root of the greatest
    /// number says, most of them of short lists. It holds as many grids as that. Where one number
    /// is listed it is a power.
    pub(crate) fn by_halves(
        self,
        alloc: Global,
        work: &mut Workspace,
    ) -> Result<Grid<B>, AllocError>
        ensures cells { IfOk result (λ g. length g ≡ self.entry.cells) }
        ensures encloses { IfOk result (λ g.
            EnclosesListed self.entry.base.now self.entry.table.now g) }
    {
        if self.table.len() == 1 {
            return power(alloc, work, self.base, self.table[0].amount, self.cells);
        }
        prove!(self.base.cells() > 0);
        let greatest = greatest_of(self.table);
        let levels = levels_of(greatest);
        let blocks = 2 << levels;
        let most = (greatest / blocks).max(1);
        let powers = powers_to(alloc, work, self.base, most as usize, self.cells)?;
        let mut step = next_power(alloc, work, powers.as_slice(), self.cells)?;
        let mut parts = blocks_of(
            alloc,
            powers.as_slice(),
            self.table,
            self.total,
            blocks,
            self.cells,
        )?;
        drop(powers);
        for _ in 0..levels {
            parts = paired(alloc, work, parts.as_slice(), &step, self.cells)?;
            step = short_square(alloc, work, &step, self.cells)?;
        }
        let whole = block_with_later(alloc, work, &parts[0], &step, &parts[1], self.cells)?;
        extended(alloc, &whole, self.cells)
    }
}
