//! Blocks of counts: each is a mixture of low powers, which all blocks share.

ghost use Rattle.std.specs.Prelude.{◌≡◌, ℕ, suc, ◌+◌, ◌-◌, ◌*◌, ◌^◌, ◌<◌, ◌≤◌, length, get_or, All, IfOk};
ghost use Rattle.dl_limits.specs.Limits.{edge_bound, most_weights};
ghost use Rattle.dl_exact.specs.Fraction.{Fraction};
ghost use Rattle.dl_grid.specs.Prelude.{low_at, high_at, IsGridSize};
ghost use Rattle.dl_model.specs.Prelude.{power, cell_from, probability_at, IsWithinOne};
ghost use Rattle.dl_plan.specs.Weighted.{weight_sum};
ghost use Rattle.dl_claims.specs.Powers.{Between, ArePowers, AreParts};

use crate::mixture::block;
use crate::short::{short_product, short_square, trimmed};
use dl_grid::Grid;
use dl_plan::Item;
use dl_product::Workspace;
use std::alloc::{AllocError, Global};

/// The power after those of a list that begins with no claim and one claim, from its half.
pub(crate) fn next_power<const B: u32>(
    alloc: Global,
    work: &mut Workspace,
    powers: &[Grid<B>],
    cells: u32,
) -> Result<Grid<B>, AllocError>
    requires size { IsGridSize B cells }
    requires two { 2 ≤ length powers.now }
    requires few { All (λ g. length g ≤ cells) powers.now }
    ensures few { IfOk result (λ g. length g ≤ cells) }
    ensures between { IfOk result (λ g. (f : ℕ → Fraction) → IsWithinOne f
        → ArePowers cells f powers.now
        → Between cells g (power f (length powers.now))) }
{
    let claims = powers.len();
    let half = &powers[claims / 2];
    if claims % 2 == 0 {
        return short_square(alloc, work, half, cells);
    }
    short_product(alloc, work, half, &powers[claims / 2 + 1], cells)
}

/// The grids of no claim, one claim and so on up to `most` claims.
pub(crate) fn powers_to<const B: u32>(
    alloc: Global,
    work: &mut Workspace,
    base: &Grid<B>,
    most: usize,
    cells: u32,
) -> Result<Vec<Grid<B>>, AllocError>
    requires some { 1 ≤ cells }
    requires within { cells ≤ length base.now }
    requires one { 1 ≤ most }
    requires few { most < 2 ^ 32 }
    ensures many { IfOk result (λ list. length list.items ≡ suc most) }
    ensures few { IfOk result (λ list. All (λ g. length g ≤ cells) list.items) }
    ensures powers { IfOk result (λ list. (f : ℕ → Fraction) → IsWithinOne f
        → Between cells base.now f
        → ArePowers cells f list.items) }
{
    prove!(cells <= base.cells());
    let mut powers = Vec::new(alloc);
    powers.push(Grid::zero(alloc, 1)?)?;
    powers.push(trimmed(alloc, base, cells)?)?;
    for claims in 1..most {
        let next = next_power(alloc, work, powers.as_slice(), cells)?;
        powers.push(next)?;
    }
    Ok(powers)
}

/// The first `blocks` blocks of counts, from 0 on, each of as many counts as there are powers.
pub(crate) fn blocks_of<const B: u32>(
    alloc: Global,
    powers: &[Grid<B>],
    table: &[Item],
    total: u64,
    blocks: u32,
    cells: u32,
) -> Result<Vec<Grid<B>>, AllocError>
    requires size { IsGridSize B cells }
    requires sum { weight_sum table.now ≡ total }
    requires positive { 0 < total }
    requires within { total ≤ most_weights }
    requires one { 1 ≤ length powers.now }
    requires most { length powers.now < 2 ^ 32 }
    requires near { blocks * length powers.now < edge_bound }
    requires few { All (λ g. length g ≤ cells) powers.now }
    requires powers { (f : ℕ → Fraction) × IsWithinOne f × ArePowers cells f powers.now }
    ensures many { IfOk result (λ list. length list.items ≡ blocks) }
    ensures few { IfOk result (λ list. All (λ g. length g ≤ cells) list.items) }
    ensures parts { IfOk result (λ list. (f : ℕ → Fraction) → IsWithinOne f
        → ArePowers cells f powers.now
        → AreParts cells (probability_at table.now) f (length powers.now - 1) list.items) }
{
    let mut list = Vec::new(alloc);
    for i in 0..blocks {
        let first = u64::from(i) * powers.len() as u64;
        list.push(block(alloc, powers, table, first, total, cells)?)?;
    }
    Ok(list)
}
