//! The gamma count of a shape below 1.

ghost use Rattle.std.specs.Prelude.{◌≡◌, ℕ, ◌+◌, ◌-◌, ◌*◌, ◌/◌, ◌^◌, ◌<◌, ◌≤◌, length, All, IfOk};
ghost use Rattle.std.specs.Int.{div_ceil};
ghost use Rattle.dl_limits.specs.Limits.{most_ends};
ghost use Rattle.dl_exact.specs.Prelude.{whole, ◌over◌, ◌+ℚ◌, ◌*ℚ◌, ◌≤ℚ◌, ◌<ℚ◌, sum_to};
ghost use Rattle.dl_grid.specs.Prelude.{low_at, high_at, spread, IsGridSize, up};
ghost use Rattle.dl_model.specs.Prelude.{Holds, gamma_of, compound, GridEncloses};
ghost use Rattle.dl_plan.specs.Prelude.{IsWeighted, probability_of, HasPartsOf48Bits};
ghost use Rattle.dl_start.specs.Start.{most_claims_a_shape};
ghost use Rattle.dl_panjer.specs.Cells.{AreFirstCells, low_of_shape, high_of_shape, low_next_of_shape, high_next_of_shape, Follows};

use crate::follow::ends_of;
use crate::geometric::geometric_start;
use crate::made::grid_of;
use crate::rate::Rate;
use crate::sums::sums_before;
use dl_frac::Frac;
use dl_grid::Grid;
use dl_iv::{Iv, units_of_one};
use dl_plan::{Item, Sev};
use dl_start::shape_start;
use std::alloc::{AllocError, Global};

/// The denominator of `t` times what is counted once, and the numerator times what is counted `t`
/// times.
fn counted_by(t: Frac, once: u128, by_shape: u128) -> u128
    requires admitted { HasPartsOf48Bits t }
    requires once_small { once ≤ most_ends }
    requires by_shape_small { by_shape ≤ most_ends }
    ensures { result ≡ t.den * once + t.num * by_shape }
{
    u128::from(t.den()) * once + u128::from(t.num()) * by_shape
}

/// The sums for the next cell, of the low ends and of the high ends, before their division by its
/// number and by the denominator of `t`. What the cells before it count for, each by its number, is
/// what all of them count for without what the amounts do.
fn sums_of_shape<const B: u32>(items: &[Item], total: u64, t: Frac, cells: &[Iv<B>]) -> (u128, u128)
    requires cells { AreFirstCells cells.now }
    requires weighted { IsWeighted items.now total }
    requires no_zero { All (λ item. 0 < item.amount) items.now }
    requires admitted { HasPartsOf48Bits t }
    ensures low { result.0 ≡ low_of_shape items.now total t (low_at cells.now)
        (length cells.now - 1) }
    ensures high { result.1 ≡ high_of_shape items.now total t (high_at cells.now)
        (length cells.now - 1) }
{
    let (low, high) = sums_before::<B, false>(items, cells);
    let (low_amounts, high_amounts) = sums_before::<B, true>(items, cells);
    let number = cells.len() as u128;
    let total = u128::from(total);
    let low_numbers = number * low - low_amounts;
    let high_numbers = number * high - high_amounts;
    (
        counted_by(t, low_numbers / total, low_amounts / total),
        counted_by(
            t,
            high_numbers.div_ceil(total),
            high_amounts.div_ceil(total),
        ),
    )
}

/// Cell `s`, the next after `cells`, by Panjer's recursion for a gamma count of shape `t`: `rate`
/// times the sum over the amounts `j` of their probability times `(s - j + t * j) / s` times the
/// cell `s - j`. Three steps are rounded outward, and the high end is at most 1.
fn next_of_shape<const B: u32>(
    items: &[Item],
    total: u64,
    t: Frac,
    rate: Rate,
    cells: &[Iv<B>],
) -> Iv<B>
    requires cells { AreFirstCells cells.now }
    requires weighted { IsWeighted items.now total }
    requires no_zero { All (λ item. 0 < item.amount) items.now }
    requires below { t <ℚ whole 1 }
    requires admitted { HasPartsOf48Bits t }
    ensures low { result.lo ≡ low_next_of_shape items.now total t rate (low_at cells.now)
        (length cells.now - 1) }
    ensures high { result.hi ≡ high_next_of_shape (2 ^ B) items.now total t rate
        (high_at cells.now) (length cells.now - 1) }
{
    let sums = sums_of_shape::<B>(items, total, t, cells);
    let parts = u128::from(t.den()) * cells.len() as u128;
    let (lo, hi) = ends_of::<B>(sums, parts, u128::from(rate.num), u128::from(rate.den));
    Iv { lo, hi }
}

/// The cells that follow from cell 0. It takes memory once, for exactly these cells.
fn follow_shape<const B: u32>(
    alloc: Global,
    items: &[Item],
    total: u64,
    t: Frac,
    rate: Rate,
    start: Iv<B>,
    cells: u32,
) -> Result<Vec<Iv<B>>, AllocError>
    requires size { IsGridSize B cells }
    requires small { start.hi ≤ 2 ^ B }
    requires weighted { IsWeighted items.now total }
    requires no_zero { All (λ item. 0 < item.amount) items.now }
    requires below { t <ℚ whole 1 }
    requires admitted { HasPartsOf48Bits t }
    ensures cells { IfOk result (λ list. length list.items ≡ cells) }
    ensures start_low { IfOk result (λ list. low_at list.items 0 ≡ start.entry.lo) }
    ensures start_high { IfOk result (λ list. high_at list.items 0 ≡ start.entry.hi) }
    ensures small { IfOk result (λ list. All (λ cell. cell.hi ≤ 2 ^ B) list.items) }
    ensures follows { IfOk result (λ list. Follows (low_next_of_shape items.now total t rate)
        (high_next_of_shape (2 ^ B) items.now total t rate) (low_at list.items)
        (high_at list.items) cells) }
{
    let mut list = Vec::with_capacity(alloc, cells as usize)?;
    list.push(start)?;
    for s in 1..cells as usize {
        let cell = next_of_shape::<B>(items, total, t, rate, &list);
        list.push(cell)?;
    }
    Ok(list)
}

/// Cell 0 of a gamma count of shape `t` below 1 and mean `t * beta`: the ends of its probability of
/// no claim, rounded outward once more.
fn shape_cell<const B: u32>(beta: Frac, t: Frac) -> Iv<B>
    requires scale_above { 1 ≤ B }
    requires scale_below { B ≤ 56 }
    requires above { whole 0 <ℚ t }
    requires below { t <ℚ whole 1 }
    requires few { beta ≤ℚ whole most_claims_a_shape }
    ensures holds { Holds (λ N. whole 1) (λ N. sum_to N (gamma_of t (t *ℚ beta)))
        (result.lo over 2 ^ B) (result.hi over 2 ^ B) }
    ensures near { result.hi ≤ result.lo + 2 }
    ensures small { result.hi ≤ 2 ^ B }
{
    let start = shape_start(beta, t);
    let parts = 1u128 << start.exponent;
    let low = u128::from(start.low) * units_of_one(B);
    let high = u128::from(start.high) * units_of_one(B);
    Iv {
        lo: low / parts,
        hi: high.div_ceil(parts),
    }
}

/// The grid of a gamma number of claims of a shape `t` below 1 and of mean `t * beta`. Cell 0 is
/// the probability of no claim by `shape_start`, and is at most 2 units wide.
pub fn shape_base<const B: u32>(
    alloc: Global,
    sev: &Sev,
    beta: Frac,
    t: Frac,
    cells: u32,
) -> Result<Grid<B>, AllocError>
    requires size { IsGridSize B cells }
    requires no_zero { probability_of sev.now 0 ≡ whole 0 }
    requires above { whole 0 <ℚ t }
    requires below { t <ℚ whole 1 }
    requires admitted { HasPartsOf48Bits t }
    requires few { beta ≤ℚ whole most_claims_a_shape }
    ensures cells { IfOk result (λ g. length g ≡ cells) }
    ensures encloses { IfOk result (λ g. GridEncloses g
        (compound (gamma_of t (t *ℚ beta)) (probability_of sev.now))) }
    ensures spread { IfOk result (λ g.
        spread g ≤ up (whole (6 * cells + 2) *ℚ (whole 1 +ℚ beta))) }
{
    let (rate, _) = geometric_start::<B>(beta);
    let start = shape_cell::<B>(beta, t);
    let list = follow_shape::<B>(
        alloc,
        sev.items.as_slice(),
        sev.total,
        t,
        rate,
        start,
        cells,
    )?;
    grid_of(alloc, &list)
}
