//! The recursion, from cell 0 on.

ghost use Rattle.std.specs.Prelude.{◌≡◌, ℕ, suc, ◌+◌, ◌-◌, ◌*◌, ◌/◌, ◌^◌, ◌<◌, ◌≤◌, length, min, All, IfOk};
ghost use Rattle.std.specs.Int.{div_ceil};
ghost use Rattle.dl_limits.specs.Limits.{most_cells};
ghost use Rattle.dl_grid.specs.Prelude.{low_at, high_at, IsGridSize};
ghost use Rattle.dl_plan.specs.Weighted.{weight_sum, IsWeighted};
ghost use Rattle.dl_panjer.specs.Cells.{AreFirstCells, counted, coefficient, low_next, high_next, Follows};

use crate::rate::Rate;
use crate::sums::sums_before;
use dl_grid::units_of_one;
use dl_iv::Iv;
use dl_plan::Item;
use std::alloc::{AllocError, Global};

/// Cell `s`, the next after `cells`, by Panjer's recursion over amounts `j` above 0 whose whole
/// weights `w_j` add up to `total`: the sum of `w_j * cell(s - j)`, over `total`, times `rate`; or
/// `BY_AMOUNT` the sum of `j * w_j * cell(s - j)`, over `total`, times `rate / s`. Both steps are
/// rounded outward, and the high end is at most 1. The second form with the mean as its rate is for
/// a Poisson count, the first with `beta / (1 + beta)` for a geometric one of mean `beta`.
pub fn next_cell<const B: u32, const BY_AMOUNT: bool>(
    items: &[Item],
    total: u64,
    rate: Rate,
    cells: &[Iv<B>],
) -> Iv<B>
    requires cells { AreFirstCells cells.now }
    requires weighted { IsWeighted items.now total }
    requires no_zero { All (λ item. 0 < item.amount) items.now }
    requires room { counted BY_AMOUNT most_cells rate.num < 2 ^ 64 }
    ensures low { result.lo ≡ low_next BY_AMOUNT items.now total rate (low_at cells.now)
        (length cells.now - 1) }
    ensures high { result.hi ≡ high_next (2 ^ B) BY_AMOUNT items.now total rate (high_at cells.now)
        (length cells.now - 1) }
{
    let sums = sums_before::<B, BY_AMOUNT>(items, cells);
    let num = u128::from(rate.num);
    let den = divisor::<BY_AMOUNT>(rate.den, cells.len());
    let (lo, hi) = ends_of::<B>(sums, u128::from(total), num, den);
    Iv { lo, hi }
}

/// The ends that two sums give, over a divisor and times the rate: the low end by two floors, the
/// high one by two ceilings and at most 1.
pub(crate) fn ends_of<const B: u32>(
    sums: (u128, u128),
    total: u128,
    num: u128,
    den: u128,
) -> (u128, u128)
    requires scale { B ≤ 56 }
    requires total { 0 < total }
    requires den { 0 < den }
    requires ordered { sums.0 ≤ sums.1 }
    requires fits { div_ceil sums.1 total * num < 2 ^ 128 }
    ensures low { result.0 ≡ sums.0 / total * num / den }
    ensures high { result.1 ≡ min (2 ^ B) (div_ceil (div_ceil sums.1 total * num) den) }
{
    let (low, high) = sums;
    let high = (high.div_ceil(total) * num).div_ceil(den);
    (low / total * num / den, units_of_one(B).min(high))
}

/// By what the rate's first part is divided at cell `number`.
fn divisor<const BY_AMOUNT: bool>(den: u64, number: usize) -> u128
    requires { number ≤ most_cells }
    ensures { result ≡ counted BY_AMOUNT number den }
{
    if BY_AMOUNT {
        number as u128 * u128::from(den)
    } else {
        u128::from(den)
    }
}

/// The cells that follow from cell 0. It takes memory once, for exactly these cells.
pub(crate) fn follow<const B: u32, const BY_AMOUNT: bool>(
    alloc: Global,
    items: &[Item],
    total: u64,
    rate: Rate,
    start: Iv<B>,
    cells: u32,
) -> Result<Vec<Iv<B>>, AllocError>
    requires size { IsGridSize B cells }
    requires small { start.hi ≤ 2 ^ B }
    requires weighted { IsWeighted items.now total }
    requires no_zero { All (λ item. 0 < item.amount) items.now }
    requires room { counted BY_AMOUNT most_cells rate.num < 2 ^ 64 }
    ensures cells { IfOk result (λ list. length list.items ≡ cells) }
    ensures start_low { IfOk result (λ list. low_at list.items 0 ≡ start.entry.lo) }
    ensures start_high { IfOk result (λ list. high_at list.items 0 ≡ start.entry.hi) }
    ensures small { IfOk result (λ list. All (λ cell. cell.hi ≤ 2 ^ B) list.items) }
    ensures follows { IfOk result (λ list. Follows (low_next BY_AMOUNT items.now total rate)
        (high_next (2 ^ B) BY_AMOUNT items.now total rate) (low_at list.items) (high_at list.items)
        cells) }
{
    let mut list = Vec::with_capacity(alloc, cells as usize)?;
    list.push(start)?;
    for s in 1..cells as usize {
        let cell = next_cell::<B, BY_AMOUNT>(items, total, rate, &list);
        list.push(cell)?;
    }
    Ok(list)
}
