//! The sums behind one cell.

ghost use Rattle.std.specs.Prelude.{◌≡◌, ℕ, suc, ◌+◌, ◌-◌, ◌*◌, ◌^◌, ◌<◌, ◌≤◌, length, sum_by, All, slice_index_or};
ghost use Rattle.std.specs.List.Sorted.{IsStrictlyIncreasing};
ghost use Rattle.dl_limits.specs.Limits.{most_cells, most_weights, most_cell_end};
ghost use Rattle.dl_grid.specs.Prelude.{low_at, high_at};
ghost use Rattle.dl_plan.specs.Weighted.{amounts_of, weight_sum, weight_at};
ghost use Rattle.dl_panjer.specs.Cells.{AreFirstCells, counted, coefficient, given, next_sum};

use dl_iv::Iv;
use dl_plan::Item;

/// How many of the amounts are at most `most`: the first ones.
pub fn count_at_most(items: &[Item], most: usize) -> usize
    requires rising { IsStrictlyIncreasing (amounts_of items.now) }
    ensures bound { result ≤ length items.now }
    ensures before { (k : ℕ) (d : Item) → k < result
        → (slice_index_or items.now k d).amount ≤ most }
    ensures after { (k : ℕ) (d : Item) → result ≤ k → k < length items.now
        → most < (slice_index_or items.now k d).amount }
{
    items.partition_point(|item| item.amount as usize <= most)
}

/// What an item counts for: its amount times its weight, or its weight alone.
fn factor<const BY_AMOUNT: bool>(item: &Item) -> u64
    requires near { item.now.amount ≤ most_cells }
    requires within { item.now.weight ≤ most_weights }
    ensures { result ≡ counted BY_AMOUNT item.now.amount item.now.weight }
{
    if BY_AMOUNT {
        u64::from(item.amount) * item.weight
    } else {
        item.weight
    }
}

/// The product of a factor and an end of at most 1: one multiplication of 64 bits by 64 bits.
fn product(factor: u64, end: u128) -> u128
    requires { end ≤ most_cell_end }
    ensures { result ≡ factor * end }
{
    u128::from(factor) * u128::from(end as u64)
}

/// The sums of the products of each amount's factor and the low end, and the high end, of the cell
/// that the amount leaves of the next cell's number, which no amount passes.
fn sums_over<const B: u32, const BY_AMOUNT: bool>(items: &[Item], cells: &[Iv<B>]) -> (u128, u128)
    requires cells { AreFirstCells cells.now }
    requires no_zero { All (λ item. 0 < item.amount) items.now }
    requires near { All (λ item. item.amount ≤ length cells.now) items.now }
    requires within { weight_sum items.now ≤ most_weights }
    ensures low { result.0 ≡ sum_by (given BY_AMOUNT (low_at cells.now) (length cells.now))
        items.now }
    ensures high { result.1 ≡ sum_by (given BY_AMOUNT (high_at cells.now) (length cells.now))
        items.now }
{
    let next = cells.len();
    let mut low = 0;
    let mut high = 0;
    'items: for item in items {
        let cell = &cells[next - item.amount as usize];
        let factor = factor::<BY_AMOUNT>(item);
        low += product(factor, cell.lo);
        high += product(factor, cell.hi);
    }
    (low, high)
}

/// Such sums for all amounts: those that pass the next cell's number lead from no cell to it.
pub(crate) fn sums_before<const B: u32, const BY_AMOUNT: bool>(
    items: &[Item],
    cells: &[Iv<B>],
) -> (u128, u128)
    requires cells { AreFirstCells cells.now }
    requires rising { IsStrictlyIncreasing (amounts_of items.now) }
    requires no_zero { All (λ item. 0 < item.amount) items.now }
    requires within { weight_sum items.now ≤ most_weights }
    ensures low { result.0 ≡ next_sum (coefficient BY_AMOUNT items.now) (low_at cells.now)
        (length cells.now - 1) }
    ensures high { result.1 ≡ next_sum (coefficient BY_AMOUNT items.now) (high_at cells.now)
        (length cells.now - 1) }
{
    let near = &items[..count_at_most(items, cells.len())];
    sums_over::<B, BY_AMOUNT>(near, cells)
}
