//! The grid of one claim.

ghost use Rattle.std.specs.Prelude.{◌≡◌, ℕ, ◌*◌, ◌/◌, ◌^◌, ◌<◌, ◌≤◌, length, IfOk};
ghost use Rattle.std.specs.Int.{div_ceil};
ghost use Rattle.std.specs.List.Sorted.{IsStrictlyIncreasing};
ghost use Rattle.dl_grid.specs.Prelude.{low_at, high_at, spread, IsGridSize};
ghost use Rattle.dl_model.specs.Prelude.{probability_at, fixed, compound, GridEncloses};
ghost use Rattle.dl_plan.specs.Weighted.{amounts_of, weight_at, weight_sum};

use crate::shares::{set_if_inside, share};
use dl_grid::{Grid, empty_grid};
use dl_plan::Item;
use std::alloc::{AllocError, Global};

/// The first `cells` cells of one claim: each holds the probability of its amount, its weight over
/// the total, rounded outward once. The amounts rise; those past the grid are left out.
pub fn claim_grid<const B: u32>(
    alloc: Global,
    amounts: &[Item],
    total: u64,
    cells: u32,
) -> Result<Grid<B>, AllocError>
    requires size { IsGridSize B cells }
    requires rising { IsStrictlyIncreasing (amounts_of amounts.now) }
    requires sum { weight_sum amounts.now ≡ total }
    requires positive { 0 < total }
    ensures cells { IfOk result (λ g. length g ≡ cells) }
    ensures low { IfOk result (λ g. (x : ℕ) → x < cells
        → low_at g x ≡ 2 ^ B * weight_at amounts.now x / total) }
    ensures high { IfOk result (λ g. (x : ℕ) → x < cells
        → high_at g x ≡ div_ceil (2 ^ B * weight_at amounts.now x) total) }
    ensures encloses { IfOk result (λ g. GridEncloses g
        (compound (fixed 1) (probability_at amounts.now))) }
    ensures spread { IfOk result (λ g. spread g ≤ length amounts.now) }
{
    let mut grid = empty_grid(alloc, cells)?;
    for item in amounts {
        set_if_inside(&mut grid, item.amount, share(item.weight, total));
    }
    Ok(grid)
}
