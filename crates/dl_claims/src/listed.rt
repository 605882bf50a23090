//! A listed number of claims, with what is asked of its sum.

ghost use Rattle.std.specs.Prelude.{◌≡◌, ◌<◌, ◌≤◌, length};
ghost use Rattle.dl_limits.specs.Limits.{most_weights};
ghost use Rattle.dl_plan.specs.Weighted.{weight_sum};

use dl_grid::Grid;
use dl_plan::Item;

/// Numbers of claims, each with its weight out of `total`.
#[derive(Clone, Copy)]
pub(crate) struct Listed<'a, const B: u32> {
    /// The grid of one claim.
    pub(crate) base: &'a Grid<B>,
    /// The numbers and their weights.
    pub(crate) table: &'a [Item],
    /// The sum of the weights.
    pub(crate) total: u64,
    /// The number of cells of the sum of claims.
    pub(crate) cells: u32,
    ghost sum: { weight_sum table.now ≡ total },
    ghost positive: { 0 < total },
    ghost most: { total ≤ most_weights },
    ghost some: { 1 ≤ cells },
    ghost within: { cells ≤ length base.now },
}
