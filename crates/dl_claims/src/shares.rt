//! The weights of a list, and each as its share of the total.

ghost use Rattle.std.specs.Prelude.{◌≡◌, ℕ, ◌+◌, ◌-◌, ◌*◌, ◌/◌, ◌^◌, ◌==◌, ◌<◌, ◌≤◌, if◌then◌else◌, length, List, IfOk};
ghost use Rattle.std.specs.Int.{div_ceil};
ghost use Rattle.dl_grid.specs.Prelude.{low_at, high_at, mass_low, spread, IsGridSize};
ghost use Rattle.dl_plan.specs.declared.item.Item.{Item};
ghost use Rattle.dl_plan.specs.Weighted.{weight_at, weight_sum, greatest};

use dl_grid::Grid;
use dl_iv::Iv;
use dl_plan::Item;
use std::alloc::{AllocError, Global};

/// The weight of `x`, 0 where it is not listed.
pub(crate) fn weight_of(items: &[Item], x: u64) -> u64
    requires fits { weight_sum items.now < 2 ^ 64 }
    ensures { result ≡ weight_at items.now x }
{
    let mut weight = 0;
    for item in items {
        if u64::from(item.amount) == x {
            weight += item.weight;
        }
    }
    weight
}

/// The greatest number of a list, 0 of none.
pub(crate) fn greatest_of(items: &[Item]) -> u32
    ensures { result ≡ greatest items.now }
{
    let mut most: u32 = 0;
    for item in items {
        most = most.max(item.amount);
    }
    most
}

/// A weight over the total, rounded outward.
pub(crate) fn share<const B: u32>(weight: u64, total: u64) -> Iv<B>
    requires scale_above { 1 ≤ B }
    requires scale_below { B ≤ 56 }
    requires positive { 0 < total }
    requires within { weight ≤ total }
    ensures low { result.lo ≡ 2 ^ B * weight / total }
    ensures high { result.hi ≡ div_ceil (2 ^ B * weight) total }
    ensures small { result.hi ≤ 2 ^ B }
{
    Iv::enclose(u128::from(weight), u128::from(total))
}

/// Writes one cell where the grid has it.
#[tactic(auto, using(dl_grid::proofs::CellSets::low_set, dl_grid::proofs::CellSets::high_set, dl_grid::proofs::CellSets::mass_set, dl_grid::proofs::CellSets::spread_set))]
pub(crate) fn set_if_inside<const B: u32>(grid: &mut Grid<B>, x: u32, v: Iv<B>)
    requires small { v.hi ≤ 2 ^ B }
    requires mass { mass_low grid.old + v.lo ≤ 2 ^ B }
    ensures cells { length grid.new ≡ length grid.old }
    ensures low { (y : ℕ) → y < length grid.old
        → low_at grid.new y ≡ (if x == y then v.entry.lo else low_at grid.old y) }
    ensures high { (y : ℕ) → y < length grid.old
        → high_at grid.new y ≡ (if x == y then v.entry.hi else high_at grid.old y) }
    ensures mass { mass_low grid.new ≤ mass_low grid.old + v.entry.lo }
    ensures spread { spread grid.new ≤ spread grid.old + (v.entry.hi - v.entry.lo) }
{
    if x < grid.cells() {
        grid.set(x, v);
    }
}
