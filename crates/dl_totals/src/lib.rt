//! Totals of a program's units: from one grid for each unit, the grid of the sum of all units, and
//! of the sum of all units but one. The units are independent, so that each unit is taken in by one
//! product, and the first units that have one grid by squaring. Where several of these sums are
//! wanted, they share their parts.
//!
//! The clauses speak of every list of losses (`AreDeclarable`), each with its grid: at each level
//! the outcomes of a loss make up its whole weight. Of a valid plan these are the losses of its
//! units, `aggregates_of plan`, by `dl_model::plans::law_declared`.
//!
//! `total` and `others` enclose the sum of units whose grids enclose them, and of all but one
//! (`encloses`, `spread`); `total_and_others` gives the same, as narrow, from sums that they share,
//! and `sums_of_one` for one unit alone (`IsTotal`, `AreSumsWithout`). `sum_of_both` joins two sums
//! (`EnclosesSum`), and `repeated` adds up units that have one grid; of these no width is told.
#![tactic(auto)]

mod only;
mod runs;
mod shared;
mod shortest;
mod tree;
mod widths;

ghost use Rattle.std.specs.Prelude.{◌≡◌, ℕ, ◌^◌, ◌<◌, ◌≤◌, List, [], ◌++◌, length, get_or, map, All, IfOk, IfSome};
ghost use Rattle.dl_totals.specs.Sums.{EncloseEach};
ghost use Rattle.dl_totals.specs.Shared.{AreUnits, EnclosesSum, HaveCells, IsSumOfPart};
ghost use Rattle.dl_grid.specs.Prelude.{spread, convolution_spread, sum_spread};
ghost use Rattle.std.specs.List.{fold, remove};
ghost use Rattle.dl_model.specs.Prelude.{without, Loss, AreDeclarable, total, GridEncloses};

use dl_grid::Grid;
use dl_product::{Workspace, product};
use runs::alike;
pub use runs::repeated;
pub use shared::{Sums, sums_of_one, total_and_others};
use shortest::shortest_first;
use std::alloc::{AllocError, Global};
use widths::spread_of_sum;

/// The sum of the units in `sum` and of further units, which are taken in one by one, in order.
fn with_units<const B: u32>(
    alloc: Global,
    work: &mut Workspace,
    sum: Grid<B>,
    units: &[Grid<B>],
    cells: u32,
) -> Result<Grid<B>, AllocError>
    requires some { 1 ≤ cells }
    requires in_sum { length sum ≡ cells }
    requires in_each { All (λ g. cells ≤ length g) units.now }
    ensures cells { IfOk result (λ g. length g ≡ cells) }
    ensures encloses { IfOk result (λ g. (us vs : List Loss) → AreDeclarable us
        → AreDeclarable vs
        → GridEncloses sum.entry (total us) → EncloseEach units.now vs
        → GridEncloses g (total (us ++ vs))) }
    ensures spread { IfOk result (λ g. spread g ≤ fold (convolution_spread (2 ^ B) cells) (spread sum.entry)
        (map spread units.now)) }
{
    let mut sum = sum;
    for unit in units {
        sum = product(alloc, work, &sum, unit, cells)?;
    }
    Ok(sum)
}

/// The first `cells` cells of the sum of two sums that have no unit in common, each of which has a
/// grid of these cells, or none where there are no units.
pub fn sum_of_both<const B: u32>(
    alloc: Global,
    work: &mut Workspace,
    first: Option<Grid<B>>,
    second: Option<Grid<B>>,
    cells: u32,
) -> Result<Option<Grid<B>>, AllocError>
    requires some { 1 ≤ cells }
    requires in_first { IfSome first (λ g. length g ≡ cells) }
    requires in_second { IfSome second (λ g. length g ≡ cells) }
    ensures cells { IfOk result (λ sum. IfSome sum (λ g. length g ≡ cells)) }
    ensures encloses { IfOk result (λ sum. (us vs : List Loss) → AreDeclarable us
        → AreDeclarable vs → EnclosesSum first.entry us → EnclosesSum second.entry vs
        → EnclosesSum sum (us ++ vs)) }
{
    match (first, second) {
        (Some(a), Some(b)) => {
            let both = product(alloc, work, &a, &b, cells)?;
            Ok(Some(both))
        }
        (Some(a), None) => Ok(Some(a)),
        (None, b) => Ok(b),
    }
}

/// The sum of no units: surely 0, on the first `cells` cells of a grid.
fn no_units<const B: u32>(alloc: Global, like: &Grid<B>, cells: u32) -> Result<Grid<B>, AllocError>
    requires some { 1 ≤ cells }
    requires within { cells ≤ length like.now }
    ensures cells { IfOk result (λ g. length g ≡ cells) }
    ensures encloses { IfOk result (λ g. GridEncloses g (total [])) }
    ensures spread { IfOk result (λ g. spread g ≡ 0) }
{
    prove!(cells <= like.cells());
    Grid::zero(alloc, cells)
}

/// The first `cells` cells of the sum of all units, which are taken in one by one, in order.
fn sum_one_by_one<const B: u32>(
    alloc: Global,
    work: &mut Workspace,
    units: &[Grid<B>],
    cells: u32,
) -> Result<Grid<B>, AllocError>
    requires { AreUnits cells units.now }
    ensures cells { IfOk result (λ g. length g ≡ cells) }
    ensures encloses { IfOk result (λ g. (us : List Loss) → AreDeclarable us
        → EncloseEach units.now us → GridEncloses g (total us)) }
    ensures spread { IfOk result (λ g. spread g ≤ sum_spread (2 ^ B) cells (map spread units.now)) }
{
    let first = Grid::truncate(alloc, &units[0], cells)?;
    with_units(alloc, work, first, &units[1..], cells)
}

/// The sum of all units: of the first `many` ones, which have one grid, by squaring, and then of each
/// further one.
fn first_together<const B: u32>(
    alloc: Global,
    work: &mut Workspace,
    units: &[Grid<B>],
    many: usize,
    cells: u32,
) -> Result<Grid<B>, AllocError>
    requires first { 1 ≤ many }
    requires within { many ≤ length units.now }
    requires same { (i : ℕ) → i < many → get_or units.now i [] ≡ get_or units.now 0 [] }
    requires cells { HaveCells cells units.now }
    ensures cells { IfOk result (λ g. length g ≡ cells) }
    ensures encloses { IfOk result (λ g. (us : List Loss) → AreDeclarable us
        → EncloseEach units.now us → GridEncloses g (total us)) }
{
    let first = repeated(alloc, work, &units[0], many, cells)?;
    with_units(alloc, work, first, &units[many..], cells)
}

/// The sum of all units: by squaring where the first ones have one grid, else the shortest first.
fn all_units<const B: u32>(
    alloc: Global,
    work: &mut Workspace,
    units: &[Grid<B>],
    cells: u32,
) -> Result<Option<Grid<B>>, AllocError>
    requires { AreUnits cells units.now }
    ensures { IfOk result (λ sum. IsSumOfPart cells units.now (λ us. us) sum) }
{
    let many = alike(units);
    if many > 1 {
        let sum = first_together(alloc, work, units, many, cells)?;
        return Ok(Some(sum));
    }
    shortest_first(alloc, work, units, units.len(), cells)
}

/// The first `cells` cells of the sum of all units. There is at least one unit, and each grid has
/// at least these cells.
pub fn total<const B: u32>(
    alloc: Global,
    units: &[Grid<B>],
    cells: u32,
) -> Result<Grid<B>, AllocError>
    requires units { 1 ≤ length units.now }
    requires some { 1 ≤ cells }
    requires in_each { All (λ g. cells ≤ length g) units.now }
    ensures cells { IfOk result (λ g. length g ≡ cells) }
    ensures encloses { IfOk result (λ g. (us : List Loss) → AreDeclarable us
        → EncloseEach units.now us → GridEncloses g (total us)) }
    ensures spread { IfOk result (λ g. spread g ≤ sum_spread (2 ^ B) cells (map spread units.now)) }
{
    total_with(alloc, &mut Workspace::new(alloc), units, cells)
}

/// The same sum, by products in a workspace that is lent. The first units that have one grid are
/// added up by squaring; where these are not several, the units are added up the shortest first.
/// Where that comes out wider than it may be when the units are taken in one by one, they are taken
/// in one by one.
pub fn total_with<const B: u32>(
    alloc: Global,
    work: &mut Workspace,
    units: &[Grid<B>],
    cells: u32,
) -> Result<Grid<B>, AllocError>
    requires units { 1 ≤ length units.now }
    requires some { 1 ≤ cells }
    requires in_each { All (λ g. cells ≤ length g) units.now }
    ensures cells { IfOk result (λ g. length g ≡ cells) }
    ensures encloses { IfOk result (λ g. (us : List Loss) → AreDeclarable us
        → EncloseEach units.now us → GridEncloses g (total us)) }
    ensures spread { IfOk result (λ g. spread g ≤ sum_spread (2 ^ B) cells (map spread units.now)) }
{
    if let Some(sum) = all_units(alloc, work, units, cells)? {
        if let Some(most) = spread_of_sum(units, cells) {
            if sum.spread() <= most {
                return Ok(sum);
            }
        }
    }
    sum_one_by_one(alloc, work, units, cells)
}

/// The first `cells` cells of the sum of all units but unit `i`, counted from 0. Where there is no
/// other unit, it is the sum that is surely 0. Each grid has at least these cells.
pub fn others<const B: u32>(
    alloc: Global,
    units: &[Grid<B>],
    i: u32,
    cells: u32,
) -> Result<Grid<B>, AllocError>
    requires unit { i < length units.now }
    requires some { 1 ≤ cells }
    requires in_each { All (λ g. cells ≤ length g) units.now }
    ensures cells { IfOk result (λ g. length g ≡ cells) }
    ensures encloses { IfOk result (λ g. (us : List Loss) → AreDeclarable us
        → EncloseEach units.now us → GridEncloses g (total (without us i))) }
    ensures spread { IfOk result (λ g. spread g ≤ sum_spread (2 ^ B) cells
        (map spread (remove units.now i))) }
{
    others_with(alloc, &mut Workspace::new(alloc), units, i, cells)
}

/// The same sum, by products in a workspace that is lent: the units are taken in one by one, in
/// order.
pub fn others_with<const B: u32>(
    alloc: Global,
    work: &mut Workspace,
    units: &[Grid<B>],
    i: u32,
    cells: u32,
) -> Result<Grid<B>, AllocError>
    requires unit { i < length units.now }
    requires some { 1 ≤ cells }
    requires in_each { All (λ g. cells ≤ length g) units.now }
    ensures cells { IfOk result (λ g. length g ≡ cells) }
    ensures encloses { IfOk result (λ g. (us : List Loss) → AreDeclarable us
        → EncloseEach units.now us → GridEncloses g (total (without us i))) }
    ensures spread { IfOk result (λ g. spread g ≤ sum_spread (2 ^ B) cells
        (map spread (remove units.now i))) }
{
    let before = &units[..i as usize];
    let after = &units[i as usize + 1..];
    if i > 0 {
        let sum = sum_one_by_one(alloc, work, before, cells)?;
        return with_units(alloc, work, sum, after, cells);
    }
    if units.len() > 1 {
        return sum_one_by_one(alloc, work, after, cells);
    }
    no_units(alloc, &units[i as usize], cells)
}
