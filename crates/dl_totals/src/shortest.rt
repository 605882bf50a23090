//! Sums of units, the shortest first: a product costs as much as its operands have cells in use, so
//! that units of few claims are added up before those whose outcomes fill the grid.

ghost use Rattle.std.specs.Prelude.{◌≡◌, ℕ, ◌+◌, ◌<◌, ◌≤◌, ◌&&◌, Bool, not, nat_lt, nat_eq, if◌then◌else◌, List, length, All, Some, IfOk, OnOk};
ghost use Rattle.dl_iv.specs.declared.interval.Iv.{Iv};
ghost use Rattle.dl_model.specs.Prelude.{Loss, AreDeclarable, total, without, GridEncloses};
ghost use Rattle.dl_totals.specs.Sums.{EncloseEach};
ghost use Rattle.dl_totals.specs.Shared.{HaveCells, IsSumOfPart};
ghost use Rattle.dl_totals.specs.Chosen.{chosen, passed, in_some, AreApart, AreSumsOfChosen, KeepsChosen};

use dl_grid::Grid;
use dl_product::{Workspace, product};
use std::alloc::{AllocError, Global};

/// The last cell of a grid that is in use: whose high end is above 0. 0 where none is.
pub(crate) fn last_used<const B: u32>(grid: &Grid<B>) -> usize {
    grid.highs().iter().rposition(|high| *high > 0).unwrap_or(0)
}

/// The place of a grid with the fewest cells in use.
fn shortest<const B: u32>(grids: &[Grid<B>]) -> usize
    requires { 1 ≤ length grids.now }
    ensures { result < length grids.now }
{
    let mut least = 0;
    let mut fewest = last_used(&grids[0]);
    for at in 1..grids.len() {
        let many = last_used(&grids[at]);
        if many < fewest {
            least = at;
            fewest = many;
        }
    }
    least
}

/// Adds up the two sums with the fewest cells in use, of at least two that have no unit in common,
/// and puts their sum behind the others.
fn add_two<const B: u32>(
    alloc: Global,
    work: &mut Workspace,
    sums: &mut Vec<Grid<B>>,
    cells: u32,
) -> Result<(), AllocError>
    requires sums { 2 ≤ length sums.old.items }
    requires some { 1 ≤ cells }
    requires in_each { All (λ g. length g ≡ cells) sums.old.items }
    ensures fewer { OnOk result (length sums.new.items + 1 ≡ length sums.old.items) }
    ensures in_each { OnOk result (All (λ g. length g ≡ cells) sums.new.items) }
    ensures sums { OnOk result ((grids : List (List (Iv B))) (tests : List (ℕ → Bool))
        → AreSumsOfChosen cells grids sums.old.items tests → AreApart tests
        → KeepsChosen cells grids sums.new.items tests) }
{
    let first = sums.remove(shortest(sums.as_slice()));
    let second = sums.remove(shortest(sums.as_slice()));
    let sum = product(alloc, work, &first, &second, cells)?;
    sums.push(sum)?;
    Ok(())
}

/// The sum of sums of units that have no unit in common, of `cells` cells each. The two with the
/// fewest cells in use are added up first, as in Huffman's tree.
fn together<const B: u32>(
    alloc: Global,
    work: &mut Workspace,
    sums: Vec<Grid<B>>,
    cells: u32,
) -> Result<Grid<B>, AllocError>
    requires sums { 1 ≤ length sums.items }
    requires some { 1 ≤ cells }
    requires in_each { All (λ g. length g ≡ cells) sums.items }
    ensures { IfOk result (λ g. (grids : List (List (Iv B))) (tests : List (ℕ → Bool))
        → AreSumsOfChosen cells grids sums.entry.items tests → AreApart tests
        → IsSumOfPart cells grids (λ us. chosen us (in_some tests)) (Some g)) }
{
    let mut sums = sums;
    let many = sums.len();
    'sums: for step in 1..many {
        let _step = step;
        add_two(alloc, work, &mut sums, cells)?;
    }
    Ok(sums.remove(0))
}

/// The first `cells` cells of each unit but the one at `skip`.
fn singles<const B: u32>(
    alloc: Global,
    units: &[Grid<B>],
    skip: usize,
    cells: u32,
) -> Result<Vec<Grid<B>>, AllocError>
    requires { HaveCells cells units.now }
    ensures in_each { IfOk result (λ sums. All (λ g. length g ≡ cells) sums.items) }
    ensures sums { IfOk result (λ sums. (tests : List (ℕ → Bool))
        × AreSumsOfChosen cells units.now sums.items tests
        × ((i : ℕ) → passed tests i
        ≡ (if nat_lt i (length units.now) && not (nat_eq i skip) then 1 else 0))) }
{
    let mut sums = Vec::new(alloc);
    'units: for at in 0..units.len() {
        if at != skip {
            sums.push(Grid::truncate(alloc, &units[at], cells)?)?;
        }
    }
    Ok(sums)
}

/// The first `cells` cells of the sum of all units but the one at `skip`, the shortest first; of all
/// units, where none is there. Another unit is there.
pub(crate) fn shortest_first<const B: u32>(
    alloc: Global,
    work: &mut Workspace,
    units: &[Grid<B>],
    skip: usize,
    cells: u32,
) -> Result<Option<Grid<B>>, AllocError>
    requires { HaveCells cells units.now }
    ensures { IfOk result (λ sum. IsSumOfPart cells units.now (λ us. without us skip) sum) }
{
    let sums = singles(alloc, units, skip, cells)?;
    if sums.is_empty() {
        return Ok(None);
    }
    Ok(Some(together(alloc, work, sums, cells)?))
}
