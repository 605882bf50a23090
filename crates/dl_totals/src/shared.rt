//! The sum of all units, and those of all units but one, from sums that they share: those of a tree,
//! or where one unit alone is asked for, that of all other units.

ghost use Rattle.std.specs.Prelude.{◌≡◌, ◌<◌, ◌≤◌, ◌↔◌, Bool, List, [], ◌∷◌, length, replicate, slice_set, Some, None, false, IsTrue, IsSome, Any, All, IfOk, IfSome};
ghost use Rattle.dl_limits.specs.Limits.{most_units};
ghost use Rattle.dl_model.specs.Prelude.{without};
ghost use Rattle.dl_totals.specs.Shared.{AreUnits, HaveCells, IsSumOfPart, IsOnly, IsTotal, IsSumWithout, AreSumsWithout};
ghost use Rattle.dl_totals.specs.Tree.{AreOthers, IsTree};

use crate::only::{only_asked, others_shortest, others_unless_wide, total_of};
use crate::tree::{Node, nodes_over, outside_units, sum_of_all};
use crate::widths::spread_of_sum;
use crate::{sum_one_by_one, total_with};
use dl_grid::Grid;
use dl_product::Workspace;
use std::alloc::{AllocError, Global};

/// Sums of a program's units.
#[derive(Drop)]
pub struct Sums<const B: u32> {
    /// The sum of all units.
    pub total: Grid<B>,
    /// For each unit that was asked for, the sum of all other units; none for the others.
    pub others: Vec<Option<Grid<B>>>,
}

/// The sum of all units. Where this one is wider than it may be when the units are taken in one by
/// one, they are taken in one by one.
fn total_unless_wide<const B: u32>(
    alloc: Global,
    work: &mut Workspace,
    units: &[Grid<B>],
    sum: Grid<B>,
    cells: u32,
) -> Result<Grid<B>, AllocError>
    requires cells { AreUnits cells units.now }
    requires sum { IsSumOfPart cells units.now (λ us. us) (Some sum) }
    ensures { IfOk result (IsTotal cells units.now) }
{
    if let Some(most) = spread_of_sum(units, cells) {
        if sum.spread() <= most {
            return Ok(sum);
        }
    }
    sum_one_by_one(alloc, work, units, cells)
}

/// The sum of all units but unit `i`, where it is asked for. Where it is not there yet, or wider than
/// it may be when the others are taken in one by one, they are taken in one by one.
fn one_where_asked<const B: u32>(
    alloc: Global,
    work: &mut Workspace,
    units: &[Grid<B>],
    i: usize,
    asked: bool,
    sum: Option<Grid<B>>,
    cells: u32,
) -> Result<Option<Grid<B>>, AllocError>
    requires unit { i < length units.now }
    requires few { length units.now ≤ most_units }
    requires cells { HaveCells cells units.now }
    requires sum { IfSome sum (λ g. IsSumOfPart cells units.now (λ us. without us i) (Some g)) }
    ensures there { IfOk result (λ sum. IsSome sum ↔ IsTrue asked) }
    ensures sum { IfOk result (λ sum. IfSome sum (IsSumWithout cells units.now i)) }
{
    if !asked {
        return Ok(None);
    }
    let sum = others_unless_wide(alloc, work, units, i, sum, cells)?;
    Ok(Some(sum))
}

/// For each unit that is asked for, the sum of all other units, from such sums, of which some may
/// be wide or not there.
fn others_where_asked<const B: u32>(
    alloc: Global,
    work: &mut Workspace,
    units: &[Grid<B>],
    asked: &[bool],
    sums: Vec<Option<Grid<B>>>,
    cells: u32,
) -> Result<Vec<Option<Grid<B>>>, AllocError>
    requires few { length units.now ≤ most_units }
    requires asked { length asked.now ≡ length units.now }
    requires cells { HaveCells cells units.now }
    requires many { length sums.items ≡ length units.now }
    requires each { AreOthers cells units.now sums.items }
    ensures { IfOk result (λ others. AreSumsWithout cells units.now asked.now others.items) }
{
    let mut sums = sums;
    for i in 0..units.len() {
        let sum = sums[i].take();
        let other = one_where_asked(alloc, work, units, i, asked[i], sum, cells)?;
        sums[i] = other;
    }
    Ok(sums)
}

/// For each unit that is asked for, the sum of all other units, from a tree over all units.
fn others_by_tree<const B: u32>(
    alloc: Global,
    work: &mut Workspace,
    units: &[Grid<B>],
    asked: &[bool],
    nodes: Vec<Node<B>>,
    cells: u32,
) -> Result<Vec<Option<Grid<B>>>, AllocError>
    requires cells { AreUnits cells units.now }
    requires few { length units.now ≤ most_units }
    requires asked { length asked.now ≡ length units.now }
    requires tree { IsTree cells units.now nodes.items }
    ensures { IfOk result (λ others. AreSumsWithout cells units.now asked.now others.items) }
{
    let outer = outside_units(alloc, work, units, asked, nodes, cells)?;
    others_where_asked(alloc, work, units, asked, outer, cells)
}

/// The first `cells` cells of the sum of all units, and for each unit that is asked for, of the sum
/// of all other units, from one tree.
fn sums_by_tree<const B: u32>(
    alloc: Global,
    work: &mut Workspace,
    units: &[Grid<B>],
    asked: &[bool],
    cells: u32,
) -> Result<Sums<B>, AllocError>
    requires cells { AreUnits cells units.now }
    requires few { length units.now ≤ most_units }
    requires asked { length asked.now ≡ length units.now }
    ensures total { IfOk result (λ sums. IsTotal cells units.now sums.total) }
    ensures others { IfOk result (λ sums.
        AreSumsWithout cells units.now asked.now sums.others.items) }
{
    let nodes = nodes_over(alloc, work, units, asked, cells)?;
    let all = sum_of_all(alloc, units, nodes.as_slice(), cells)?;
    let others = others_by_tree(alloc, work, units, asked, nodes, cells)?;
    let total = total_unless_wide(alloc, work, units, all, cells)?;
    Ok(Sums { total, others })
}

/// Whether some unit is asked for.
fn some_asked(asked: &[bool]) -> bool
    ensures { IsTrue result ↔ Any (λ a. IsTrue a) asked.now }
{
    asked.iter().any(|asked| *asked)
}

/// For each of `many` units, no sum of the other units.
pub(crate) fn no_others<const B: u32>(
    alloc: Global,
    many: usize,
) -> Result<Vec<Option<Grid<B>>>, AllocError>
    ensures { IfOk result (λ others. others.items ≡ replicate many None) }
{
    let mut others = Vec::new(alloc);
    for _ in 0..many {
        others.push(None)?;
    }
    Ok(others)
}

/// For each of `many` units, no sum of the other units, but for unit `i` this one.
fn one_other<const B: u32>(
    alloc: Global,
    many: usize,
    i: usize,
    sum: Grid<B>,
) -> Result<Vec<Option<Grid<B>>>, AllocError>
    requires { i < many }
    ensures { IfOk result (λ others.
        others.items ≡ slice_set (replicate many None) i (Some sum.entry)) }
{
    let mut others = no_others(alloc, many)?;
    others[i] = Some(sum);
    Ok(others)
}

/// The sum of all units, and that of all but unit `i`, where it alone is asked for.
fn sums_of_only<const B: u32>(
    alloc: Global,
    work: &mut Workspace,
    units: &[Grid<B>],
    i: usize,
    cells: u32,
) -> Result<Sums<B>, AllocError>
    requires unit { i < length units.now }
    requires few { length units.now ≤ most_units }
    requires cells { HaveCells cells units.now }
    ensures total { IfOk result (λ sums. IsTotal cells units.now sums.total) }
    ensures others { IfOk result (λ sums. (asked : List Bool) → length asked ≡ length units.now
        → IsOnly asked i → AreSumsWithout cells units.now asked sums.others.items) }
{
    let sum = others_shortest(alloc, work, units, i, cells)?;
    let total = total_of(alloc, work, units, i, &sum, cells)?;
    let others = one_other(alloc, units.len(), i, sum)?;
    Ok(Sums { total, others })
}

/// The sum of all units, where no other sum is asked for.
fn sums_of_none<const B: u32>(
    alloc: Global,
    work: &mut Workspace,
    units: &[Grid<B>],
    cells: u32,
) -> Result<Sums<B>, AllocError>
    requires { AreUnits cells units.now }
    ensures total { IfOk result (λ sums. IsTotal cells units.now sums.total) }
    ensures others { IfOk result (λ sums.
        sums.others.items ≡ replicate (length units.now) None) }
{
    let others = no_others(alloc, units.len())?;
    let total = total_with(alloc, work, units, cells)?;
    Ok(Sums { total, others })
}

/// The first `cells` cells of the sum of all units, and for each unit that is asked for, of the sum
/// of all other units. These are as wide as those of `total` and `others` may be, and come from
/// sums that they share: where none comes out wider, at most three products for each unit, however
/// many are asked for, and one product fewer than there are units where one is asked for. Where none
/// is asked for, the total is that of `total_with`. There is at least one unit, and each grid has at
/// least these cells.
pub fn total_and_others<const B: u32>(
    alloc: Global,
    work: &mut Workspace,
    units: &[Grid<B>],
    asked: &[bool],
    cells: u32,
) -> Result<Sums<B>, AllocError>
    requires units { 1 ≤ length units.now }
    requires few { length units.now ≤ most_units }
    requires asked { length asked.now ≡ length units.now }
    requires some { 1 ≤ cells }
    requires in_each { All (λ g. cells ≤ length g) units.now }
    ensures total { IfOk result (λ sums. IsTotal cells units.now sums.total) }
    ensures others { IfOk result (λ sums.
        AreSumsWithout cells units.now asked.now sums.others.items) }
{
    if let Some(i) = only_asked(asked) {
        return sums_of_only(alloc, work, units, i, cells);
    }
    if some_asked(asked) {
        return sums_by_tree(alloc, work, units, asked, cells);
    }
    sums_of_none(alloc, work, units, cells)
}

/// The same sums of one unit alone, where no other sum is asked for. The total is the unit's grid,
/// which is moved and not copied.
pub fn sums_of_one<const B: u32>(alloc: Global, unit: Grid<B>) -> Result<Sums<B>, AllocError>
    ensures total { IfOk result (λ sums. IsTotal (length unit.entry) (unit.entry ∷ []) sums.total) }
    ensures others { IfOk result (λ sums. AreSumsWithout (length unit.entry) (unit.entry ∷ [])
        (false ∷ []) sums.others.items) }
{
    let others = no_others(alloc, 1)?;
    Ok(Sums {
        total: unit,
        others,
    })
}
