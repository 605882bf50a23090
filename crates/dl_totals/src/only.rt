//! The sums where one unit alone is asked for: the sum of all others comes first, and the total from
//! it.

ghost use Rattle.std.specs.Prelude.{◌<◌, ◌≤◌, length, Some, IfOk, IfSome};
ghost use Rattle.dl_limits.specs.Limits.{most_units};
ghost use Rattle.dl_model.specs.Prelude.{without};
ghost use Rattle.dl_totals.specs.Shared.{HaveCells, IsSumOfPart, IsTotal, IsSumWithout, IsOnly};

use crate::shortest::shortest_first;
use crate::widths::{spread_of_sum, spread_without};
use crate::{others_with, total_with};
use dl_grid::Grid;
use dl_product::{Workspace, product};
use std::alloc::{AllocError, Global};

/// The place of the only unit that is asked for; none where there are none or several.
pub(crate) fn only_asked(asked: &[bool]) -> Option<usize>
    ensures { IfSome result (IsOnly asked.now) }
{
    let mut only = None;
    for at in 0..asked.len() {
        if asked[at] {
            if only.is_some() {
                return None;
            }
            only = Some(at);
        }
    }
    only
}

/// The sum of all units but the one at `i`. Where this one is not there, or wider than it may be when
/// the others are taken in one by one, they are taken in one by one.
pub(crate) fn others_unless_wide<const B: u32>(
    alloc: Global,
    work: &mut Workspace,
    units: &[Grid<B>],
    i: usize,
    sum: Option<Grid<B>>,
    cells: u32,
) -> Result<Grid<B>, AllocError>
    requires unit { i < length units.now }
    requires few { length units.now ≤ most_units }
    requires cells { HaveCells cells units.now }
    requires sum { IfSome sum (λ g. IsSumOfPart cells units.now (λ us. without us i) (Some g)) }
    ensures { IfOk result (IsSumWithout cells units.now i) }
{
    if let Some(sum) = sum {
        if let Some(most) = spread_without(units, i as u32, cells) {
            if sum.spread() <= most {
                return Ok(sum);
            }
        }
    }
    others_with(alloc, work, units, i as u32, cells)
}

/// The sum of all units but the one at `i`, the shortest first. Where that comes out wider than it
/// may be when the others are taken in one by one, they are taken in one by one.
pub(crate) fn others_shortest<const B: u32>(
    alloc: Global,
    work: &mut Workspace,
    units: &[Grid<B>],
    i: usize,
    cells: u32,
) -> Result<Grid<B>, AllocError>
    requires unit { i < length units.now }
    requires few { length units.now ≤ most_units }
    requires cells { HaveCells cells units.now }
    ensures { IfOk result (IsSumWithout cells units.now i) }
{
    let sum = shortest_first(alloc, work, units, i, cells)?;
    others_unless_wide(alloc, work, units, i, sum, cells)
}

/// The sum of all units, from that of all but the one at `i`. Where it comes out wider than it may
/// be when the units are taken in one by one, they are taken in one by one.
pub(crate) fn total_of<const B: u32>(
    alloc: Global,
    work: &mut Workspace,
    units: &[Grid<B>],
    i: usize,
    others: &Grid<B>,
    cells: u32,
) -> Result<Grid<B>, AllocError>
    requires unit { i < length units.now }
    requires cells { HaveCells cells units.now }
    requires others { IsSumWithout cells units.now i others.now }
    ensures { IfOk result (IsTotal cells units.now) }
{
    let sum = product(alloc, work, others, &units[i], cells)?;
    if let Some(most) = spread_of_sum(units, cells) {
        if sum.spread() <= most {
            return Ok(sum);
        }
    }
    total_with(alloc, work, units, cells)
}
