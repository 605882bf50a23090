//! The test of a step.

ghost use Rattle.std.specs.Prelude.{ℕ, ◌≡◌, ◌*◌, ◌<◌, ◌≤◌, ◌↔◌, IsTrue, List, length, get_or, All, IfOk};
ghost use Rattle.dl_limits.specs.Limits.{most_cert_cells, most_cell_end};
ghost use Rattle.dl_iv.specs.declared.interval.Iv.{Iv};
ghost use Rattle.dl_grid.specs.Cells.{low_at, high_at, mass_low};
ghost use Rattle.dl_plan.specs.declared.plan.Plan.{Plan};
ghost use Rattle.dl_cert.specs.Bases.{AreStarts, PassesTo};
ghost use Rattle.dl_cert.specs.PassedSteps.{HavePassed};
ghost use Rattle.dl_cert.specs.declared.step.Kind.TheVariants.{Start, Times};
ghost use Rattle.dl_cert.specs.Numbers.{low_number, high_number};
ghost use Rattle.dl_cert.specs.Steps.{AreStepCells, Made, IsThere, made_at};
ghost use Rattle.dl_cert.specs.Targets.{target};

use crate::base::Base;
use crate::bases::{is_outside, is_start};
use crate::lines::{ReadStep, line_from, read_step};
use crate::step::Kind;
use dl_grid::Grid;
use dl_iv::Iv;
use dl_panjer::grid_of;
use dl_plan::Plan;
use dl_product::{Workspace, product};
use std::alloc::{AllocError, Global};

/// The sum of the low ends.
pub(crate) fn mass_of(cells: &[Iv<56>]) -> u128
    requires cells { AreStepCells cells.now }
    ensures { result ≡ mass_low cells.now }
{
    let mut mass = 0;
    for cell in cells {
        mass += cell.lo;
    }
    mass
}

/// Whether the cells pass beside those of a grid.
fn is_beside(cells: &[Iv<56>], numbers: &Grid<56>) -> bool
    requires as_many { length numbers.now ≡ length cells.now }
    requires few { length cells.now ≤ most_cert_cells }
    ensures { IsTrue result ↔ PassesTo (length cells.now) cells.now (low_at numbers.now)
        (high_at numbers.now) }
{
    for y in 0..cells.len() {
        if !is_outside(cells[y], numbers.at(y as u32)) {
            return false;
        }
    }
    true
}

/// The cells of a step that has passed, read again from its line.
pub(crate) fn cells_at(
    alloc: Global,
    plan: &Plan,
    text: &[u8],
    offsets: &[u32],
    step: u32,
) -> Result<Grid<56>, AllocError>
    requires so_far { (labels : List ℕ) × (before : List Made)
        × HavePassed plan.now text.now offsets.now labels before }
    requires inside { step < length offsets.now }
    ensures cells { IfOk result (λ grid. (labels : List ℕ) (before : List Made)
        → HavePassed plan.now text.now offsets.now labels before
        → grid ≡ (made_at before step).cells) }
    ensures many { IfOk result (λ grid. length grid ≡ plan.now.cells) }
{
    let line = line_from(text, offsets[step as usize] as usize);
    match read_step(alloc, line, plan.cells)? {
        Some(step) => grid_of(alloc, &step.cells),
        None => unreachable!(),
    }
}

/// Whether the cells pass beside those of the product of two steps.
fn are_times(
    alloc: Global,
    work: &mut Workspace,
    plan: &Plan,
    text: &[u8],
    offsets: &[u32],
    first: u32,
    second: u32,
    cells: &[Iv<56>],
) -> Result<bool, AllocError>
    requires few { plan.now.cells ≤ most_cert_cells }
    requires some { 1 ≤ plan.now.cells }
    requires cells { length cells.now ≡ plan.now.cells }
    requires first { first < length offsets.now }
    requires second { second < length offsets.now }
    requires so_far { (labels : List ℕ) × (before : List Made)
        × HavePassed plan.now text.now offsets.now labels before }
    ensures { IfOk result (λ passing. (labels : List ℕ) (before : List Made)
        → HavePassed plan.now text.now offsets.now labels before
        → IsTrue passing ↔ PassesTo plan.now.cells cells.now
        (low_number plan.now.units before (Times first second) (low_at cells.now))
        (high_number plan.now.units before (Times first second) (high_at cells.now))) }
{
    let left = cells_at(alloc, plan, text, offsets, first)?;
    let right = cells_at(alloc, plan, text, offsets, second)?;
    let numbers = product(alloc, work, &left, &right, plan.cells)?;
    Ok(is_beside(cells, &numbers))
}

/// Whether the cells of a step pass.
pub(crate) fn is_passing(
    alloc: Global,
    work: &mut Workspace,
    plan: &Plan,
    bases: &[Base],
    text: &[u8],
    offsets: &[u32],
    step: &ReadStep,
) -> Result<bool, AllocError>
    requires few { plan.now.cells ≤ most_cert_cells }
    requires some { 1 ≤ plan.now.cells }
    requires cells { length step.now.cells.items ≡ plan.now.cells }
    requires small { All (λ cell. cell.hi ≤ most_cell_end) step.now.cells.items }
    requires there { IsThere (length plan.now.units) (length offsets.now) step.now.kind }
    requires counted { (u : ℕ) → step.now.kind ≡ Start u → 1 ≤ target plan.now u }
    requires starts { (targets : List ℕ) × AreStarts plan.now bases.now targets }
    requires so_far { (labels : List ℕ) × (before : List Made)
        × HavePassed plan.now text.now offsets.now labels before }
    ensures { IfOk result (λ passing. (labels : List ℕ) (before : List Made)
        → HavePassed plan.now text.now offsets.now labels before
        → IsTrue passing ↔ PassesTo plan.now.cells step.now.cells.items
        (low_number plan.now.units before step.now.kind (low_at step.now.cells.items))
        (high_number plan.now.units before step.now.kind (high_at step.now.cells.items))) }
{
    let cells = step.cells.as_slice();
    match step.kind {
        Kind::One => {
            let ones = Grid::zero(alloc, plan.cells)?;
            Ok(is_beside(cells, &ones))
        }
        Kind::Start(unit) => {
            let sev = &plan.units.as_slice()[unit as usize].sev;
            Ok(is_start(&bases[unit as usize], sev, cells))
        }
        Kind::Times(first, second) => {
            are_times(alloc, work, plan, text, offsets, first, second, cells)
        }
    }
}
