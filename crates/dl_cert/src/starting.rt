//! The grids of starts, each end its number.

ghost use Rattle.std.specs.Prelude.{◌≡◌, ℕ, ◌<◌, ◌≤◌, length, All, IfOk};
ghost use Rattle.dl_limits.specs.Limits.{most_cert_cells, most_cell_end};
ghost use Rattle.dl_grid.specs.Cells.{low_at, high_at};
ghost use Rattle.dl_plan.specs.Prelude.{thinned_mean, IsValidUnit};
ghost use Rattle.dl_cert.specs.Bases.{low_base, high_base};
ghost use Rattle.dl_cert.specs.Starts.{IsExactStart};
ghost use Rattle.dl_cert.specs.Targets.{unit_parts};

use crate::base::Base;
use crate::bases::number_after;
use crate::units::base_of;
use dl_grid::Grid;
use dl_iv::Iv;
use dl_panjer::grid_of;
use dl_plan::{Sev, Unit};
use std::alloc::{AllocError, Global};

/// The cells of a start, each from the cells before it.
fn start_cells(alloc: Global, base: &Base, sev: &Sev, cells: u32) -> Result<Vec<Iv<56>>, AllocError>
    requires few { cells ≤ most_cert_cells }
    ensures cells { IfOk result (λ list. length list.items ≡ cells) }
    ensures small { IfOk result (λ list. All (λ cell. cell.hi ≤ most_cell_end) list.items) }
    ensures low { IfOk result (λ list. (y : ℕ) → y < cells
        → low_at list.items y ≡ low_base base.now sev.now (low_at list.items) y) }
    ensures high { IfOk result (λ list. (y : ℕ) → y < cells
        → high_at list.items y ≡ high_base base.now sev.now (high_at list.items) y) }
{
    let mut list = Vec::with_capacity(alloc, cells as usize)?;
    for y in 0..cells {
        let cell = number_after(base, sev, list.as_slice());
        list.push(cell)?;
    }
    Ok(list)
}

/// The start of a unit of a valid plan that some starts make up.
pub(crate) fn start_grid(alloc: Global, unit: &Unit, cells: u32) -> Result<Grid<56>, AllocError>
    requires above { 1 ≤ cells }
    requires few { cells ≤ most_cert_cells }
    requires valid { (h : ℕ) × IsValidUnit h unit.now }
    requires some { 1 ≤ unit_parts unit.now }
    ensures cells { IfOk result (λ g. length g ≡ cells) }
    ensures exact { IfOk result (λ g.
        IsExactStart unit.now.freq unit.now.sev (thinned_mean unit.now) g) }
{
    let base = base_of(alloc, unit)?;
    let list = start_cells(alloc, &base, &unit.sev, cells)?;
    grid_of(alloc, list.as_slice())
}
