//! The grid of one claim.

ghost use Rattle.std.specs.Prelude.{◌≡◌, ℕ, ◌*◌, ◌^◌, ◌<◌, ◌≤◌, length, IfOk};
ghost use Rattle.std.specs.Int.{div_ceil};
ghost use Rattle.dl_model.specs.Prelude.{fixed, compound, GridEncloses};
ghost use Rattle.dl_grid.specs.Prelude.{high_at, spread, IsGridSize};
ghost use Rattle.dl_plan.specs.Prelude.{weight_at, probability_of};

use dl_claims::claim_grid;
use dl_grid::Grid;
use dl_plan::Sev;
use std::alloc::{AllocError, Global};

/// The first `cells` cells of one claim of this severity.
pub(crate) fn one_claim<const B: u32>(
    alloc: Global,
    sev: &Sev,
    cells: u32,
) -> Result<Grid<B>, AllocError>
    requires size { IsGridSize B cells }
    ensures cells { IfOk result (λ g. length g ≡ cells) }
    ensures high { IfOk result (λ g. (y : ℕ) → y < cells
        → high_at g y ≡ div_ceil (2 ^ B * weight_at sev.now.items y) sev.now.total) }
    ensures encloses { IfOk result (λ g.
        GridEncloses g (compound (fixed 1) (probability_of sev.now))) }
    ensures spread { IfOk result (λ g. spread g ≤ length sev.now.items) }
{
    claim_grid(alloc, sev.items.as_slice(), sev.total, cells)
}
