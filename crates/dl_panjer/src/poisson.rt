//! The Poisson count.

ghost use Rattle.std.specs.Prelude.{◌≡◌, ℕ, ◌+◌, ◌*◌, ◌^◌, ◌≤◌, length, IfOk};
ghost use Rattle.dl_exact.specs.Fraction.{whole, ◌over◌, ◌/ℚ◌, ◌≤ℚ◌};
ghost use Rattle.dl_grid.specs.Prelude.{spread, IsGridSize};
ghost use Rattle.dl_model.specs.Prelude.{poisson, compound, GridEncloses};
ghost use Rattle.dl_plan.specs.Prelude.{probability_of, HasPartsOf48Bits};
ghost use Rattle.dl_panjer.specs.Bases.{IsPoissonBase, StartsAtExp};

use crate::exponential::exp_neg;
use crate::follow::follow;
use crate::made::grid_of;
use crate::rate::rate_of;
use crate::rates::halved;
use dl_frac::Frac;
use dl_grid::Grid;
use dl_plan::Sev;
use std::alloc::{AllocError, Global};

/// The grid of a Poisson number of claims of mean `mean / 2^halvings`. Cell 0 is `exp_neg` of the
/// mean. Where a high end was lowered to 1, that end and those that follow from it still hold the
/// declared probabilities.
pub fn poisson_base<const B: u32>(
    alloc: Global,
    sev: &Sev,
    mean: Frac,
    halvings: u32,
    cells: u32,
) -> Result<Grid<B>, AllocError>
    requires size { IsGridSize B cells }
    requires admitted { HasPartsOf48Bits mean }
    requires halvings { halvings ≤ 13 }
    requires half { mean /ℚ whole (2 ^ halvings) ≤ℚ 1 over 2 }
    requires no_zero { probability_of sev.now 0 ≡ whole 0 }
    ensures cells { IfOk result (λ g. length g ≡ cells) }
    ensures start { IfOk result (λ g. StartsAtExp (mean /ℚ whole (2 ^ halvings)) g) }
    ensures follows { IfOk result (λ g. IsPoissonBase sev.now (mean /ℚ whole (2 ^ halvings)) g) }
    ensures encloses { IfOk result (λ g. GridEncloses g
        (compound (poisson (mean /ℚ whole (2 ^ halvings))) (probability_of sev.now))) }
    ensures spread { IfOk result (λ g. spread g ≤ 8 * cells + 128) }
{
    let share = halved(mean, halvings);
    let start = exp_neg(share);
    let rate = rate_of(share);
    let list = follow::<B, true>(alloc, sev.items.as_slice(), sev.total, rate, start, cells)?;
    grid_of(alloc, &list)
}
