//! The geometric count.

ghost use Rattle.std.specs.Prelude.{◌≡◌, ℕ, ◌+◌, ◌*◌, ◌^◌, ◌<◌, ◌≤◌, length, IfOk};
ghost use Rattle.dl_exact.specs.Prelude.{whole, ◌over◌, ◌+ℚ◌, ◌*ℚ◌, ◌/ℚ◌, IsFloor, IsCeiling};
ghost use Rattle.dl_grid.specs.Prelude.{low_at, high_at, spread, IsGridSize, up};
ghost use Rattle.dl_model.specs.Prelude.{gamma_of, compound, GridEncloses};
ghost use Rattle.dl_plan.specs.Prelude.{probability_of};
ghost use Rattle.dl_panjer.specs.Bases.{IsGeometricBase};

use crate::follow::follow;
use crate::made::grid_of;
use crate::rate::Rate;
use dl_frac::Frac;
use dl_grid::Grid;
use dl_iv::Iv;
use dl_plan::Sev;
use std::alloc::{AllocError, Global};

/// The rate of the recursion and cell 0 of a geometric number of claims of mean `beta`: `beta / (1
/// + beta)`, and `1 / (1 + beta)` by one floor and one ceiling.
pub fn geometric_start<const B: u32>(beta: Frac) -> (Rate, Iv<B>)
    requires scale_above { 1 ≤ B }
    requires scale_below { B ≤ 56 }
    ensures rate { result.0.num over result.0.den ≡ beta /ℚ (whole 1 +ℚ beta) }
    ensures num { result.0.num ≡ beta.num }
    ensures low { IsFloor (whole (2 ^ B) /ℚ (whole 1 +ℚ beta)) result.1.lo }
    ensures high { IsCeiling (whole (2 ^ B) /ℚ (whole 1 +ℚ beta)) result.1.hi }
    ensures near { result.1.hi ≤ result.1.lo + 1 }
    ensures small { result.1.hi ≤ 2 ^ B }
{
    let (num, den) = (beta.num(), beta.num() + beta.den());
    (
        Rate { num, den },
        Iv::enclose(u128::from(beta.den()), u128::from(den)),
    )
}

/// The grid of a geometric number of claims of mean `beta`, which is the gamma count of shape 1.
/// Cell 0 encloses `1 / (1 + beta)` by one floor and one ceiling.
pub fn geometric_base<const B: u32>(
    alloc: Global,
    sev: &Sev,
    beta: Frac,
    cells: u32,
) -> Result<Grid<B>, AllocError>
    requires size { IsGridSize B cells }
    requires no_zero { probability_of sev.now 0 ≡ whole 0 }
    ensures cells { IfOk result (λ g. length g ≡ cells) }
    ensures start_low { IfOk result (λ g. IsFloor (whole (2 ^ B) /ℚ (whole 1 +ℚ beta))
        (low_at g 0)) }
    ensures start_high { IfOk result (λ g. IsCeiling (whole (2 ^ B) /ℚ (whole 1 +ℚ beta))
        (high_at g 0)) }
    ensures follows { IfOk result (λ g. IsGeometricBase sev.now beta g) }
    ensures encloses { IfOk result (λ g.
        GridEncloses g (compound (gamma_of (whole 1) beta) (probability_of sev.now))) }
    ensures spread { IfOk result (λ g.
        spread g ≤ up (whole (4 * cells + 1) *ℚ (whole 1 +ℚ beta))) }
{
    let (rate, start) = geometric_start::<B>(beta);
    let list = follow::<B, false>(alloc, sev.items.as_slice(), sev.total, rate, start, cells)?;
    grid_of(alloc, &list)
}
