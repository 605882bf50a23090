//! The grids of units whose counts have no greatest number of claims. The claims of amount 0 are
//! left out first: the count is then that of the claims above 0.

ghost use Rattle.std.specs.Prelude.{◌≡◌, ℕ, ◌+◌, ◌*◌, ◌^◌, ◌<◌, ◌≤◌, length, IfOk, Some, None};
ghost use Rattle.dl_limits.specs.Limits.{most_expected};
ghost use Rattle.dl_exact.specs.Fraction.{whole, ◌/ℚ◌, ◌≤ℚ◌};
ghost use Rattle.dl_frac.specs.Exact.{FitsFrac};
ghost use Rattle.dl_grid.specs.Prelude.{spread, IsGridSize};
ghost use Rattle.dl_model.specs.Prelude.{poisson, gamma_of, compound, times_itself, GridEncloses};
ghost use Rattle.dl_plan.specs.declared.severity.Sev.{Sev};
ghost use Rattle.dl_plan.specs.Prelude.{IsShape, IsUnbounded, HasPartsOf48Bits, probability_of, pairs_of, conditioned, HasDistribution, thinned_mean, claims_alone, IsValidUnit};
ghost use Rattle.dl_start.specs.Start.{most_claims_a_shape};
ghost use Rattle.dl_budget.specs.Prelude.{poisson_budget, gamma_budget, halvings};

use dl_budget::halvings;
use dl_claims::power;
use dl_frac::Frac;
use dl_grid::Grid;
use dl_panjer::{geometric_base, poisson_base, shape_base};
use dl_plan::{Freq, Sev};
use dl_product::{Workspace, product};
use std::alloc::{AllocError, Global};

/// The severity of the claims above 0, where any are expected.
pub(crate) fn positive_claims(
    alloc: Global,
    freq: &Freq,
    sev: &Sev,
) -> Result<Option<Sev>, AllocError>
    requires valid { (h : ℕ) × IsValidUnit h (claims_alone freq.now sev.now) }
    requires unbounded { IsUnbounded freq.now }
    ensures none { IfOk result (λ made. made ≡ None
        → thinned_mean (claims_alone freq.now sev.now) ≡ whole 0) }
    ensures some { IfOk result (λ made. (positive : Sev) → made ≡ Some positive
        → 0 < (thinned_mean (claims_alone freq.now sev.now)).num) }
    ensures means { IfOk result (λ made. (positive : Sev) → made ≡ Some positive
        → HasDistribution positive (conditioned 0 (pairs_of sev.now))) }
{
    if freq.thinned(sev).num() == 0 {
        return Ok(None);
    }
    sev.positive(alloc)
}

/// The grid of a Poisson number of claims above 0: the mean is halved to at most 1/2, and the sum
/// of such a share of it is doubled as often.
pub fn poisson_claims<const B: u32>(
    alloc: Global,
    work: &mut Workspace,
    sev: &Sev,
    mean: Frac,
    cells: u32,
) -> Result<Grid<B>, AllocError>
    requires size { IsGridSize B cells }
    requires no_zero { probability_of sev.now 0 ≡ whole 0 }
    requires admitted { HasPartsOf48Bits mean }
    requires within { mean ≤ℚ whole most_expected }
    ensures cells { IfOk result (λ g. length g ≡ cells) }
    ensures encloses { IfOk result (λ g.
        GridEncloses g (times_itself (compound (poisson (mean /ℚ whole (2 ^ halvings mean)))
        (probability_of sev.now)) (2 ^ halvings mean))) }
    ensures spread { IfOk result (λ g. spread g ≤ poisson_budget (2 ^ B) cells mean) }
{
    let halvings = halvings(mean);
    let base = poisson_base(alloc, sev, mean, halvings, cells)?;
    power(alloc, work, &base, 1 << halvings, cells)
}

/// The grid of a gamma number of claims above 0 of this shape: the power by the whole part of the
/// shape of the grid of a geometric number of claims, and the grid of the rest of the shape, added
/// up. A part of 0 is left out. It fails only for want of memory.
pub fn gamma_claims<const B: u32>(
    alloc: Global,
    work: &mut Workspace,
    sev: &Sev,
    mean: Frac,
    shape: Frac,
    cells: u32,
) -> Result<Grid<B>, AllocError>
    requires size { IsGridSize B cells }
    requires no_zero { probability_of sev.now 0 ≡ whole 0 }
    requires shape { IsShape shape }
    requires held { FitsFrac (mean /ℚ shape) }
    requires few { mean /ℚ shape ≤ℚ whole most_claims_a_shape }
    ensures cells { IfOk result (λ g. length g ≡ cells) }
    ensures encloses { IfOk result (λ g.
        GridEncloses g (compound (gamma_of shape mean) (probability_of sev.now))) }
    ensures spread { IfOk result (λ g. spread g ≤ gamma_budget (2 ^ B) cells shape mean) }
{
    let beta = mean.div(shape).unwrap();
    let (num, den) = (shape.num(), shape.den());
    if num < den {
        return shape_base(alloc, sev, beta, shape, cells);
    }
    let base = geometric_base(alloc, sev, beta, cells)?;
    let whole = power(alloc, work, &base, (num / den) as u32, cells)?;
    if num % den == 0 {
        return Ok(whole);
    }
    let rest = Frac::make(u128::from(num % den), u128::from(den)).unwrap();
    let part = shape_base(alloc, sev, beta, rest, cells)?;
    product(alloc, work, &whole, &part, cells)
}
