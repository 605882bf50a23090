//! The grids of units whose counts have a greatest number of claims.

ghost use Rattle.std.specs.Prelude.{◌≡◌, ℕ, ◌+◌, ◌*◌, ◌^◌, ◌≤◌, length, All, IfOk};
ghost use Rattle.dl_exact.specs.Fraction.{◌over◌};
ghost use Rattle.dl_grid.specs.Prelude.{IsGridSize, power_spread, mixed_spread};
ghost use Rattle.dl_model.specs.Prelude.{fixed, binomial, compound};
ghost use Rattle.dl_plan.specs.Prelude.{IsProbability, probability_of, weight_at, IsWeighted, greatest};
ghost use Rattle.dl_unit.specs.Narrow.{IsNarrow};

use crate::claim::one_claim;
use crate::trial::one_trial;
use dl_claims::{mix_counts, power};
use dl_frac::Frac;
use dl_grid::Grid;
use dl_plan::{Item, Sev};
use dl_product::Workspace;
use std::alloc::{AllocError, Global};

/// The grid of exactly `claims` claims.
pub(crate) fn fixed_claims<const B: u32>(
    alloc: Global,
    work: &mut Workspace,
    sev: &Sev,
    claims: u32,
    cells: u32,
) -> Result<Grid<B>, AllocError>
    requires size { IsGridSize B cells }
    ensures { IfOk result (IsNarrow cells (power_spread (2 ^ B) cells (length sev.now.items) claims)
        (compound (fixed claims) (probability_of sev.now))) }
{
    let claim = one_claim(alloc, sev, cells)?;
    power(alloc, work, &claim, claims, cells)
}

/// The grid of a listed number of claims: `counts` has each with its weight out of `total`.
pub(crate) fn listed_claims<const B: u32>(
    alloc: Global,
    work: &mut Workspace,
    sev: &Sev,
    counts: &[Item],
    total: u64,
    cells: u32,
) -> Result<Grid<B>, AllocError>
    requires size { IsGridSize B cells }
    requires weighted { IsWeighted counts.now total }
    ensures { IfOk result (IsNarrow cells
        (mixed_spread (2 ^ B) cells (length sev.now.items) (greatest counts.now))
        (compound (λ n. weight_at counts.now n over total) (probability_of sev.now))) }
{
    let claim = one_claim(alloc, sev, cells)?;
    mix_counts(alloc, work, &claim, counts, total, cells)
}

/// The grid of `trials` trials, each a claim with probability `q`.
pub(crate) fn binomial_claims<const B: u32>(
    alloc: Global,
    work: &mut Workspace,
    sev: &Sev,
    trials: u32,
    q: Frac,
    cells: u32,
) -> Result<Grid<B>, AllocError>
    requires size { IsGridSize B cells }
    requires probability { IsProbability q }
    ensures { IfOk result (IsNarrow cells
        (power_spread (2 ^ B) cells (3 * (length sev.now.items + 1)) trials)
        (compound (binomial trials q.num q.den) (probability_of sev.now))) }
{
    let trial = one_trial(alloc, sev, q, cells)?;
    power(alloc, work, &trial, trials, cells)
}
