//! The grid of one trial: a claim with some probability, else none.

ghost use Rattle.std.specs.Prelude.{◌≡◌, ℕ, ◌+◌, ◌-◌, ◌*◌, ◌/◌, ◌^◌, ◌<◌, ◌≤◌, min, length, IfOk};
ghost use Rattle.std.specs.Int.{div_ceil};
ghost use Rattle.dl_grid.specs.Prelude.{low_at, high_at, IsGrid, IsGridSize};
ghost use Rattle.dl_model.specs.Prelude.{binomial, compound};
ghost use Rattle.dl_plan.specs.Prelude.{IsProbability, probability_of};
ghost use Rattle.dl_unit.specs.Trials.{low_trial, high_trial};
ghost use Rattle.dl_unit.specs.Narrow.{IsNarrow};

use crate::claim::one_claim;
use dl_frac::Frac;
use dl_grid::{Grid, units_of_one};
use dl_iv::Iv;
use dl_panjer::grid_of;
use dl_plan::Sev;
use std::alloc::{AllocError, Global};

/// The cells, each times `q`.
fn scaled<const B: u32>(alloc: Global, claim: &Grid<B>, q: Frac) -> Result<Vec<Iv<B>>, AllocError>
    requires probability { IsProbability q }
    ensures cells { IfOk result (λ list. length list.items ≡ length claim.now) }
    ensures low { IfOk result (λ list. (y : ℕ) → y < length claim.now
        → low_at list.items y ≡ low_at claim.now y * q.num / q.den) }
    ensures high { IfOk result (λ list. (y : ℕ) → y < length claim.now
        → high_at list.items y ≡ div_ceil (high_at claim.now y * q.num) q.den) }
{
    let cells = claim.cells();
    let mut list = Vec::with_capacity(alloc, cells as usize)?;
    for x in 0..cells {
        list.push(claim.at(x).scale(q.num(), q.den()))?;
    }
    Ok(list)
}

/// Cell 0 of one trial: from a claim of amount 0, and from a trial without a claim; at most 1.
fn first_cell<const B: u32>(part: Iv<B>, q: Frac) -> Iv<B>
    requires probability { IsProbability q }
    requires small { part.hi ≤ 2 ^ B }
    ensures low { result.lo ≡ min (part.entry.lo + 2 ^ B * (q.den - q.num) / q.den) (2 ^ B) }
    ensures high { result.hi ≡ min (part.entry.hi + div_ceil (2 ^ B * (q.den - q.num)) q.den)
        (2 ^ B) }
{
    let none = Iv::enclose(u128::from(q.den() - q.num()), u128::from(q.den()));
    part.add(none).clamp_to(units_of_one(B))
}

/// From the grid of one claim: `q` times each cell, and the rest of 1 at 0 besides.
fn trial_of<const B: u32>(alloc: Global, claim: &Grid<B>, q: Frac) -> Result<Grid<B>, AllocError>
    requires { IsProbability q }
    ensures cells { IfOk result (λ g. length g ≡ length claim.now) }
    ensures low { IfOk result (λ g. (y : ℕ) → y < length claim.now
        → low_at g y ≡ low_trial (2 ^ B) q (low_at claim.now) y) }
    ensures high { IfOk result (λ g. (y : ℕ) → y < length claim.now
        → high_at g y ≡ high_trial (2 ^ B) q (high_at claim.now) y) }
{
    prove!(claim.cells() > 0);
    let mut list = scaled(alloc, claim, q)?;
    list[0] = first_cell(list[0], q);
    grid_of(alloc, list.as_slice())
}

/// The first `cells` cells of one trial, a claim with probability `q`.
pub(crate) fn one_trial<const B: u32>(
    alloc: Global,
    sev: &Sev,
    q: Frac,
    cells: u32,
) -> Result<Grid<B>, AllocError>
    requires size { IsGridSize B cells }
    requires probability { IsProbability q }
    ensures { IfOk result (IsNarrow cells (3 * (length sev.now.items + 1))
        (compound (binomial 1 q.num q.den) (probability_of sev.now))) }
{
    let claim = one_claim(alloc, sev, cells)?;
    prove!(claim.cells() > 0);
    trial_of(alloc, &claim, q)
}
