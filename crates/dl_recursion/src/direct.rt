//! The grids of units whose counts are of the (a, b, 0) class, by one recursion.

ghost use Rattle.std.specs.Prelude.{◌≡◌, ℕ, ◌*◌, ◌^◌, ◌<◌, ◌≤◌, max, length, IfOk, IfSome, IsTrue};
ghost use Rattle.dl_limits.specs.Limits.{most_cells, most_expected, most_weights, admitted_bound};
ghost use Rattle.dl_exact.specs.Fraction.{Fraction, whole, ◌*ℚ◌, ◌≤ℚ◌};
ghost use Rattle.dl_grid.specs.Prelude.{IsGrid, IsGridSize};
ghost use Rattle.dl_model.specs.Prelude.{poisson, gamma_of, IsPanjer, compound, GridEncloses};
ghost use Rattle.dl_plan.specs.Prelude.{probability_of, HasPartsOf48Bits, IsShape};
ghost use Rattle.dl_recursion.specs.Runs.{run_parts, all_parts, part_sum, IsRun, ArePositiveAmounts};
ghost use Rattle.dl_recursion.specs.Recursion.{HasRoomOver, AreFirst};
ghost use Rattle.dl_start.specs.Start.{HoldsNoClaim};

use crate::blocks::{MANY, by_blocks};
use crate::cells::{START_BITS, ScaledCells};
use crate::parts::{Amounts, Run, amounts_of, common_amount};
use crate::passes::{MOST_PASSES, by_passes};
use crate::recursion::recur;
use crate::to_grid::to_grid;
use dl_frac::Frac;
use dl_grid::Grid;
use dl_plan::Sev;
use dl_start::{Scaled, gamma_start, poisson_start};
use std::alloc::{AllocError, Global};

/// How the weights of a count step, but for a ratio: the weight of `n + 1` claims is
/// `(before * n + after) / (n + 1)` times the ratio times that of `n`.
#[derive(Clone, Copy)]
struct Steps {
    before: u64,
    after: u64,
    ghost before_small: { before < admitted_bound },
    ghost after_small: { after < admitted_bound },
    ghost some: { 0 < after },
}

/// Whether the sums of the recursion stay in their words: the factors of a cell in 64 bits, and
/// what it is divided by in 64 bits. `each` is the ratio of the steps over the total of the
/// weights.
fn is_within_words(steps: Steps, each: Frac, total: u64, cells: u32) -> bool
    requires total_small { total ≤ most_weights }
    requires cells_small { cells ≤ most_cells }
    ensures factors { IsTrue result
        → max steps.before steps.after * cells * (each.num * total) < 2 ^ 64 }
    ensures divisors { IsTrue result → each.den * cells < 2 ^ 64 }
{
    let limit: u128 = 1 << 64;
    let factors = u128::from(steps.before.max(steps.after) * u64::from(cells));
    let weights = u128::from(each.num()) * u128::from(total);
    weights < limit
        && factors * weights < limit
        && u128::from(each.den()) * u128::from(cells) < limit
}

/// The run that has all amounts, where one has.
fn only_run(amounts: &Amounts) -> Option<Run>
    requires amounts { ArePositiveAmounts amounts.now }
    ensures parts { IfSome result (λ run. all_parts amounts.now ≡ run_parts run) }
    ensures run { IfSome result IsRun }
{
    if !amounts.parts.is_empty() || amounts.runs.len() != 1 {
        return None;
    }
    Some(amounts.runs[0])
}

/// The first `cells` cells: by passes where the count has a whole shape and the amounts are one
/// run, by blocks where it is a Poisson count and many amounts are taken alone, and one by one else.
fn first_cells(
    alloc: Global,
    amounts: &Amounts,
    before: u64,
    after: u64,
    q: u64,
    cells: usize,
) -> Result<ScaledCells, AllocError>
    requires some { 0 < cells }
    requires few { cells ≤ most_cells }
    requires amounts { ArePositiveAmounts amounts.now }
    requires some_step { 0 < after }
    requires room { HasRoomOver q before after (part_sum (all_parts amounts.now)) cells }
    ensures { IfOk result (AreFirst (all_parts amounts.now) before after q cells) }
{
    if before == 1 && after <= MOST_PASSES {
        if let Some(run) = only_run(amounts) {
            if let Some(x) = by_passes(alloc, run, after, q, cells)? {
                return Ok(x);
            }
        }
    }
    if before == 0 && amounts.parts.len() >= MANY {
        if let Some(x) = by_blocks(alloc, amounts, after, q, cells)? {
            return Ok(x);
        }
    }
    recur(alloc, amounts, before, after, q, cells)
}

/// The grid of the compound sum of a count whose weights step so, with this ratio, and whose
/// probability of no claim is `start`; None where a number of the recursion does not fit its word,
/// which no clause excludes. The recursion goes over the multiples of the common divisor of the
/// amounts alone, since no other sum has a probability above 0.
fn compound_direct<const B: u32>(
    alloc: Global,
    sev: &Sev,
    steps: Steps,
    ratio: Frac,
    start: Scaled,
    cells: u32,
) -> Result<Option<Grid<B>>, AllocError>
    requires size { IsGridSize B cells }
    requires no_zero { probability_of sev.now 0 ≡ whole 0 }
    ensures cells { IfOk result (λ made. IfSome made (λ g. length g ≡ cells)) }
    ensures encloses { IfOk result (λ made. IfSome made (λ g. (w : ℕ → Fraction)
        → IsPanjer (whole steps.before *ℚ ratio) (whole steps.after *ℚ ratio) w
        → HoldsNoClaim w start → GridEncloses g (compound w (probability_of sev.now)))) }
{
    let divisor = u128::from(ratio.den()) * u128::from(sev.total);
    let Ok(each) = Frac::make(u128::from(ratio.num()), divisor) else {
        return Ok(None);
    };
    let step = common_amount(sev.items.as_slice());
    let rows = (cells - 1) / step + 1;
    if !is_within_words(steps, each, sev.total, rows) {
        return Ok(None);
    }
    let amounts = amounts_of(alloc, sev.items.as_slice(), step, each.num())?;
    let x = first_cells(
        alloc,
        &amounts,
        steps.before,
        steps.after,
        each.den(),
        rows as usize,
    )?;
    let scale = START_BITS + u64::from(start.exponent);
    let raised = x.shift + u64::from(B);
    if raised > scale {
        return Ok(None);
    }
    let grid = to_grid(alloc, &x, start, scale - raised, step, cells)?;
    Ok(Some(grid))
}

/// The first `cells` cells of a Poisson number of claims of this mean, by one recursion, without a
/// bound on their spread. Or None: no clause says when a number of the recursion does not fit its
/// word, so a caller has to have another way, and None costs it time alone.
pub fn poisson_direct<const B: u32>(
    alloc: Global,
    sev: &Sev,
    mean: Frac,
    cells: u32,
) -> Result<Option<Grid<B>>, AllocError>
    requires size { IsGridSize B cells }
    requires no_zero { probability_of sev.now 0 ≡ whole 0 }
    requires admitted { HasPartsOf48Bits mean }
    requires within { mean ≤ℚ whole most_expected }
    ensures cells { IfOk result (λ made. IfSome made (λ g. length g ≡ cells)) }
    ensures encloses { IfOk result (λ made. IfSome made (λ g.
        GridEncloses g (compound (poisson mean) (probability_of sev.now)))) }
{
    let start = poisson_start(mean.num(), mean.den());
    let steps = Steps {
        before: 0,
        after: 1,
    };
    compound_direct(alloc, sev, steps, mean, start, cells)
}

/// The first `cells` cells of a gamma number of claims of this shape and mean, by one recursion,
/// without a bound on their spread. Or None, as for a Poisson number, and where the mean over the
/// shape is no `Frac`.
pub fn gamma_direct<const B: u32>(
    alloc: Global,
    sev: &Sev,
    shape: Frac,
    mean: Frac,
    cells: u32,
) -> Result<Option<Grid<B>>, AllocError>
    requires size { IsGridSize B cells }
    requires no_zero { probability_of sev.now 0 ≡ whole 0 }
    requires shape { IsShape shape }
    requires admitted { HasPartsOf48Bits mean }
    ensures cells { IfOk result (λ made. IfSome made (λ g. length g ≡ cells)) }
    ensures encloses { IfOk result (λ made. IfSome made (λ g.
        GridEncloses g (compound (gamma_of shape mean) (probability_of sev.now)))) }
{
    let Ok(beta) = mean.div(shape) else {
        return Ok(None);
    };
    let rest = (u128::from(beta.num()) + u128::from(beta.den())) * u128::from(shape.den());
    let Ok(ratio) = Frac::make(u128::from(beta.num()), rest) else {
        return Ok(None);
    };
    let steps = Steps {
        before: shape.den(),
        after: shape.num(),
    };
    let start = gamma_start(beta, shape);
    compound_direct(alloc, sev, steps, ratio, start, cells)
}
