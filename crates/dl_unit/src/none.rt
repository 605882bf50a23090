//! The probability of no claim of a claim count.

ghost use Rattle.std.specs.Prelude.{ℕ, ◌-◌, ◌^◌, ◌≤◌, zero, IfOk};
ghost use Rattle.dl_limits.specs.Limits.{IsPlanScale};
ghost use Rattle.dl_exact.specs.Prelude.{Fraction, ◌over◌, sum_to};
ghost use Rattle.dl_model.specs.Prelude.{Holds, count_weights};
ghost use Rattle.dl_plan.specs.Prelude.{expected_count, IsClaimCount, HasPartsOf48Bits, IsNewZero};
ghost use Rattle.dl_budget.specs.Claims.{none_budget};

use crate::unbounded::gamma_claims;
use crate::unit::sum_grid;
use dl_grid::Grid;
use dl_iv::Iv;
use dl_plan::{Freq, Sev};
use dl_product::Workspace;
use std::alloc::{AllocError, Global};

/// The probability of no claim of a count of a valid plan in which it can be changed: cell 0 of
/// claims of amount 1 alone, on one cell. A claim of the unit's own severity may be 0, so that cell
/// 0 of the unit's own grid is no bound of it, and a shape below 1 may have more claims here than
/// above 0 in the unit: its cell is made without the unit's budget.
pub fn none_of<const B: u32>(
    alloc: Global,
    work: &mut Workspace,
    freq: &Freq,
) -> Result<Iv<B>, AllocError>
    requires scale { IsPlanScale B }
    requires count { IsClaimCount freq.now }
    requires expected { HasPartsOf48Bits (expected_count freq.now) }
    requires changed { (p : Fraction) × IsNewZero freq.now p }
    ensures holds { IfOk result (λ none. Holds (λ N. count_weights freq.now zero)
        (λ N. sum_to N (count_weights freq.now)) (none.lo over 2 ^ B) (none.hi over 2 ^ B)) }
    ensures width { IfOk result (λ none. none.hi - none.lo ≤ none_budget (2 ^ B) freq.now) }
{
    let sev = Sev::alone(alloc, 1)?;
    if let Freq::Gamma { shape, mean } = freq {
        if shape.num() < shape.den() {
            let grid: Grid<B> = gamma_claims(alloc, work, &sev, *mean, *shape, 1)?;
            return Ok(grid.at(0));
        }
    }
    let grid: Grid<B> = sum_grid(alloc, work, freq, &sev, 1)?;
    Ok(grid.at(0))
}
