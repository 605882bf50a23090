//! The report of a plan.

ghost use Rattle.std.specs.Prelude.{◌≡◌, ◌^◌, IfOk, MatchResult};
ghost use Rattle.dl_plan.specs.Prelude.{AreInRange, IsPlanAt, IsValid};
ghost use Rattle.dl_answers.specs.Admission.{IsAdmissionOf};
ghost use Rattle.dl_answers.specs.Answers.{AreAdmitted, IsAnswered, IsGoodReport, RefusesAsk};

use dl_answers::{Admitted, EvalFault, admit, are_means, cells_asked, mean_report, report};
use dl_limits::{LONG_BITS, MOST_SHORT_CELLS, SHORT_BITS};
use dl_plan::{Plan, Settings};
use dl_report::Report;
use dl_sources::{drawn_for, mean_for};
use std::alloc::{AllocError, Global};

/// The report of a plan whose asks are admitted, from grids in units of `1 / 2^B`.
fn admitted_report<const B: u32>(
    alloc: Global,
    plan: &Plan,
    settings: &Settings,
    admitted: &Admitted,
) -> Result<Report, AllocError>
    requires plan { IsPlanAt B plan.now }
    requires ranges { AreInRange settings.now }
    requires admitted { AreAdmitted plan.now settings.now }
    requires told { IsAdmissionOf (2 ^ B) plan.now settings.now.asks admitted.now }
    ensures { IfOk result (λ report. IsGoodReport plan.now settings.now report) }
{
    let asks = settings.asks.as_slice();
    if are_means(asks) {
        let mean = mean_for::<B>(alloc, plan)?;
        return mean_report(alloc, plan, settings, mean);
    }
    let reach = cells_asked(plan.cells, asks);
    let drawn = drawn_for::<B>(alloc, plan, &admitted.budgets, reach)?;
    report(alloc, plan, settings, admitted, &drawn)
}

/// The report of a plan whose grids are in units of `1 / 2^B`, or its first refused ask.
fn answered<const B: u32>(
    alloc: Global,
    plan: &Plan,
    settings: &Settings,
) -> Result<Report, EvalFault>
    requires plan { IsPlanAt B plan.now }
    requires ranges { AreInRange settings.now }
    ensures { MatchResult result (IsAnswered plan.now settings.now)
        (RefusesAsk plan.now settings.now) }
{
    let admitted = admit::<B>(alloc, plan, settings)?;
    Ok(admitted_report::<B>(alloc, plan, settings, &admitted)?)
}

/// A row for each ask, in order; or the first ask that lies past the grid, else the first that
/// names no unit, else the first for a share of the tail mean where the units share a factor, else
/// the first that needs more width than the settings give, with the width it needs. The grids of a
/// plan of up to 4,096 cells are in units of 1 / 2^56, those of a longer one in units of 1 / 2^48.
pub(crate) fn evaluate(alloc: Global, plan: &Plan, settings: &Settings) -> Result<Report, EvalFault>
    requires valid { IsValid plan.now }
    requires ranges { AreInRange settings.now }
    ensures { MatchResult result (IsAnswered plan.now settings.now)
        (RefusesAsk plan.now settings.now) }
{
    if plan.cells <= MOST_SHORT_CELLS {
        answered::<SHORT_BITS>(alloc, plan, settings)
    } else {
        answered::<LONG_BITS>(alloc, plan, settings)
    }
}
