//! The rules on a unit in whole buckets, and its unit of the plan.

ghost use Rattle.std.specs.Prelude.{◌≡◌, ◌<◌, Option, None, Some, IfOk, IfErr, Ok};
ghost use Rattle.dl_rules.specs.Faults.{breaks, most_asked};
ghost use Rattle.dl_rules.specs.Answer.{HasFault, AnswersGrid};
ghost use Rattle.dl_rules.specs.declared.rule.Rule.TheVariants.{HorizonTooLarge, ZeroBase};
ghost use Rattle.dl_rules.specs.Rules.{horizon_too_large, zero_base};
ghost use Rattle.dl_plan.specs.Horizon.{horizon};
ghost use Rattle.dl_rules.specs.Plans.{IsCountMade, cede_of};
ghost use Rattle.dl_rules.specs.Checked.{IsSet, IsCountChecked};
ghost use Rattle.dl_reading.specs.Prelude.{◌else◌, IsMade, IsGridUnit, IsWithin};
ghost use Rattle.dl_limits.specs.Limits.{most_horizon};
ghost use Rattle.dl_rules.specs.declared.fault.CheckFault.TheVariants.{OutOfMemory};
ghost use Rattle.dl_rules.specs.Claimed.{count_of, number_of};

use crate::broken::{broken, unless_broken};
use crate::changes::zero_base;
use crate::claims::{Claims, UnitCount};
use crate::clause_rules::check_clauses;
use crate::count_rules::check_count;
use crate::counts::unit_count;
use crate::fault::CheckFault;
use crate::rule::Rule;
use crate::scale::{bounds_asked, cells, most_asked};
use dl_ast::UnitAst;
use dl_frac::Frac;
use dl_lexer::{Span, Text};
use dl_limits::most_horizon;
use dl_plan::{Cede, Settings, Unit};
use dl_reading::{GridUnit, MadeClause, span_if};
use std::alloc::Global;

/// The rule on the horizon of an aggregate clause, and that clause, where there is one.
#[tactic(auto, unfolding(crate::specs::Rules::horizon_too_large))]
fn check_horizon(number: u32, agr: MadeClause, cells: u32) -> Result<Option<Cede>, CheckFault>
    requires { IsMade agr }
    ensures fault { HasFault (breaks number HorizonTooLarge
        (horizon_too_large cells agr)) result }
    ensures made { IfOk result (λ made. made ≡ cede_of agr) }
{
    let MadeClause::Whole(cede, span) = agr else {
        return Ok(None);
    };
    let span = span_if(cede.horizon(cells) > most_horizon(cells) as u128, span);
    unless_broken(Some(cede), broken(number, Rule::HorizonTooLarge, span))
}

/// The rules on the horizon of an aggregate clause and on a changed probability of no claim, and
/// that clause, where there is one.
fn check_changes(
    number: u32,
    agr: MadeClause,
    count: &UnitCount,
    zero: &Option<Frac>,
    cells: u32,
) -> Result<Option<Cede>, CheckFault>
    requires made { IsMade agr }
    requires count { IsCountChecked (count_of count.now) (number_of count.now) }
    ensures fault { HasFault (breaks number HorizonTooLarge (horizon_too_large cells agr)
        else breaks number ZeroBase (zero_base (count_of count.now) zero.now (number_of count.now)))
        result }
    ensures made { IfOk result (λ made. made ≡ cede_of agr) }
{
    let cede = check_horizon(number, agr, cells)?;
    let span = zero_base(count, zero);
    unless_broken(cede, broken(number, Rule::ZeroBase, span))
}

/// The unit of the plan with this name, of what its claims come to, its aggregate clause and
/// its changed probability of no claim.
fn planned(
    alloc: Global,
    name: &[u8],
    claims: Claims,
    cede: Option<Cede>,
    zero: Option<Frac>,
) -> Result<Unit, CheckFault>
    requires { IsCountChecked (count_of claims.count) (number_of claims.count) }
    ensures name { IfOk result (λ made. made.name ≡ name.now) }
    ensures severity { IfOk result (λ made. made.sev ≡ claims.entry.severity) }
    ensures count { IfOk result (λ made. IsCountMade (count_of claims.entry.count)
        (number_of claims.entry.count) made.freq) }
    ensures clause { IfOk result (λ made. made.cede ≡ cede) }
    ensures zero { IfOk result (λ made. made.zero ≡ zero) }
    ensures room { IfErr result (λ stop. stop ≡ OutOfMemory) }
{
    let freq = unit_count(alloc, &claims.count)?;
    let name = Text::copy(alloc, name)?;
    Ok(Unit {
        name,
        sev: claims.severity,
        freq,
        cede,
        zero,
    })
}

/// The unit of the plan of a unit in whole buckets, or the first rule on it that it breaks.
pub(crate) fn check_grid(
    alloc: Global,
    number: u32,
    unit: &UnitAst,
    grid: &GridUnit,
    settings: &Settings,
) -> Result<Unit, CheckFault>
    requires set { IsSet settings.now }
    requires grid { IsGridUnit grid.now }
    requires within { IsWithin (most_asked settings.now) grid.now }
    ensures { AnswersGrid settings.now number unit.now.name.text grid.now result }
{
    let layered_unit = check_clauses(alloc, number, grid)?;
    let bounds = bounds_asked(settings);
    let claims = check_count(alloc, number, grid, settings.bs, bounds, &layered_unit)?;
    let clauses = layered_unit.clauses;
    let cede = check_changes(
        number,
        clauses.agr,
        &claims.count,
        &grid.zero,
        cells(settings),
    )?;
    planned(alloc, unit.name.text.as_slice(), claims, cede, grid.zero)
}
