//! The plan of a program, or its first fault.

ghost use Rattle.std.specs.Prelude.{◌≡◌, ◌≤◌, [], None, Ok, All, length};
ghost use Rattle.dl_reading.specs.First.{in_turn};
ghost use Rattle.dl_rules.specs.Faults.{bounds_asked, fault_of_severity};
ghost use Rattle.dl_limits.specs.Limits.{most_units};
ghost use Rattle.dl_ast.specs.WellFormed.{IsWellFormed, IsFormedUnit, IsFormedDefinition};
ghost use Rattle.dl_rules.specs.Rules.{too_many_units};
ghost use Rattle.dl_rules.specs.Checked.{IsSet};
ghost use Rattle.dl_rules.specs.Answer.{IsCheckOf, AnswersUnits};

use crate::broken::typing;
use crate::changes::shared_shape;
use crate::fault::CheckFault;
use crate::known::KnownSeverity;
use crate::rule::Rule;
use crate::scale::{bounds_asked, cells};
use crate::severities::check_severities;
use crate::totals::check_total;
use crate::unit::check_unit;
use dl_ast::{PortHead, Program, SevDef, UnitAst};
use dl_lexer::Span;
use dl_plan::{Items, Plan, Settings, Unit};
use indexmap::IndexSet;
use std::alloc::Global;

/// The plan of a program, in buckets of the size that is set, on a grid of 2^`log2` cells; or the
/// first broken rule, with its place. More units than the rules that are set allow come before all
/// other faults, then two severities of one name, then the rules of each unit in the order of the
/// text, and last those of the portfolio.
///
/// It needs a program as the parser builds it, and settings in their ranges. `CheckFault::Typing`
/// names the rule. `CheckFault::OutOfMemory` says that memory ran out.
pub fn check(alloc: Global, program: &Program, settings: &Settings) -> Result<Plan, CheckFault>
    requires formed { IsWellFormed program.now }
    requires set { IsSet settings.now }
    ensures { IsCheckOf program.now settings.now result }
{
    let most = bounds_asked(settings).units;
    if let Some(span) = too_many_units(program.units.as_slice(), most) {
        return Err(typing(most as u32, Rule::TooManyUnits, span));
    }
    let sevs = program.sevs.as_slice();
    check_severities(alloc, sevs)?;
    let units = check_units(
        alloc,
        &program.port,
        sevs,
        program.units.as_slice(),
        settings,
    )?;
    planned(program, settings, units)
}

/// The plan of a program with these units, or the first rule that the portfolio breaks.
fn planned(program: &Program, settings: &Settings, units: Items<Unit>) -> Result<Plan, CheckFault>
    requires formed { IsWellFormed program.now }
    requires set { IsSet settings.now }
    requires few { too_many_units (bounds_asked settings.now).units program.now.units ≡ None }
    requires fresh { in_turn fault_of_severity [] program.now.sevs ≡ None }
    requires units { AnswersUnits settings.now program.now.port program.now.sevs program.now.units (Ok units) }
    ensures { IsCheckOf program.now settings.now result }
{
    let common = shared_shape(program, settings, units.as_slice())?;
    check_total(program, settings, units.as_slice())?;
    Ok(Plan {
        bs: settings.bs,
        cells: cells(settings),
        units,
        common,
    })
}

/// The span of the first unit past the first `most`.
#[tactic(auto, unfolding(crate::specs::Rules::too_many_units))]
fn too_many_units(units: &[UnitAst], most: usize) -> Option<Span>
    ensures { result ≡ too_many_units most units.now }
{
    Some(units.get(most)?.name.span)
}

/// The units of the plan, or the first fault of the first unit that has one.
fn check_units(
    alloc: Global,
    port: &Option<PortHead>,
    sevs: &[SevDef],
    units: &[UnitAst],
    settings: &Settings,
) -> Result<Items<Unit>, CheckFault>
    requires set { IsSet settings.now }
    requires few { length units.now ≤ most_units }
    requires formed { All IsFormedUnit units.now }
    requires defined { All IsFormedDefinition sevs.now }
    ensures { AnswersUnits settings.now port.now sevs.now units.now result }
{
    let mut names = IndexSet::new(alloc);
    let mut known = Vec::new(alloc);
    units_among(alloc, &mut names, &mut known, port, sevs, units, settings)
}

/// The units of the plan, or the first fault of the first unit that has one, where no name is
/// taken up yet and no severity is known.
fn units_among<'a>(
    alloc: Global,
    names: &mut IndexSet<&'a [u8]>,
    known: &mut Vec<KnownSeverity<'a>>,
    port: &Option<PortHead>,
    sevs: &[SevDef],
    units: &'a [UnitAst],
    settings: &Settings,
) -> Result<Items<Unit>, CheckFault>
    requires set { IsSet settings.now }
    requires names { names.old.keys ≡ [] }
    requires known { known.old.items ≡ [] }
    requires few { length units.now ≤ most_units }
    requires formed { All IsFormedUnit units.now }
    requires defined { All IsFormedDefinition sevs.now }
    ensures { AnswersUnits settings.now port.now sevs.now units.now result }
{
    let mut made = Vec::new(alloc);
    'units: for (at, unit) in units.iter().enumerate() {
        let before = &units[..at];
        let unit = check_unit(alloc, names, known, port, sevs, before, unit, settings)?;
        made.push(unit)?;
    }
    Ok(Items::from_vec(made))
}
