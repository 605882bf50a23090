//! The rules of one unit, in their order.

ghost use Rattle.std.specs.Prelude.{All, ◌≡◌, ◌<◌, ◌∷◌, ◌++◌, [], Option, None, Some, IfOk, Err, length, map};
ghost use Rattle.dl_rules.specs.Faults.{bounds_asked, most_asked, fault_of_text};
ghost use Rattle.dl_rules.specs.Answer.{HasFault, AnswersWith, AnswersUnit};
ghost use Rattle.dl_ast.specs.WellFormed.{IsFormedUnit, IsFormedDefinition};
ghost use Rattle.dl_ast.specs.declared.ast.MixAst.{MixAst as Mixture};
ghost use Rattle.dl_rules.specs.Known.{IsMixtureRead, IsKnown};
ghost use Rattle.dl_rules.specs.Checked.{IsSet};
ghost use Rattle.dl_reading.specs.Prelude.{grid_of, flaws_of, IsGridUnit, IsWithin};
ghost use Rattle.dl_limits.specs.Limits.{most_units};
ghost use Rattle.dl_rules.specs.UnitNames.{names_of};

use crate::broken::{broken, typing, unless_broken};
use crate::changes::common_unit;
use crate::fault::CheckFault;
use crate::grid_rules::check_grid;
use crate::known::{KnownSeverity, unit_severity};
use crate::names::check_name;
use crate::rule::Rule;
use crate::scale::{bounds_asked, most_asked};
use crate::severities::body_span;
use dl_ast::{PortHead, SevDef, UnitAst};
use dl_plan::{Settings, Unit};
use dl_reading::{Flaws, GridSev, GridUnit, Gridded, grid_unit};
use indexmap::IndexSet;
use std::alloc::Global;

/// The rules that reading a unit can break.
#[tactic(auto, unfolding(dl_reading::specs::First::first_in))]
fn check_flaws(number: u32, flaws: Flaws) -> Result<(), CheckFault>
    ensures { HasFault (fault_of_text number flaws) result }
{
    broken(number, Rule::BadNumeral, flaws.numeral)?;
    broken(number, Rule::BadRange, flaws.range)?;
    broken(number, Rule::ListTooLong, flaws.long)?;
    broken(number, Rule::LengthsDiffer, flaws.lengths)?;
    broken(number, Rule::NotOne, flaws.sum)?;
    broken(number, Rule::OffGrid, flaws.off_grid)?;
    broken(number, Rule::TooFar, flaws.too_far)
}

/// The unit with this severity in whole buckets, where reading it breaks no rule.
fn check_text(
    alloc: Global,
    number: u32,
    unit: &UnitAst,
    sev: Gridded<GridSev>,
    settings: &Settings,
) -> Result<GridUnit, CheckFault>
    requires set { IsSet settings.now }
    requires formed { IsFormedUnit unit.now }
    requires sev { (mix : Mixture) × IsMixtureRead settings.now mix sev }
    ensures fault { (mix : Mixture) → IsMixtureRead settings.now mix sev
        → HasFault (fault_of_text number
        (flaws_of (bounds_asked settings.now) (most_asked settings.now) settings.now.bs unit.now
        mix)) result }
    ensures same { (mix : Mixture) → IsMixtureRead settings.now mix sev
        → IfOk result (λ made. made ≡ grid_of settings.now.bs unit.now mix) }
    ensures grid { IfOk result IsGridUnit }
    ensures within { IfOk result (IsWithin (most_asked settings.now)) }
{
    let bounds = bounds_asked(settings);
    let made = grid_unit(alloc, unit, sev, settings.bs, most_asked(settings), bounds)?;
    let checked = check_flaws(number, made.flaws);
    unless_broken(made.part, checked)
}

/// The unit of the plan, or the first rule that the unit with this severity breaks.
#[tactic(auto, unfolding(crate::specs::Faults::fault_with))]
fn check_with<'a>(
    alloc: Global,
    names: &mut IndexSet<&'a [u8]>,
    before: &'a [UnitAst],
    unit: &'a UnitAst,
    sev: Gridded<GridSev>,
    settings: &Settings,
) -> Result<Unit, CheckFault>
    requires set { IsSet settings.now }
    requires names { map (λ name. name.now) names.old.keys ≡ names_of before.now }
    requires few { length before.now < most_units }
    requires formed { IsFormedUnit unit.now }
    requires sev { (mix : Mixture) × IsMixtureRead settings.now mix sev }
    ensures answer { (mix : Mixture) → IsMixtureRead settings.now mix sev
        → AnswersWith settings.now before.now unit.now mix result }
    ensures names { IfOk result (λ _. map (λ name. name.now) names.new.keys
        ≡ names_of before.now ++ unit.now.name.text ∷ []) }
{
    let number = before.len() as u32;
    let named = check_name(number, Rule::DuplicateName, names, &unit.name);
    let kept = unless_broken(sev, named)?;
    let grid = check_text(alloc, number, unit, kept, settings)?;
    check_grid(alloc, number, unit, &grid, settings)
}

/// The unit of the plan, or the first rule that the unit breaks, in a program with this portfolio
/// and these named severities, of which some are known.
pub(crate) fn check_unit<'a>(
    alloc: Global,
    names: &mut IndexSet<&'a [u8]>,
    known: &mut Vec<KnownSeverity<'a>>,
    port: &Option<PortHead>,
    sevs: &[SevDef],
    before: &'a [UnitAst],
    unit: &'a UnitAst,
    settings: &Settings,
) -> Result<Unit, CheckFault>
    requires set { IsSet settings.now }
    requires names { map (λ name. name.now) names.old.keys ≡ names_of before.now }
    requires known { All (IsKnown settings.now sevs.now) known.old.items }
    requires few { length before.now < most_units }
    requires formed { IsFormedUnit unit.now }
    requires defined { All IsFormedDefinition sevs.now }
    ensures answer { AnswersUnit settings.now port.now sevs.now before.now unit.now result }
    ensures names { IfOk result (λ _. map (λ name. name.now) names.new.keys
        ≡ names_of before.now ++ unit.now.name.text ∷ []) }
    ensures known { IfOk result (λ _. All (IsKnown settings.now sevs.now) known.new.items) }
{
    let number = before.len() as u32;
    match unit_severity(alloc, known, sevs, &unit.sev.body, settings)? {
        Some(sev) => {
            let made = check_with(alloc, names, before, unit, sev, settings)?;
            let span = common_unit(port, unit);
            unless_broken(made, broken(number, Rule::CommonUnit, span))
        }
        None => Err(typing(number, Rule::UnknownSeverity, body_span(&unit.sev.body))),
    }
}
