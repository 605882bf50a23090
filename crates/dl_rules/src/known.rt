//! Severities in whole buckets. One with a name is read where a unit first refers to it.

ghost use Rattle.std.specs.Prelude.{◌≡◌, List, None, Some, All, IfOk, IfSome};
ghost use Rattle.std.specs.Option.{MatchOption};
ghost use Rattle.dl_ast.specs.WellFormed.{IsFormedBody, IsFormedMixture, IsFormedDefinition};
ghost use Rattle.dl_ast.specs.declared.ast.SevDef.{SevDef as Definition};
ghost use Rattle.dl_plan.specs.declared.settings.Settings.{Settings as SettingsOfPlan};
ghost use Rattle.dl_rules.specs.Checked.{IsSet};
ghost use Rattle.dl_rules.specs.Known.{IsMixtureRead, IsSeverityRead, IsKnown};
ghost use Rattle.dl_rules.specs.Severities.{named, mixture_of};

use crate::scale::{bounds_asked, most_asked};
use crate::severities::named;
use dl_ast::{MixAst, SevBody, SevDef};
use dl_plan::Settings;
use dl_reading::{GridSev, Gridded, grid_mixture};
use std::alloc::{AllocError, Global};

/// A severity with a name that a unit has referred to.
#[derive(Drop)]
pub(crate) struct KnownSeverity<'a> {
    /// Its name.
    pub(crate) name: &'a [u8],
    /// Its mixture in whole buckets.
    pub(crate) made: Gridded<GridSev>,
}

/// The severity of a unit in whole buckets; none where no severity has the name that it refers to.
#[tactic(auto, unfolding(crate::specs::Severities::mixture_of))]
pub(crate) fn unit_severity<'a>(
    alloc: Global,
    known: &mut Vec<KnownSeverity<'a>>,
    sevs: &[SevDef],
    body: &'a SevBody,
    settings: &Settings,
) -> Result<Option<Gridded<GridSev>>, AllocError>
    requires set { IsSet settings.now }
    requires defined { All IsFormedDefinition sevs.now }
    requires formed { IsFormedBody body.now }
    requires known { All (IsKnown settings.now sevs.now) known.old.items }
    ensures known { IfOk result (λ _. All (IsKnown settings.now sevs.now) known.new.items) }
    ensures read { IfOk result (λ made. MatchOption made (mixture_of sevs.now body.now ≡ None)
        (IsSeverityRead settings.now (mixture_of sevs.now body.now))) }
{
    match body {
        SevBody::Mixture(mix) => Ok(Some(read_mixture(alloc, mix, settings)?)),
        SevBody::Ref(name) => named_severity(alloc, known, sevs, name.text.as_slice(), settings),
    }
}

/// The severity with this name in whole buckets; none where no severity has it.
fn named_severity<'a>(
    alloc: Global,
    known: &mut Vec<KnownSeverity<'a>>,
    sevs: &[SevDef],
    name: &'a [u8],
    settings: &Settings,
) -> Result<Option<Gridded<GridSev>>, AllocError>
    requires set { IsSet settings.now }
    requires defined { All IsFormedDefinition sevs.now }
    requires known { All (IsKnown settings.now sevs.now) known.old.items }
    ensures known { IfOk result (λ _. All (IsKnown settings.now sevs.now) known.new.items) }
    ensures read { IfOk result (λ made. MatchOption made (named sevs.now name.now ≡ None)
        (IsSeverityRead settings.now (named sevs.now name.now))) }
{
    if let Some(made) = known_severity(known, name) {
        return copied(alloc, made);
    }
    let Some(mix) = named(sevs, name) else {
        return Ok(None);
    };
    let made = read_mixture(alloc, mix, settings)?;
    known.push(KnownSeverity { name, made })?;
    copied(alloc, &known[known.len() - 1].made)
}

/// A copy of a severity that is there.
fn copied(alloc: Global, made: &Gridded<GridSev>) -> Result<Option<Gridded<GridSev>>, AllocError>
    ensures { IfOk result (λ copied. copied ≡ Some made.now) }
{
    Ok(Some(made.copy(alloc)?))
}

/// The severity with this name, where a unit before has referred to it.
fn known_severity<'b>(known: &'b [KnownSeverity], name: &[u8]) -> Option<&'b Gridded<GridSev>>
    ensures { (settings : SettingsOfPlan) (sevs : List Definition)
        → All (IsKnown settings sevs) known.now
        → IfSome result (λ made. IsSeverityRead settings (named sevs name.now) made.now) }
{
    for severity in known {
        if severity.name == name {
            return Some(&severity.made);
        }
    }
    None
}

/// A mixture in whole buckets.
fn read_mixture(
    alloc: Global,
    mix: &MixAst,
    settings: &Settings,
) -> Result<Gridded<GridSev>, AllocError>
    requires set { IsSet settings.now }
    requires formed { IsFormedMixture mix.now }
    ensures { IfOk result (IsMixtureRead settings.now mix.now) }
{
    let bounds = bounds_asked(settings);
    grid_mixture(alloc, mix, settings.bs, most_asked(settings), bounds)
}
