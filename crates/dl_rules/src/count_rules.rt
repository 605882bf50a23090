//! The rules on the claim count of a unit, and on its fractions.

ghost use Rattle.std.specs.Prelude.{◌≡◌, ◌<◌, Option, None, Some, IfOk, Ok, Err};
ghost use Rattle.dl_rules.specs.Faults.{breaks, first_broken, whole_rules, count_rules};
ghost use Rattle.dl_rules.specs.Answer.{HasFault};
ghost use Rattle.dl_rules.specs.declared.rule.Rule.TheVariants.{TooFine};
ghost use Rattle.dl_reading.specs.Prelude.{off_grid_cession, severity_in_layer, support, IsWeighed, IsLayered, AreClausesOf};
ghost use Rattle.dl_rules.specs.Rules.{shape_not_whole, too_fine};
ghost use Rattle.dl_limits.specs.Rules.{AreBounds};
ghost use Rattle.dl_plan.specs.Ranges.{IsBucket};
ghost use Rattle.dl_rules.specs.Exposures.{expected_claims};
ghost use Rattle.dl_rules.specs.Claimed.{AreClaims, IsNumberOf, IsUnitCount};

use crate::broken::{broken, typing, unless_broken};
use crate::claims::{Claims, above_zero};
use crate::clause_rules::LayeredUnit;
use crate::counts::too_many_claims;
use crate::exposures::{
    count_above_one, count_not_whole, expected_claims, shape_not_whole, trials_not_whole, zero_mean,
};
use crate::fault::CheckFault;
use crate::fine::{fine_count, fine_severity};
use crate::rule::Rule;
use dl_frac::Frac;
use dl_limits::Bounds;
use dl_plan::Sev;
use dl_reading::{Clauses, GridCount, GridUnit, off_grid_cession, span_if, weighed_severity};
use std::alloc::Global;

/// The rules on its count, and on the sizes of what it means. What its claims come to.
#[tactic(auto, unfolding(dl_reading::specs::First::first_in))]
pub(crate) fn check_count<'a>(
    alloc: Global,
    number: u32,
    unit: &'a GridUnit,
    bs: Frac,
    bounds: Bounds,
    layered_unit: &LayeredUnit,
) -> Result<Claims<'a>, CheckFault>
    requires bounds { AreBounds bounds }
    requires bucket { IsBucket bs }
    requires layered { IsLayered unit.now }
    requires ceded { off_grid_cession unit.now ≡ None }
    requires amounts { layered_unit.now.amounts.items ≡ support (severity_in_layer unit.now) }
    requires clauses { AreClausesOf unit.now layered_unit.now.clauses }
    ensures fault { HasFault (first_broken number (count_rules bounds bs unit.now)) result }
    ensures claims { IfOk result (AreClaims unit.now) }
    ensures count { IfOk result (λ claims. IsUnitCount unit.now.count
        (expected_claims bounds bs unit.now) claims.count) }
{
    let span = zero_mean(&unit.count, &layered_unit.amounts);
    broken(number, Rule::ZeroMean, span)?;
    let layered = weighed_severity(alloc, unit, bounds)?;
    let count = expected_claims(unit, bs, &layered);
    let whole = check_whole(number, &unit.count, &count, bounds);
    let kept = unless_broken(layered, whole)?;
    let clauses = &layered_unit.clauses;
    let claims = check_fine(alloc, number, unit, clauses, kept, count, bounds)?;
    let many = too_many_claims(&claims.count, &claims.above);
    let checked = broken(number, Rule::TooManyClaims, span_if(many, unit.name));
    unless_broken(claims, checked)
}

/// The rules on whole numbers, with `expected` claims expected.
#[tactic(auto, unfolding(dl_reading::specs::First::first_in))]
fn check_whole(
    number: u32,
    count: &GridCount,
    expected: &Option<Frac>,
    bounds: Bounds,
) -> Result<(), CheckFault>
    ensures { HasFault (first_broken number (whole_rules bounds count.now expected.now)) result }
{
    let span = count_not_whole(count, expected);
    broken(number, Rule::CountNotWhole, span)?;
    let span = count_above_one(count, expected);
    broken(number, Rule::CountAboveOne, span)?;
    let span = trials_not_whole(count, expected);
    broken(number, Rule::TrialsNotWhole, span)?;
    let span = shape_not_whole(count, bounds);
    broken(number, Rule::ShapeNotWhole, span)
}

/// The rule on fractions, and what the claims of a unit come to whose fractions are fine.
fn check_fine<'a>(
    alloc: Global,
    number: u32,
    unit: &'a GridUnit,
    clauses: &Clauses,
    layered: Option<Sev>,
    count: Option<Frac>,
    bounds: Bounds,
) -> Result<Claims<'a>, CheckFault>
    requires bounds { AreBounds bounds }
    requires layered { IsLayered unit.now }
    requires ceded { off_grid_cession unit.now ≡ None }
    requires made { AreClausesOf unit.now clauses.now }
    requires weighed { IsWeighed bounds unit.now layered }
    requires number { IsNumberOf unit.now.count count }
    requires shape { shape_not_whole bounds unit.now.count ≡ None }
    ensures fault { HasFault (breaks number TooFine (too_fine bounds unit.now count)) result }
    ensures claims { IfOk result (AreClaims unit.now) }
    ensures count { IfOk result (λ claims. IsUnitCount unit.now.count count claims.count) }
{
    let Some(severity) = fine_severity(alloc, unit, clauses, layered, bounds)? else {
        return Err(typing(number, Rule::TooFine, unit.name));
    };
    let above = above_zero(&severity, &count);
    let Some(count) = fine_count(&unit.count, &count, &above, bounds) else {
        return Err(typing(number, Rule::TooFine, unit.name));
    };
    Ok(Claims {
        severity,
        count,
        above,
    })
}
