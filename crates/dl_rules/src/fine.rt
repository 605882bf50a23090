//! Whether all the fractions of a unit are fine.

ghost use Rattle.std.specs.Prelude.{◌≡◌, ◌||◌, Option, None, true, false, not, IfOk};
ghost use Rattle.std.specs.Option.{MatchOption};
ghost use Rattle.dl_limits.specs.Rules.{AreBounds};
ghost use Rattle.dl_exact.specs.Fraction.{whole, ◌<ℚ◌};
ghost use Rattle.dl_rules.specs.Rules.{loss_too_fine, exposed_too_fine, freq_too_fine, is_coarse_over, no_shape_of, shape_not_whole};
ghost use Rattle.dl_rules.specs.Exposures.{expected_loss, is_unbounded};
ghost use Rattle.dl_reading.specs.declared.grid.GridClause.{GridClause as ClauseInGrid};
ghost use Rattle.dl_reading.specs.Prelude.{made_of, AreClausesOf, has_shares, IsWeighed, IsLayered, has_probs, IsGridCount, off_grid_cession};
ghost use Rattle.dl_rules.specs.Claimed.{IsFineSeverity, IsNumberOf, IsUnitCount};

use crate::claims::{UnitCount, is_admitted, small};
use crate::frequencies::shape;
use dl_frac::Frac;
use dl_limits::Bounds;
use dl_plan::Sev;
use dl_reading::{
    Clauses, GridCount, GridExposure, GridFreq, GridUnit, MadeClause, are_fine, final_severity,
};
use std::alloc::{AllocError, Global};

/// The final severity of a unit; `None` exactly where the probabilities of its count, the shares of
/// a clause, or a part of its severity are not fine.
pub(crate) fn fine_severity(
    alloc: Global,
    unit: &GridUnit,
    clauses: &Clauses,
    layered: Option<Sev>,
    bounds: Bounds,
) -> Result<Option<Sev>, AllocError>
    requires bounds { AreBounds bounds }
    requires unit { IsLayered unit.now }
    requires ceded { off_grid_cession unit.now ≡ None }
    requires made { AreClausesOf unit.now clauses.now }
    requires layered { IsWeighed bounds unit.now layered }
    ensures { IfOk result (IsFineSeverity bounds unit.now) }
{
    let Some(layered) = layered else {
        return Ok(None);
    };
    if parts_too_fine(unit, clauses, bounds) {
        return Ok(None);
    }
    Ok(Some(final_severity(alloc, layered, &clauses.occ)?))
}

/// Whether the probabilities of listed counts, or the shares of a clause, are not fine.
fn parts_too_fine(unit: &GridUnit, clauses: &Clauses, bounds: Bounds) -> bool
    requires bounds { AreBounds bounds }
    requires layered { IsLayered unit.now }
    requires made { AreClausesOf unit.now clauses.now }
    ensures { result ≡ (not (has_probs bounds unit.now.count)
        || not (has_shares unit.now.occ) || not (has_shares unit.now.agr)) }
{
    count_too_fine(&unit.count, bounds) || is_too_fine(&clauses.occ) || is_too_fine(&clauses.agr)
}

/// Whether the shares of a clause are not fine.
fn is_too_fine(made: &MadeClause) -> bool
    ensures { (clause : Option ClauseInGrid) → made.now ≡ made_of clause
        → result ≡ not (has_shares clause) }
{
    matches!(made, MadeClause::TooFine)
}

/// Whether the probabilities of listed counts are not fine.
fn count_too_fine(count: &GridCount, bounds: Bounds) -> bool
    requires bounds { AreBounds bounds }
    requires count { IsGridCount count.now }
    ensures { result ≡ not (has_probs bounds count.now) }
{
    match count {
        GridCount::Exposed { .. } => false,
        GridCount::Listed { probs, .. } => !are_fine(probs, bounds.parts),
    }
}

/// The claim count of a unit with `number` expected claims, `above` of them above 0; none where the
/// expected loss, the expected count, or for a Poisson or a gamma count the number above 0, is not
/// admitted, or where a shape that need not be whole is too fine.
#[tactic(auto, unfolding(crate::specs::Rules::exposed_too_fine, crate::specs::Rules::shape_not_whole))]
pub(crate) fn fine_count<'a>(
    count: &'a GridCount,
    number: &Option<Frac>,
    above: &Option<Frac>,
    bounds: Bounds,
) -> Option<UnitCount<'a>>
    requires number { IsNumberOf count.now number.now }
    requires shape { shape_not_whole bounds count.now ≡ None }
    ensures { MatchOption result (exposed_too_fine bounds count.now number.now above.now ≡ true)
        (λ made. (exposed_too_fine bounds count.now number.now above.now ≡ false)
        × IsUnitCount count.now number.now made) }
{
    match count {
        GridCount::Listed { counts, probs } => Some(UnitCount::Listed(counts, probs)),
        GridCount::Exposed { exposure, freq } => {
            if loss_too_fine(exposure) || is_unbounded(freq) && above.is_none() {
                return None;
            }
            if freq_too_fine(freq, number, above, bounds) {
                return None;
            }
            number.map(|number| UnitCount::Exposed(*exposure, *freq, number))
        }
    }
}

/// Whether a count is gamma with a shape that need not be whole, and that is not admitted, or over
/// which one of these numbers is not held.
fn freq_too_fine(
    freq: &GridFreq,
    number: &Option<Frac>,
    above: &Option<Frac>,
    bounds: Bounds,
) -> bool
    requires { no_shape_of bounds freq.now ≡ None }
    ensures { result ≡ freq_too_fine bounds freq.now number.now above.now }
{
    let GridFreq::Gamma(variation, _) = freq else {
        return false;
    };
    if bounds.whole_shapes {
        return false;
    }
    match shape(*variation) {
        Some(shape) => is_coarse_over(number, shape) || is_coarse_over(above, shape),
        None => true,
    }
}

/// Whether a number that is there has a part of 2^62 or more over a shape.
fn is_coarse_over(number: &Option<Frac>, shape: Frac) -> bool
    requires { whole 0 <ℚ shape }
    ensures { result ≡ is_coarse_over shape number.now }
{
    matches!(number, Some(number) if number.div(shape).is_err())
}

/// Whether there is no greatest number of claims.
fn is_unbounded(freq: &GridFreq) -> bool
    ensures { result ≡ is_unbounded freq.now }
{
    matches!(freq, GridFreq::Poisson(_) | GridFreq::Gamma(_, _))
}

/// Whether the expected loss of an exposure, if it is one, is not admitted.
fn loss_too_fine(exposure: &GridExposure) -> bool
    ensures { result ≡ loss_too_fine (expected_loss exposure.now) }
{
    match exposure {
        GridExposure::Claims(..) => false,
        GridExposure::Loss(number, _) => !is_admitted(*number),
        GridExposure::Premium { amount, ratio, .. } => small(amount.mul(*ratio)).is_none(),
    }
}
