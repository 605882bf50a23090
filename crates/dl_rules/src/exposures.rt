//! The exposure of a unit, and its expected claim count.

ghost use Rattle.std.specs.Prelude.{◌≡◌, nat_lt, not, false, None};
ghost use Rattle.std.specs.List.{list_any};
ghost use Rattle.dl_exact.specs.Fraction.{whole, ◌*ℚ◌, ◌/ℚ◌, ◌<ℚ◌};
ghost use Rattle.dl_limits.specs.declared.rules.Bounds.{Bounds as BoundsOfRules};
ghost use Rattle.dl_plan.specs.Prelude.{IsBucket, mean_amount, HasDistribution};
ghost use Rattle.dl_reading.specs.declared.grid.GridCount.TheVariants.{Exposed};
ghost use Rattle.dl_reading.specs.Prelude.{is_whole, has_severity, IsWeighed, IsGridUnit, severity_in_layer, support};
ghost use Rattle.dl_rules.specs.Exposures.{IsUnitOn, mean_in_money, admitted, exposed_claims, expected_claims};
ghost use Rattle.dl_rules.specs.Rules.{has_no_loss, zero_loss, zero_mean, exposure_span, count_not_whole, count_above_one, has_no_trials, trials_not_whole, shape_not_whole};

use crate::claims::admitted;
use crate::counts::not_whole;
use crate::frequencies::has_no_shape;
use crate::ratio::Ratio;
use dl_frac::Frac;
use dl_lexer::Span;
use dl_limits::Bounds;
use dl_plan::Sev;
use dl_reading::{GridCount, GridExposure, GridFreq, GridUnit, is_above, span_if};
use dl_severity::mean;

/// The span of a loss or a premium where none of these amounts is above 0.
#[tactic(auto, unfolding(crate::specs::Rules::zero_mean))]
pub(crate) fn zero_mean(count: &GridCount, amounts: &[u32]) -> Option<Span>
    ensures { result ≡ zero_mean amounts.now count.now }
{
    match count {
        GridCount::Exposed { exposure, .. } => zero_loss(exposure, amounts),
        GridCount::Listed { .. } => None,
    }
}

/// The span of an exposure that is a loss or a premium, where no amount is above 0.
fn zero_loss(exposure: &GridExposure, amounts: &[u32]) -> Option<Span>
    ensures { result ≡ zero_loss amounts.now exposure.now }
{
    match exposure {
        GridExposure::Claims(_, _) => None,
        GridExposure::Loss(_, span) | GridExposure::Premium { span, .. } => {
            span_if(!is_any_above_zero(amounts), *span)
        }
    }
}

/// Whether an amount is above 0.
fn is_any_above_zero(amounts: &[u32]) -> bool
    ensures { result ≡ list_any (nat_lt 0) amounts.now }
{
    amounts.iter().any(|&amount| amount > 0)
}

/// The expected claim count of the unit, where it has an exposure whose count is there and both
/// parts of it are below 2^48. The severity in the layer is there where it can be weighed.
#[tactic(auto, unfolding(crate::specs::Exposures::expected_claims, crate::specs::Rules::zero_mean))]
pub(crate) fn expected_claims(unit: &GridUnit, bs: Frac, layered: &Option<Sev>) -> Option<Frac>
    requires bucket { IsBucket bs }
    requires grid { IsGridUnit unit.now }
    requires layered { (bounds : BoundsOfRules) × IsWeighed bounds unit.now layered.now }
    requires above { zero_mean (support (severity_in_layer unit.now)) unit.now.count ≡ None }
    ensures { (bounds : BoundsOfRules) → IsWeighed bounds unit.now layered.now
        → result ≡ expected_claims bounds bs unit.now }
{
    match &unit.count {
        GridCount::Exposed { exposure, .. } => exposed_claims(unit, exposure, bs, layered),
        GridCount::Listed { .. } => None,
    }
}

/// The expected claim count of an exposure, where it is there and both parts are below 2^48.
#[tactic(auto, using(dl_exact::proofs::Laws::times_one))]
fn exposed_claims(
    unit: &GridUnit,
    exposure: &GridExposure,
    bs: Frac,
    layered: &Option<Sev>,
) -> Option<Frac>
    requires unit { IsUnitOn bs unit.now }
    requires layered { (bounds : BoundsOfRules) × IsWeighed bounds unit.now layered.now }
    requires above { zero_loss (support (severity_in_layer unit.now)) exposure.now ≡ None }
    ensures { (bounds : BoundsOfRules) → IsWeighed bounds unit.now layered.now
        → result ≡ exposed_claims bounds bs unit.now exposure.now }
{
    match exposure {
        GridExposure::Claims(number, _) => admitted(*number),
        GridExposure::Loss(number, _) => over_mean(unit, *number, Frac::whole(1), bs, layered),
        GridExposure::Premium { amount, ratio, .. } => {
            over_mean(unit, *amount, *ratio, bs, layered)
        }
    }
}

/// `amount` times `share` over the expected severity in money, where that is there and both parts
/// of the quotient are below 2^48.
fn over_mean(
    unit: &GridUnit,
    amount: Frac,
    share: Frac,
    bs: Frac,
    layered: &Option<Sev>,
) -> Option<Frac>
    requires unit { IsUnitOn bs unit.now }
    requires layered { (bounds : BoundsOfRules) × IsWeighed bounds unit.now layered.now }
    requires loss { has_no_loss (support (severity_in_layer unit.now)) ≡ false }
    ensures { (bounds : BoundsOfRules) → IsWeighed bounds unit.now layered.now
        → result ≡ admitted (has_severity bounds unit.now.sev)
        (amount *ℚ share /ℚ mean_in_money bs unit.now) }
{
    match layered {
        Some(severity) => {
            let mean = mean_in_layer(unit, severity);
            Ratio::of(amount, bs).times(Ratio::of(share, mean))
        }
        None => None,
    }
}

/// The mean of the severity in the layer, in buckets, of which an amount is above 0.
fn mean_in_layer(unit: &GridUnit, layered: &Sev) -> Frac
    requires grid { IsGridUnit unit.now }
    requires layered { HasDistribution layered.now (severity_in_layer unit.now) }
    requires loss { has_no_loss (support (severity_in_layer unit.now)) ≡ false }
    ensures mean { result ≡ mean_amount (severity_in_layer unit.now) }
    ensures above { whole 0 <ℚ result }
{
    mean(layered)
}

/// The span of an exposure.
fn exposure_span(exposure: &GridExposure) -> Span
    ensures { result ≡ exposure_span exposure.now }
{
    match exposure {
        GridExposure::Claims(_, span)
        | GridExposure::Loss(_, span)
        | GridExposure::Premium { span, .. } => *span,
    }
}

/// The span of a fixed count that is not whole, or of listed counts that are not whole.
#[tactic(auto, unfolding(crate::specs::Rules::count_not_whole))]
pub(crate) fn count_not_whole(count: &GridCount, number: &Option<Frac>) -> Option<Span>
    ensures { result ≡ count_not_whole count.now number.now }
{
    match count {
        GridCount::Exposed { exposure, freq } => fixed_not_whole(exposure, freq, number),
        GridCount::Listed { counts, .. } => not_whole(counts),
    }
}

/// The span of a fixed count that is not whole.
#[tactic(auto, unfolding(crate::specs::Rules::count_not_whole))]
fn fixed_not_whole(exposure: &GridExposure, freq: &GridFreq, number: &Option<Frac>) -> Option<Span>
    ensures { result ≡ count_not_whole (Exposed exposure.now freq.now) number.now }
{
    if !matches!(freq, GridFreq::Fixed(_)) {
        return None;
    }
    match number {
        Some(number) => span_if(number.den() != 1, exposure_span(exposure)),
        None => None,
    }
}

/// The span of an expected count above 1 for a count of at most one claim.
#[tactic(auto, unfolding(crate::specs::Rules::count_above_one))]
pub(crate) fn count_above_one(count: &GridCount, number: &Option<Frac>) -> Option<Span>
    ensures { result ≡ count_above_one count.now number.now }
{
    let GridCount::Exposed { exposure, freq } = count else {
        return None;
    };
    if !matches!(freq, GridFreq::Bernoulli(_)) {
        return None;
    }
    let above = is_above((*number)?, Frac::whole(1));
    span_if(above, exposure_span(exposure))
}

/// The span of trials that are no whole number, or whose probability is 0 or above 1.
#[tactic(auto, unfolding(crate::specs::Rules::trials_not_whole))]
pub(crate) fn trials_not_whole(count: &GridCount, number: &Option<Frac>) -> Option<Span>
    ensures { result ≡ trials_not_whole count.now number.now }
{
    let GridCount::Exposed { freq, .. } = count else {
        return None;
    };
    let GridFreq::Binomial(chance, span) = freq else {
        return None;
    };
    span_if(is_no_trial(*chance, number), *span)
}

/// Whether a chance is 0 or above 1, or `number` expected claims are no whole number of trials.
fn is_no_trial(chance: Frac, number: &Option<Frac>) -> bool
    ensures { result ≡ has_no_trials chance number.now }
{
    if chance.num() == 0 || is_above(chance, Frac::whole(1)) {
        return true;
    }
    match number {
        Some(number) => is_no_multiple(*number, chance),
        None => false,
    }
}

/// Whether a value is no whole number of times another, which is above 0.
#[tactic(auto, using(crate::proofs::ExposedCounts::no_multiple))]
fn is_no_multiple(value: Frac, part: Frac) -> bool
    requires { whole 0 <ℚ part }
    ensures { result ≡ not (is_whole (value /ℚ part)) }
{
    value.num() as u128 * part.den() as u128 % (value.den() as u128 * part.num() as u128) != 0
}

/// The span of a gamma factor whose coefficient of variation is 0 or, by rules that want whole
/// shapes, whose shape is no whole number.
#[tactic(auto, unfolding(crate::specs::Rules::shape_not_whole))]
pub(crate) fn shape_not_whole(count: &GridCount, bounds: Bounds) -> Option<Span>
    ensures { result ≡ shape_not_whole bounds count.now }
{
    let GridCount::Exposed { freq, .. } = count else {
        return None;
    };
    let GridFreq::Gamma(variation, span) = freq else {
        return None;
    };
    span_if(has_no_shape(*variation, bounds), *span)
}
