//! A changed probability of no claim, and a factor that all units share: the rules on them, and the
//! shape of the factor.

ghost use Rattle.std.specs.Prelude.{◌≡◌, true, false, map, All, Some, Ok, IfOk, IfSome};
ghost use Rattle.std.specs.Option.{MatchOption};
ghost use Rattle.dl_limits.specs.Rules.{AreBounds};
ghost use Rattle.dl_exact.specs.Fraction.{whole, ◌<ℚ◌};
ghost use Rattle.dl_plan.specs.Prelude.{HasCommonFactor, HasPartsOf48Bits};
ghost use Rattle.dl_reading.specs.Lists.{is_zero};
ghost use Rattle.dl_rules.specs.Plans.{IsSharedShape};
ghost use Rattle.dl_rules.specs.Answer.{HasFault, AnswersUnits};
ghost use Rattle.dl_rules.specs.Checked.{IsCountChecked, IsFreqChecked};
ghost use Rattle.dl_rules.specs.Claimed.{count_of, number_of};
ghost use Rattle.dl_rules.specs.Exposures.{shape_of};
ghost use Rattle.dl_rules.specs.Factor.{IsCounted, IsVariation, is_too_large, part_of};
ghost use Rattle.dl_ast.specs.WellFormed.{IsFormedHead};
ghost use Rattle.dl_lexer.specs.Prelude.{IsNumeral};
ghost use Rattle.dl_rules.specs.Faults.{fault_of_port};
ghost use Rattle.dl_rules.specs.Rules.{has_no_base, is_claim_rare, is_one_rare, freq_span, zero_base, is_plain_poisson, has_common, common_unit, has_bad_shape};

use crate::broken::typing;
use crate::claims::UnitCount;
use crate::counts::passes;
use crate::factor::is_too_large;
use crate::fault::CheckFault;
use crate::frequencies::{has_no_shape, shape};
use crate::rule::Rule;
use crate::scale::bounds_asked;
use dl_ast::{CountAst, FreqAst, Numeral, PortHead, Program, UnitAst, ZeroAst};
use dl_frac::{Frac, numeral};
use dl_lexer::Span;
use dl_limits::{Bounds, MOST_EXPECTED};
use dl_plan::{Settings, Unit};
use dl_reading::{GridFreq, is_above, span_if};

/// A changed probability of no claim needs at least `1 / RAREST_CLAIMS` expected claims.
const RAREST_CLAIMS: u32 = 16;

/// The shape of the factor that all units of a portfolio share, whose units have these in the plan,
/// or none; or the first rule that the portfolio as a whole breaks.
pub(crate) fn shared_shape(
    program: &Program,
    settings: &Settings,
    units: &[Unit],
) -> Result<Option<Frac>, CheckFault>
    requires head { IfSome program.now.port IsFormedHead }
    requires units { AnswersUnits settings.now program.now.port program.now.sevs program.now.units
        (Ok units.now) }
    ensures fault { HasFault (fault_of_port settings.now program.now) result }
    ensures shape { IfOk result (λ common. IsSharedShape program.now.port common) }
    ensures factor { IfOk result (λ common. IfSome common (λ r. HasCommonFactor r units.now)) }
{
    let Some(head) = &program.port else {
        return Ok(None);
    };
    let Some(variation) = &head.common else {
        return Ok(None);
    };
    let bounds = bounds_asked(settings);
    let Some(value) = variation_of(variation, bounds) else {
        return Err(typing(0, Rule::CommonShape, variation.span));
    };
    match shape_for(units, value, bounds) {
        Some(shape) => Ok(Some(shape)),
        None => Err(typing(0, Rule::CommonSize, head.name.span)),
    }
}

/// The coefficient of variation of a factor; none where it is a bad numeral or 0 or, by rules that
/// want whole shapes, has none.
fn variation_of(variation: &Numeral, bounds: Bounds) -> Option<Frac>
    requires { IsNumeral variation.now.text }
    ensures { MatchOption result (has_bad_shape bounds variation.now ≡ true)
        (IsVariation bounds variation.now) }
{
    let Ok(value) = numeral(variation.text.as_slice(), 11) else {
        return None;
    };
    if has_no_shape(value, bounds) {
        return None;
    }
    Some(value)
}

/// The shape of a factor with this coefficient of variation; none where these units are too large
/// for it.
fn shape_for(units: &[Unit], variation: Frac, bounds: Bounds) -> Option<Frac>
    requires above { is_zero variation ≡ false }
    requires bounds { AreBounds bounds }
    requires counted { All IsCounted units.now }
    ensures { MatchOption result
        (is_too_large bounds.parts (shape_of variation) (map part_of units.now) ≡ true)
        (λ shape. (shape ≡ shape_of variation)
        × (is_too_large bounds.parts shape (map part_of units.now) ≡ false)) }
{
    let shape = shape(variation)?;
    if is_too_large(units, shape, bounds) {
        return None;
    }
    Some(shape)
}

/// The span of the distribution of a count whose probability of no claim is changed to 1 or more,
/// or where fewer than 1/16 or more than 4,096 claims are expected, or one claim weighs too little
/// beside none; the span of a list, which no text changes.
#[tactic(auto, unfolding(crate::specs::Rules::zero_base))]
pub(crate) fn zero_base(count: &UnitCount, zero: &Option<Frac>) -> Option<Span>
    requires { IsCountChecked (count_of count.now) (number_of count.now) }
    ensures { result ≡ zero_base (count_of count.now) zero.now (number_of count.now) }
{
    let zero = (*zero)?;
    match count {
        UnitCount::Listed(counts, _) => Some(counts.span),
        UnitCount::Exposed(_, freq, number) => {
            span_if(has_no_base(freq, zero, *number), freq_span(freq))
        }
    }
}

/// Whether a changed probability of no claim is 1 or more, or the expected number of claims is
/// below 1/16 or above 4,096, or one claim weighs too little beside none.
fn has_no_base(freq: &GridFreq, zero: Frac, number: Frac) -> bool
    requires { IsFreqChecked freq.now number }
    ensures { result ≡ has_no_base freq.now zero (Some number) }
{
    if !is_above(Frac::whole(1), zero) {
        return true;
    }
    let rarest = Frac::make(1, RAREST_CLAIMS as u128).unwrap();
    is_above(rarest, number) || passes(number, MOST_EXPECTED) || is_claim_rare(freq, number)
}

/// Whether a count is gamma with a shape below 1, and one claim weighs less than 1/16 of none.
fn is_claim_rare(freq: &GridFreq, number: Frac) -> bool
    requires { IsFreqChecked freq.now number }
    ensures { result ≡ is_claim_rare freq.now number }
{
    let GridFreq::Gamma(variation, _) = freq else {
        return false;
    };
    is_one_rare(shape(*variation).unwrap(), number)
}

/// Whether a shape is below 1, and one claim of a gamma count of this shape and mean weighs less
/// than 1/16 of none.
#[tactic(auto, using(crate::proofs::Shapes::one_rare))]
fn is_one_rare(shape: Frac, mean: Frac) -> bool
    requires above { whole 0 <ℚ shape }
    requires shape { HasPartsOf48Bits shape }
    requires mean { HasPartsOf48Bits mean }
    ensures { result ≡ is_one_rare shape mean }
{
    let claim = shape.num() as u128 * mean.num() as u128;
    let none = shape.num() as u128 * mean.den() as u128 + mean.num() as u128 * shape.den() as u128;
    shape.num() < shape.den() && claim * (RAREST_CLAIMS as u128) < none
}

/// The span of a distribution.
fn freq_span(freq: &GridFreq) -> Span
    ensures { result ≡ freq_span freq.now }
{
    match freq {
        GridFreq::Fixed(span) | GridFreq::Poisson(span) | GridFreq::Bernoulli(span) => *span,
        GridFreq::Binomial(_, span) | GridFreq::Gamma(_, span) => *span,
    }
}

/// The span of the name of a unit under `common` whose count is not Poisson, or has `zt` or `zm`,
/// or that has an aggregate clause.
#[tactic(auto, unfolding(crate::specs::Rules::common_unit))]
pub(crate) fn common_unit(port: &Option<PortHead>, unit: &UnitAst) -> Option<Span>
    ensures { result ≡ common_unit port.now unit.now }
{
    let split = has_common(port) && (!is_plain_poisson(&unit.count) || unit.agr.is_some());
    span_if(split, unit.name.span)
}

/// Whether a portfolio has `common`.
fn has_common(port: &Option<PortHead>) -> bool
    ensures { result ≡ has_common port.now }
{
    matches!(port, Some(head) if head.common.is_some())
}

/// Whether a claim count is Poisson without `zt` and `zm`.
fn is_plain_poisson(count: &CountAst) -> bool
    ensures { result ≡ is_plain_poisson count.now }
{
    match count {
        CountAst::Exposed { freq, zero, .. } => {
            matches!(freq, FreqAst::Poisson(_)) && matches!(zero, ZeroAst::Plain)
        }
        CountAst::Listed { .. } => false,
    }
}
