//! The claim counts of exposures.

ghost use Rattle.std.specs.Prelude.{◌≡◌, false, true, Some};
ghost use Rattle.dl_limits.specs.Limits.{most_beta, most_expected};
ghost use Rattle.dl_exact.specs.Fraction.{whole, ◌/ℚ◌, ◌<ℚ◌};
ghost use Rattle.dl_plan.specs.Prelude.{HasPartsOf48Bits};
ghost use Rattle.dl_reading.specs.declared.grid.GridCount.TheVariants.{Exposed};
ghost use Rattle.dl_reading.specs.declared.grid.GridExposure.{GridExposure as ExposureRead};
ghost use Rattle.dl_reading.specs.Lists.{is_zero};
ghost use Rattle.dl_rules.specs.Exposures.{admitted, is_there_and, shape_of};
ghost use Rattle.dl_rules.specs.Checked.{AreTrials, IsShaped, IsWholeFreq, IsFreqChecked};
ghost use Rattle.dl_rules.specs.Plans.{freq_with};
ghost use Rattle.dl_rules.specs.Rules.{has_no_shape, has_too_many_claims, is_shape_large, passes};

use crate::claims::small;
use crate::counts::passes;
use dl_frac::Frac;
use dl_limits::{Bounds, MOST_BETA, MOST_CLAIMS, MOST_EXPECTED, MOST_SHAPE};
use dl_plan::Freq;
use dl_reading::GridFreq;

/// Whether a distribution with `number` expected claims, `above` of them above 0, has too many.
#[tactic(auto, unfolding(crate::specs::Rules::has_too_many_claims))]
pub(crate) fn exposed_too_many(freq: &GridFreq, number: Frac, above: &Option<Frac>) -> bool
    requires { IsWholeFreq freq.now number }
    ensures { (exposure : ExposureRead) → result
        ≡ has_too_many_claims (Exposed exposure freq.now) (Some number) above.now }
{
    match freq {
        GridFreq::Fixed(_) => passes(number, MOST_CLAIMS),
        GridFreq::Bernoulli(_) => false,
        GridFreq::Binomial(chance, _) => trials(number, *chance) > MOST_CLAIMS as u128,
        GridFreq::Poisson(_) => is_above_most(above),
        GridFreq::Gamma(variation, _) => is_above_most(above) || is_shape_large(*variation, above),
    }
}

/// Whether the shape of a gamma factor passes 10,000, or a number that is there passes 32,768 over
/// it. A shape of more than 48 bits is whole.
fn is_shape_large(variation: Frac, above: &Option<Frac>) -> bool
    requires { IsShaped variation }
    ensures { result ≡ is_shape_large (shape_of variation) above.now }
{
    match shape(variation) {
        Some(shape) => passes(shape, MOST_SHAPE) || is_large_over(above, shape),
        None => true,
    }
}

/// Whether a number that is there passes 32,768 over a shape.
fn is_large_over(above: &Option<Frac>, shape: Frac) -> bool
    requires above { whole 0 <ℚ shape }
    requires admitted { HasPartsOf48Bits shape }
    ensures { result ≡ is_there_and (λ x. passes (x /ℚ shape) most_beta) above.now }
{
    let Some(number) = above else {
        return false;
    };
    let most = MOST_BETA as u128 * (number.den() as u128) * shape.num() as u128;
    most < number.num() as u128 * shape.den() as u128
}

/// Whether a number that is there passes 4,096.
fn is_above_most(above: &Option<Frac>) -> bool
    ensures { result ≡ is_there_and (λ x. passes x most_expected) above.now }
{
    matches!(above, Some(number) if passes(*number, MOST_EXPECTED))
}

/// The claim count of a distribution that breaks no rule, with `number` expected claims.
pub(crate) fn exposed_count(freq: &GridFreq, number: Frac) -> Freq
    requires { IsFreqChecked freq.now number }
    ensures { result ≡ freq_with freq.now number }
{
    match freq {
        GridFreq::Fixed(_) => Freq::Fixed(number.num() as u32),
        GridFreq::Bernoulli(_) => Freq::Bernoulli(number),
        GridFreq::Binomial(chance, _) => Freq::Binomial {
            trials: trials(number, *chance) as u32,
            q: *chance,
        },
        GridFreq::Poisson(_) => Freq::Poisson(number),
        GridFreq::Gamma(variation, _) => Freq::Gamma {
            shape: shape(*variation).unwrap(),
            mean: number,
        },
    }
}

/// The trials of a binomial count: the expected count over the probability of each.
#[tactic(auto, using(crate::proofs::ExposedCounts::times_whole))]
fn trials(number: Frac, chance: Frac) -> u128
    requires { AreTrials chance number }
    ensures { whole result ≡ number /ℚ chance }
{
    number.num() as u128 * chance.den() as u128 / (number.den() as u128 * chance.num() as u128)
}

/// Whether a coefficient of variation is 0 or, by rules that want whole shapes, has none: 1 over
/// its square is whole exactly where it is 1 over a whole number.
#[tactic(auto, using(crate::proofs::Shapes::no_shape))]
pub(crate) fn has_no_shape(variation: Frac, bounds: Bounds) -> bool
    ensures { result ≡ has_no_shape bounds variation }
{
    variation.num() == 0 || bounds.whole_shapes && variation.num() != 1
}

/// The shape of a gamma factor with this coefficient of variation, 1 over its square, where both
/// parts of it are below 2^48.
#[tactic(auto, using(crate::proofs::Shapes::shape_over))]
pub(crate) fn shape(variation: Frac) -> Option<Frac>
    requires { is_zero variation ≡ false }
    ensures { result ≡ admitted true (shape_of variation) }
{
    let num = variation.num() as u128;
    let den = variation.den() as u128;
    small(Frac::make(den * den, num * num))
}
