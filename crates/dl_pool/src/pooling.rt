//! The one unit in the place of all units under a common factor, and of independent Poisson units.

ghost use Rattle.std.specs.Prelude.{ℕ, ◌≡◌, ◌≤◌, length, map, flat_map, All, IsTrue, IsSome, IfOk, IfSome};
ghost use Rattle.dl_limits.specs.Limits.{most_expected, most_weights};
ghost use Rattle.dl_exact.specs.Fraction.{Fraction, whole, ◌-ℚ◌, ◌*ℚ◌, ◌≤ℚ◌, ◌<ℚ◌};
ghost use Rattle.dl_plan.specs.Prelude.{common_denominator, HasPartsOf48Bits, pairs_of, probability_of, expected_count, IsValid, IsValidUnit, CanShare, expected_of, unit_share, shared_probabilities, SharesFactor};
ghost use Rattle.dl_severity.specs.Prelude.{IsWeighing, sum_of};
ghost use Rattle.dl_model.specs.Prelude.{Quantity, declared, pooled_severity, CountsTotal, IsPoissonSum, poisson_units};
ghost use Rattle.dl_pool.specs.Pooled.{HavePoissonSum, IsPooled, alone, lent};

use crate::copies::severities;
use crate::shares::{expected, shares, sharing};
use dl_bytes::Text;
use dl_frac::Frac;
use dl_limits::{ADMITTED_BOUND, MOST_EXPECTED, MOST_PARTS, MOST_WEIGHTS};
use dl_plan::{Freq, Plan, Sev, Unit};
use dl_severity::{MixFault, WeighFault, Weights, mix, weigh};
use std::alloc::{AllocError, Global};

/// One gamma unit in the place of all units of a plan with a common factor: its shape is that of
/// the factor, its mean the expected number of claims of all units, and its severity mixes theirs
/// by their parts of that. It has the first unit's name. Of the total alone its plan, which is
/// valid, declares what the units do, at every level: that it is there, its probabilities and its
/// distribution, its mean, its layers and its tail means.
pub fn pool(alloc: Global, plan: &Plan) -> Result<Unit, AllocError>
    requires { (r : Fraction) × SharesFactor plan.now r }
    ensures pooled { IfOk result (λ unit. (r : Fraction) → SharesFactor plan.now r
        → IsPooled r plan.now.units unit) }
    ensures valid { IfOk result (λ unit. IsValid (alone plan.now unit)) }
    ensures same { IfOk result (λ unit. (quantity : Quantity) → CountsTotal quantity → (N : ℕ)
        → declared (alone plan.now unit) quantity N ≡ declared plan.now quantity N) }
{
    let Some(shape) = plan.common else {
        unreachable!()
    };
    let units = plan.units.as_slice();
    let shared = sharing(alloc, units)?;
    let all = shared.as_slice();
    let mean = expected(all).unwrap();
    let Some(sev) = mixed_severity(alloc, all, mean, MOST_WEIGHTS)? else {
        unreachable!()
    };
    let name = Text::copy(alloc, units[0].name.as_slice())?;
    Ok(Unit {
        name,
        sev,
        freq: Freq::Gamma { shape, mean },
        cede: None,
        zero: None,
    })
}

/// One Poisson unit in the place of independent units that can be pooled: its mean is the expected
/// number of their claims, and its severity mixes theirs by their parts of that. It has the first
/// unit's name. None where it would not be a valid unit: where no claim is expected, or a part of
/// it is too fine or passes its bound. It is valid with any grid that the units are valid with.
pub fn pool_poisson(alloc: Global, units: &[&Unit]) -> Result<Option<Unit>, AllocError>
    requires some { 1 ≤ length units.now }
    requires poisson { All CanShare (lent units.now) }
    requires valid { (cells : ℕ) × All (IsValidUnit cells) (lent units.now) }
    ensures sum { IfOk result (λ made. IfSome made (IsPoissonSum (lent units.now))) }
    ensures valid { IfOk result (λ made. IfSome made (λ unit. (cells : ℕ)
        → All (IsValidUnit cells) (lent units.now) → IsValidUnit cells unit)) }
    ensures there { IfOk result (λ made. HavePoissonSum (lent units.now) → IsSome made) }
{
    let Some(mean) = expected(units) else {
        return Ok(None);
    };
    if mean.num() == 0 {
        return Ok(None);
    }
    let Some(sev) = mixed_severity(alloc, units, mean, MOST_PARTS)? else {
        return Ok(None);
    };
    if !are_admitted(mean, &sev) {
        return Ok(None);
    }
    let name = Text::copy(alloc, units[0].name.as_slice())?;
    Ok(Some(Unit {
        name,
        sev,
        freq: Freq::Poisson(mean),
        cede: None,
        zero: None,
    }))
}

/// Whether this expected number of claims with this severity is that of a valid unit: whether its
/// parts, and those of the number of claims above 0, are below 2^48, and that number is at most
/// 4,096.
pub(crate) fn are_admitted(claims: Frac, sev: &Sev) -> bool
    ensures claims { IsTrue result → HasPartsOf48Bits claims }
    ensures above { IsTrue result
        → HasPartsOf48Bits (claims *ℚ (whole 1 -ℚ probability_of sev.now 0)) }
    ensures few { IsTrue result
        → claims *ℚ (whole 1 -ℚ probability_of sev.now 0) ≤ℚ whole most_expected }
    ensures there { HasPartsOf48Bits claims
        → HasPartsOf48Bits (claims *ℚ (whole 1 -ℚ probability_of sev.now 0))
        → claims *ℚ (whole 1 -ℚ probability_of sev.now 0) ≤ℚ whole most_expected
        → IsTrue result }
{
    let Ok(above) = claims.mul(sev.share_above_zero()) else {
        return false;
    };
    has_small_parts(claims)
        && has_small_parts(above)
        && above.num() <= MOST_EXPECTED as u64 * above.den()
}

/// Whether both parts are below 2^48.
fn has_small_parts(x: Frac) -> bool
    ensures small { IsTrue result → HasPartsOf48Bits x }
    ensures there { HasPartsOf48Bits x → IsTrue result }
{
    x.num() < ADMITTED_BOUND && x.den() < ADMITTED_BOUND
}

/// The severities of the units, mixed by their parts of the expected number `all` of claims. None
/// where a part, or a part times a probability, is too fine: where their common denominator passes
/// `most`.
fn mixed_severity(
    alloc: Global,
    units: &[&Unit],
    all: Frac,
    most: u64,
) -> Result<Option<Sev>, AllocError>
    requires most { most ≤ most_weights }
    requires poisson { All CanShare (lent units.now) }
    requires each { All (λ u. HasPartsOf48Bits (expected_count u.freq)) (lent units.now) }
    requires all { all ≡ expected_of (lent units.now) }
    requires some { whole 0 <ℚ all }
    ensures value { IfOk result (λ made. IfSome made (λ sev. (x : ℕ)
        → probability_of sev x ≡ pooled_severity (poisson_units (lent units.now)) x)) }
    ensures there { IfOk result (λ made.
        common_denominator (map (unit_share all) (lent units.now)) ≤ most
        → common_denominator (flat_map (shared_probabilities all) (lent units.now)) ≤ most
        → IsSome made) }
{
    let Some(weights) = unit_weights(alloc, units, all, most)? else {
        return Ok(None);
    };
    let sevs = severities(alloc, units)?;
    match mix(alloc, &sevs, &weights, most) {
        Ok(sev) => Ok(Some(sev)),
        Err(MixFault::OutOfMemory) => Err(AllocError),
        Err(MixFault::TooFine) => Ok(None),
    }
}

/// The whole weights of the units' parts of the expected number `all` of claims; none where these
/// have a common denominator above `most`.
fn unit_weights(
    alloc: Global,
    units: &[&Unit],
    all: Frac,
    most: u64,
) -> Result<Option<Weights>, AllocError>
    requires most { most ≤ most_weights }
    requires poisson { All CanShare (lent units.now) }
    requires each { All (λ u. HasPartsOf48Bits (expected_count u.freq)) (lent units.now) }
    requires all { all ≡ expected_of (lent units.now) }
    requires some { whole 0 <ℚ all }
    ensures value { IfOk result (λ made.
        IfSome made (IsWeighing (map (unit_share all) (lent units.now)))) }
    ensures there { IfOk result (λ made.
        common_denominator (map (unit_share all) (lent units.now)) ≤ most → IsSome made) }
{
    let Some(parts) = shares(alloc, units, all)? else {
        return Ok(None);
    };
    weights_of(alloc, &parts, most)
}

/// The whole weights of probabilities that sum to 1; none where their common denominator passes
/// `most`.
fn weights_of(alloc: Global, probs: &[Frac], most: u64) -> Result<Option<Weights>, AllocError>
    requires most { most ≤ most_weights }
    requires one { sum_of probs.now ≡ whole 1 }
    ensures value { IfOk result (λ made. IfSome made (IsWeighing probs.now)) }
    ensures there { IfOk result (λ made.
        common_denominator probs.now ≤ most → IsSome made) }
{
    match weigh(alloc, probs, most) {
        Ok(weights) => Ok(Some(weights)),
        Err(WeighFault::OutOfMemory) => Err(AllocError),
        Err(WeighFault::TooFine) => Ok(None),
        Err(WeighFault::NotOne) => unreachable!(),
    }
}
