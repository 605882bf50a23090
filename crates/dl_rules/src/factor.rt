//! The bounds on the units of a plan that share a factor: on the sums of their claims, and on their
//! shares.

ghost use Rattle.std.specs.Prelude.{◌≡◌, ◌<◌, ◌≤◌, ◌&&◌, ◌||◌, ℕ, map, flat_map, true, false, All, Some, IfSome, IfNone};
ghost use Rattle.std.specs.Option.{SomeIff};
ghost use Rattle.dl_limits.specs.Limits.{most_expected, most_weights};
ghost use Rattle.dl_limits.specs.Rules.{AreBounds};
ghost use Rattle.dl_exact.specs.Fraction.{Fraction, whole, ◌≤ℚ◌, ◌<ℚ◌};
ghost use Rattle.dl_plan.specs.Prelude.{raised, unit_share, shared_probabilities, expected_count, thinned_mean};
ghost use Rattle.dl_reading.specs.Lists.{is_fine};
ghost use Rattle.dl_rules.specs.Factor.{running_sum, common_multiple, times_amounts, is_coarse_under, has_no_next, passes_bounds, is_too_large, part_of, IsCounted};
ghost use Rattle.dl_rules.specs.Rules.{passes};

use crate::claims::{is_admitted, small};
use crate::counts::passes;
use dl_frac::{Frac, lcm_to};
use dl_limits::{Bounds, MOST_EXPECTED, MOST_SHAPE};
use dl_plan::{Sev, Unit, raised};

/// Whether the units of a plan are too large for a factor of this shape: whether the shape, a
/// running sum of their claims, these sums for the next shape, or the common denominator of their
/// shares passes its bound, or no claim is expected.
#[tactic(auto, unfolding(crate::specs::Factor::is_too_large))]
pub(crate) fn is_too_large(units: &[Unit], shape: Frac, bounds: Bounds) -> bool
    requires above { whole 0 <ℚ shape }
    requires bounds { AreBounds bounds }
    requires counted { All IsCounted units.now }
    ensures { result ≡ is_too_large bounds.parts shape (map part_of units.now) }
{
    if has_no_next(shape) {
        return true;
    }
    let Some(sums) = claim_sums(units) else {
        return true;
    };
    passes_bounds(units, shape, bounds, sums.0, sums.1)
}

/// Whether a shape is not admitted, or the next one is not or passes 10,000.
fn has_no_next(shape: Frac) -> bool
    ensures { result ≡ has_no_next shape }
{
    if !is_admitted(shape) {
        return true;
    }
    match small(shape.add(Frac::whole(1))) {
        Some(next) => passes(next, MOST_SHAPE),
        None => true,
    }
}

/// The expected claims of all units, and of these the number above 0, where each running sum is
/// admitted.
fn claim_sums(units: &[Unit]) -> Option<(Frac, Frac)>
    requires { All IsCounted units.now }
    ensures expected { IfSome result (λ sums. running_sum (whole 0)
        (map (λ u. expected_count u.freq) units.now) ≡ Some sums.0) }
    ensures above { IfSome result (λ sums. running_sum (whole 0) (map thinned_mean units.now) ≡ Some sums.1) }
    ensures none { IfNone result ((most : ℕ) (r : Fraction)
        → is_too_large most r (map part_of units.now) ≡ true) }
{
    let mut expected = Frac::whole(0);
    let mut above = Frac::whole(0);
    'units: for unit in units {
        expected = small(expected.add(unit.freq.expected()))?;
        above = small(above.add(unit.freq.thinned(&unit.sev)))?;
    }
    Some((expected, above))
}

/// Whether units with these expected numbers of claims, and of claims above 0, pass a bound of a
/// factor of this shape.
fn passes_bounds(units: &[Unit], shape: Frac, bounds: Bounds, expected: Frac, above: Frac) -> bool
    requires above { whole 0 <ℚ shape }
    requires bounds { AreBounds bounds }
    requires counted { All IsCounted units.now }
    requires each { All (λ u. expected_count u.freq ≤ℚ expected) units.now }
    ensures { result ≡ passes_bounds bounds.parts shape expected above (map part_of units.now) }
{
    if expected.num() == 0 {
        return true;
    }
    if claims_under(expected, shape).is_none() || is_large_under(above, shape) {
        return true;
    }
    !are_shares_fine(units, expected, bounds)
}

/// A number of claims for the next shape, where it is admitted, and the number over this shape is
/// held.
fn claims_under(claims: Frac, shape: Frac) -> Option<Frac>
    requires { whole 0 <ℚ shape }
    ensures { SomeIff result (is_coarse_under shape claims ≡ false) (raised shape claims) }
{
    if claims.div(shape).is_err() {
        return None;
    }
    small(raised(shape, claims))
}

/// Whether a number of claims above 0 is not held over this shape, or for the next one is not
/// admitted, or passes 4,096.
fn is_large_under(above: Frac, shape: Frac) -> bool
    requires { whole 0 <ℚ shape }
    ensures { result ≡ (is_coarse_under shape above || passes (raised shape above) most_expected) }
{
    match claims_under(above, shape) {
        Some(claims) => passes(claims, MOST_EXPECTED),
        None => true,
    }
}

/// Whether the common denominator of the units' shares of the expected claims is as small as that
/// of probabilities has to be, and so is that of these shares times the probabilities of the units'
/// amounts.
fn are_shares_fine(units: &[Unit], expected: Frac, bounds: Bounds) -> bool
    requires above { whole 0 <ℚ expected }
    requires bounds { AreBounds bounds }
    requires counted { All IsCounted units.now }
    requires each { All (λ u. expected_count u.freq ≤ℚ expected) units.now }
    ensures { result ≡ (is_fine bounds.parts (map (unit_share expected) units.now)
        && is_fine bounds.parts (flat_map (shared_probabilities expected) units.now)) }
{
    let mut claims = 1;
    let mut amounts = 1;
    'units: for unit in units {
        let Ok(share) = unit.freq.expected().div(expected) else {
            return false;
        };
        match lcm_to(claims, share.den(), bounds.parts) {
            Some(next) => claims = next,
            None => return false,
        }
        match with_amounts(amounts, share, &unit.sev, bounds.parts) {
            Some(next) => amounts = next,
            None => return false,
        }
    }
    true
}

/// The common multiple of a number and the denominators of a share times the probability of each
/// amount; none where it passes `most`.
fn with_amounts(common: u64, share: Frac, sev: &Sev, most: u64) -> Option<u64>
    requires positive { 0 < common }
    requires few { common ≤ most }
    requires most { most ≤ most_weights }
    requires within { share ≤ℚ whole 1 }
    ensures { SomeIff result (common_multiple common (times_amounts share sev.now) ≤ most)
        (common_multiple common (times_amounts share sev.now)) }
{
    let mut multiple = common;
    'items: for item in sev.items.as_slice() {
        let num = share.num() as u128 * item.weight as u128;
        let den = share.den() as u128 * sev.total as u128;
        let Ok(product) = Frac::make(num, den) else {
            return None;
        };
        match lcm_to(multiple, product.den(), most) {
            Some(next) => multiple = next,
            None => return None,
        }
    }
    Some(multiple)
}
