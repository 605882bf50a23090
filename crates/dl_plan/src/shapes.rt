//! The shape of a gamma factor.

ghost use Rattle.dl_exact.specs.Fraction.{whole, ◌<ℚ◌};
ghost use Rattle.dl_frac.specs.Exact.{Gives};
ghost use Rattle.dl_plan.specs.Common.{raised};

use dl_frac::{Frac, TooFine};

/// `claims * (shape + 1) / shape`: what an expected number of claims under a factor of this shape is
/// for the shape that is one more. An error where a part of it is 2^62 or more.
#[tactic(auto, using(crate::proofs::NextShape::raised_over))]
pub fn raised(shape: Frac, claims: Frac) -> Result<Frac, TooFine>
    requires above { whole 0 <ℚ shape }
    ensures { Gives result (raised shape claims) }
{
    let next = u128::from(shape.num()) + u128::from(shape.den());
    let num = u128::from(claims.num()) * next;
    let den = u128::from(claims.den()) * u128::from(shape.num());
    Frac::make(num, den)
}
