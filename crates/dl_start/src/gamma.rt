//! The probability of no claim of a gamma count.

ghost use Rattle.std.specs.Prelude.{◌≡◌, ◌≤◌};
ghost use Rattle.dl_limits.specs.Limits.{most_shape};
ghost use Rattle.dl_exact.specs.Fraction.{whole, ◌+ℚ◌, ◌/ℚ◌, ◌≤ℚ◌, ◌<ℚ◌};
ghost use Rattle.dl_model.specs.Counts.{gamma};
ghost use Rattle.dl_start.specs.Start.{HoldsNoClaim};

use crate::first::geometric_start;
use crate::powers::{power_of, times};
use crate::scaled::Scaled;
use crate::shape::shape_start;
use dl_frac::Frac;

/// The probability of no claim of a gamma count of this shape, whose mean is `shape * beta`: the
/// power by the whole part of the shape of that of the geometric count of mean `beta`, times that
/// of the rest of the shape. A part of 0 is left out.
pub fn gamma_start(beta: Frac, shape: Frac) -> Scaled
    requires above { whole 0 <ℚ shape }
    requires few { shape ≤ℚ whole most_shape }
    ensures holds { HoldsNoClaim (gamma shape (beta /ℚ (whole 1 +ℚ beta))) result }
{
    let (num, den) = (shape.num(), shape.den());
    if num < den {
        return shape_start(beta, shape);
    }
    let power = power_of(geometric_start(beta.num(), beta.den()), (num / den) as u32);
    if num % den == 0 {
        return power;
    }
    let Ok(rest) = Frac::make(u128::from(num % den), u128::from(den)) else {
        return power;
    };
    times(power, shape_start(beta, rest))
}
