//! Which of two fractions is greater.

ghost use Rattle.std.specs.Prelude.{◌≡◌};
ghost use Rattle.dl_reading.specs.Lists.{is_above};

use dl_frac::Frac;

/// The first is above the second.
pub fn is_above(x: Frac, y: Frac) -> bool
    ensures { result ≡ is_above x y }
{
    y.num() as u128 * (x.den() as u128) < x.num() as u128 * y.den() as u128
}
