//! Wide fractions: quotients of two fractions of small parts.

ghost use Rattle.std.specs.Prelude.{◌≡◌, ◌<◌, true};
ghost use Rattle.dl_exact.specs.Prelude.{gcd, whole, ◌*ℚ◌, ◌/ℚ◌, ◌<ℚ◌};
ghost use Rattle.dl_rules.specs.Exposures.{admitted};

use crate::claims::small;
use dl_frac::Frac;
use std::marker::Model;

/// A fraction of at least 0 in lowest terms. Contracts see the `Fraction`.
#[derive(Clone, Copy)]
pub(crate) struct Ratio {
    num: u128,
    den: u128,
    ghost lowest: { gcd num den ≡ 1 },
    ghost positive: { 0 < den },
}

impl Model for Ratio {
    ghost use Rattle.dl_exact.specs.Fraction.{Fraction};

    ghost Value = { Fraction };

    ghost view = { λ f.
        record { num = f.num; den = f.den; positive = f.positive; lowest = f.lowest } };

    ghost inverse = { λ x.
        record { num = x.num; den = x.den; positive = x.positive; lowest = x.lowest } };
}

impl Ratio {
    /// The quotient by `y`, which is above 0.
    pub(crate) fn of(x: Frac, y: Frac) -> Ratio
        requires { whole 0 <ℚ y }
        ensures { result ≡ x /ℚ y }
    {
        let up = Frac::make(x.num() as u128, y.num() as u128).unwrap();
        let down = Frac::make(y.den() as u128, x.den() as u128).unwrap();
        Ratio {
            num: up.num() as u128 * down.num() as u128,
            den: up.den() as u128 * down.den() as u128,
        }
    }

    /// The product, where both parts of it are below 2^48.
    pub(crate) fn times(self, o: Ratio) -> Option<Frac>
        ensures { result ≡ admitted true (self *ℚ o) }
    {
        if self.num == 0 || o.num == 0 {
            return Some(Frac::whole(0));
        }
        let Ok(first) = Frac::make(self.num, o.den) else {
            return None;
        };
        let Ok(second) = Frac::make(o.num, self.den) else {
            return None;
        };
        small(first.mul(second))
    }
}
