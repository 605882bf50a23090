//! The rate of a recursion.

ghost use Rattle.std.specs.Prelude.{◌≡◌, ◌<◌, ◌≤◌};
ghost use Rattle.dl_exact.specs.Fraction.{whole, ◌≤ℚ◌};

use dl_frac::Frac;

/// The share `num / den` of 1, by which sums over earlier cells are multiplied.
#[derive(Clone, Copy)]
pub struct Rate {
    /// Its numerator, at most its denominator.
    pub num: u64,
    /// Its denominator, above 0.
    pub den: u64,
    ghost positive: { 0 < den },
    ghost within: { num ≤ den },
}

/// A fraction of at most 1, as a rate.
#[tactic(auto, using(crate::proofs::Common::num_le_den))]
pub fn rate_of(x: Frac) -> Rate
    requires { x ≤ℚ whole 1 }
    ensures num { result.num ≡ x.num }
    ensures den { result.den ≡ x.den }
{
    Rate {
        num: x.num(),
        den: x.den(),
    }
}
