//! The base of a unit, to test its starts by.

ghost use Rattle.std.specs.Prelude.{◌<◌, ◌≤◌, All};
ghost use Rattle.dl_limits.specs.Limits.{admitted_bound, most_cell_end};

use dl_frac::Frac;
use dl_iv::Iv;
use dl_panjer::Rate;
use dl_plan::Sev;

/// An equal share of the claims above 0 of a count without a greatest number.
#[derive(Drop)]
pub(crate) struct Share {
    /// The severity of the claims above 0.
    pub positive: Sev,
    /// By what each sum of the recursion is multiplied.
    pub rate: Rate,
    /// The number with which cell 0 is compared.
    pub first: Iv<56>,
    ghost no_zero: { All (λ item. 0 < item.amount) positive.items },
    ghost small: { rate.num < admitted_bound },
    ghost first_small: { first.hi ≤ most_cell_end },
}

/// A probability with parts below 2^48.
#[derive(Clone, Copy)]
pub(crate) struct Chance {
    /// The probability.
    pub q: Frac,
    ghost within: { q.num ≤ q.den },
    ghost num: { q.num < admitted_bound },
    ghost den: { q.den < admitted_bound },
}

/// The base of a unit: it decides the numbers with which the cells of a start are compared.
#[derive(Drop)]
pub(crate) enum Base {
    /// Nothing: no part of this unit makes up the total.
    Nothing,
    /// One claim with this probability, else none.
    Trial(Chance),
    /// A Poisson number of claims.
    Poisson(Share),
    /// A geometric number of claims.
    Geometric(Share),
}
