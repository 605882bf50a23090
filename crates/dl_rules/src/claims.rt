//! The claims of a unit.

ghost use Rattle.std.specs.Prelude.{◌≡◌, true};
ghost use Rattle.dl_exact.specs.Fraction.{Fraction};
ghost use Rattle.dl_frac.specs.Exact.{Gives};
ghost use Rattle.dl_plan.specs.Severity.{Pairs, HasDistribution};
ghost use Rattle.dl_reading.specs.Lists.{is_admitted};
ghost use Rattle.dl_rules.specs.Exposures.{admitted, claims_above_zero};

use dl_frac::{Frac, TooFine};
use dl_limits::ADMITTED_BOUND;
use dl_plan::Sev;
use dl_reading::{GridExposure, GridFreq, Shares, ValueList};

/// The claims of a unit, where its fractions are fine.
#[derive(Drop)]
pub(crate) struct Claims<'a> {
    /// The severity of one claim, after its layer and its occurrence clause.
    pub(crate) severity: Sev,
    /// How many claims there are.
    pub(crate) count: UnitCount<'a>,
    /// Of the expected claims the number above 0, where it is admitted.
    pub(crate) above: Option<Frac>,
}

/// The claim count of a unit, once its number is there and admitted.
#[derive(Clone, Copy)]
pub(crate) enum UnitCount<'a> {
    /// Listed counts, and the probability of each; where there is none they are equally likely.
    Listed(&'a ValueList, &'a Option<Shares>),
    /// An exposure, a distribution, and the expected number of claims.
    Exposed(GridExposure, GridFreq, Frac),
}

/// The expected number of claims above 0, of `number` claims, where both are there and admitted.
pub(crate) fn above_zero(severity: &Sev, number: &Option<Frac>) -> Option<Frac>
    ensures { (pairs : Pairs) → HasDistribution severity.now pairs
        → result ≡ claims_above_zero pairs number.now }
{
    let number = (*number)?;
    small(number.mul(severity.share_above_zero()))
}

/// The value, where both parts of it are below 2^48.
pub(crate) fn admitted(value: Frac) -> Option<Frac>
    ensures { result ≡ admitted true value }
{
    is_admitted(value).then_some(value)
}

/// The exact result, where both parts of it are below 2^48.
#[tactic(auto, using(crate::proofs::Ratios::too_fine_refused))]
pub(crate) fn small(exact: Result<Frac, TooFine>) -> Option<Frac>
    ensures { (value : Fraction) → Gives exact value → result ≡ admitted true value }
{
    admitted(exact.ok()?)
}

/// Whether both parts are below 2^48.
pub(crate) fn is_admitted(value: Frac) -> bool
    ensures { result ≡ is_admitted value }
{
    value.num() < ADMITTED_BOUND && value.den() < ADMITTED_BOUND
}
