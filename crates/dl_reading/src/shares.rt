//! Lists of probabilities with their whole weights.

ghost use Rattle.std.specs.Prelude.{ℕ, ◌≡◌, ◌≤◌, ◌<◌, false, true, nat_le, replicate, IfOk, IfSome, MatchOption};
ghost use Rattle.dl_limits.specs.Limits.{most_values, most_weights};
ghost use Rattle.dl_limits.specs.Rules.{AreBounds};
ghost use Rattle.dl_exact.specs.Fraction.{◌over◌};
ghost use Rattle.dl_severity.specs.Weighed.{IsWeighing};
ghost use Rattle.dl_reading.specs.First.{at_if};
ghost use Rattle.dl_reading.specs.Flaws.{IsRead, sum_at};
ghost use Rattle.dl_reading.specs.Grid.{shares_at};
ghost use Rattle.dl_reading.specs.Lists.{are_fine, is_fine, is_not_one, probs_among};
ghost use Rattle.dl_reading.specs.Rules.{weights_differ};
ghost use Rattle.dl_reading.specs.Small.{IsShares};

use crate::copies::copy_weights;
use crate::flaws::{Flaws, Gridded};
use crate::grid::{GridUnit, Shares};
use crate::spans::span_if;
use dl_frac::Frac;
use dl_lexer::Span;
use dl_limits::{Bounds, MOST_WEIGHTS};
use dl_plan::{Items, common_denominator_of};
use dl_severity::{WeighFault, Weights, weigh};
use std::alloc::{AllocError, Global};

/// The list of these probabilities at a place, with its weights. Its one flaw is that fine
/// probabilities do not sum to 1.
#[tactic(auto, using(crate::proofs::Shared::keeps_weighed, crate::proofs::Shared::fine_weights, crate::proofs::Shared::coarse_kept, crate::proofs::Shared::coarse_weights, crate::proofs::Shared::other_weights))]
pub(crate) fn shares(
    alloc: Global,
    values: Vec<Frac>,
    span: Span,
    bounds: Bounds,
) -> Result<Gridded<Shares>, AllocError>
    requires bounds { AreBounds bounds }
    ensures read { IfOk result (IsRead (sum_at (at_if (is_not_one bounds.parts values.items) span))
        (shares_at values.items span)) }
    ensures values { IfOk result (λ made. made.part.values ≡ values.items) }
{
    match weigh(alloc, &values, MOST_WEIGHTS) {
        Ok(weights) => Ok(weighed(values, Some(weights), span, None)),
        Err(WeighFault::TooFine) => Ok(weighed(values, None, span, None)),
        Err(WeighFault::NotOne) => {
            let sum = span_if(is_fine(&values, bounds.parts), span);
            Ok(weighed(values, None, span, sum))
        }
        Err(WeighFault::OutOfMemory) => Err(AllocError),
    }
}

/// Whether the common denominator of a list is at most `most`.
fn is_fine(values: &[Frac], most: u64) -> bool
    ensures { result ≡ is_fine most values.now }
{
    common_denominator_of(values, most).is_some()
}

/// A list with its weights, and the place where its sum is not 1.
fn weighed(
    values: Vec<Frac>,
    weights: Option<Weights>,
    span: Span,
    sum: Option<Span>,
) -> Gridded<Shares>
    ensures flaws { result.flaws ≡ sum_at sum }
    ensures values { result.part.values ≡ values.items }
    ensures weights { result.part.weights ≡ weights }
    ensures span { result.part.span ≡ span }
{
    Gridded {
        part: Shares {
            values: Items::from_vec(values),
            weights,
            span,
        },
        flaws: Flaws {
            sum,
            ..Flaws::none()
        },
    }
}

/// The whole weights of the probabilities of `count` values; none exactly where these have a common
/// denominator above `most`, which is at most 2^40, or do not sum to 1.
pub fn weights_among(
    alloc: Global,
    count: usize,
    probs: &Option<Shares>,
    most: u64,
) -> Result<Option<Weights>, AllocError>
    requires some { 0 < count }
    requires few { count ≤ most_values }
    requires parts { most ≤ most_weights }
    requires equal { most_values ≤ most }
    requires shares { IfSome probs.now IsShares }
    ensures { IfOk result (λ made. MatchOption made
        (are_fine most (probs_among count probs.now) ≡ false)
        (λ made. (are_fine most (probs_among count probs.now) ≡ true)
        × IsWeighing (probs_among count probs.now) made)) }
{
    if !are_fine(probs, most) {
        return Ok(None);
    }
    match probs {
        Some(probs) => copy_weights(alloc, &probs.weights),
        None => Ok(Some(equal_weights(alloc, count)?)),
    }
}

/// The weights of `count` equal shares of 1.
fn equal_weights(alloc: Global, count: usize) -> Result<Weights, AllocError>
    requires some { 0 < count }
    requires few { count ≤ most_values }
    ensures { IfOk result (IsWeighing (replicate count (1 over count))) }
{
    let weights = vec![in alloc; 1; count]?;
    Ok(Weights {
        weights: Items::from_vec(weights),
        total: count as u64,
    })
}

/// Whether the probabilities of some values have a common denominator of at most `most`, which is
/// at most 2^40, and sum to 1.
pub fn are_fine(probs: &Option<Shares>, most: u64) -> bool
    requires parts { most ≤ most_weights }
    requires equal { most_values ≤ most }
    requires shares { IfSome probs.now IsShares }
    ensures { (count : ℕ) → 0 < count → count ≤ most_values
        → result ≡ are_fine most (probs_among count probs.now) }
{
    match probs {
        Some(probs) => is_within(&probs.weights, most),
        None => true,
    }
}

/// Whether there are weights, with a total of at most `most`.
fn is_within(weights: &Option<Weights>, most: u64) -> bool
    ensures { MatchOption weights.now (result ≡ false) (λ made. result ≡ nat_le made.total most) }
{
    match weights {
        Some(weights) => weights.total <= most,
        None => false,
    }
}

/// The span of a list of weights that are not one for each atom.
#[tactic(auto, unfolding(crate::specs::Rules::weights_differ))]
pub fn weights_differ(unit: &GridUnit) -> Option<Span>
    ensures { result ≡ weights_differ unit.now }
{
    let weights = unit.sev.weights.as_ref()?;
    let is_other = weights.values.as_slice().len() != unit.sev.atoms.as_slice().len();
    span_if(is_other, weights.span)
}
