//! The claim count of a unit, read.

ghost use Rattle.std.specs.Prelude.{IfOk};
ghost use Rattle.dl_limits.specs.Rules.{AreBounds};
ghost use Rattle.dl_ast.specs.WellFormed.{IsFormedCount, IsFormedExposure, IsFormedFrequency, IsFormedZero};
ghost use Rattle.dl_reading.specs.Flaws.{IsRead, IsReadTo};
ghost use Rattle.dl_reading.specs.Grid.{grid_exposure, grid_freq, zero_value, given_zero, count_with, freq_of};
ghost use Rattle.dl_reading.specs.Reading.{flaws_of_exposure, flaws_of_count, flaws_of_freq, flaws_of_zero, flaws_of_distribution};

use crate::flaws::{Flaws, Gridded};
use crate::grid::{GridCount, GridExposure, GridFreq};
use crate::losses::probs_beside;
use crate::numbers::number;
use crate::value_lists::value_list;
use dl_ast::{CountAst, Exposure, FreqAst, ZeroAst};
use dl_frac::Frac;
use dl_limits::Bounds;
use std::alloc::{AllocError, Global};

/// A claim count with this distribution; listed counts have none.
pub(crate) fn grid_count(
    alloc: Global,
    count: &CountAst,
    freq: GridFreq,
    bounds: Bounds,
) -> Result<Gridded<GridCount>, AllocError>
    requires bounds { AreBounds bounds }
    requires formed { IsFormedCount count.now }
    ensures { IfOk result (IsRead (flaws_of_count bounds count.now) (count_with count.now freq)) }
{
    match count {
        CountAst::Exposed { exposure, .. } => {
            let read = grid_exposure(exposure);
            let exposure = read.part;
            Ok(read.with(GridCount::Exposed { exposure, freq }))
        }
        CountAst::Listed { counts, probs, .. } => {
            let counts = value_list(alloc, counts, bounds)?;
            let probs = probs_beside(alloc, counts.part.values.as_slice().len(), probs, bounds)?;
            let flaws = counts.flaws.or(probs.flaws);
            let (counts, probs) = (counts.part, probs.part);
            let part = GridCount::Listed { counts, probs };
            Ok(Gridded { part, flaws })
        }
    }
}

/// An exposure.
fn grid_exposure(exposure: &Exposure) -> Gridded<GridExposure>
    requires { IsFormedExposure exposure.now }
    ensures { IsReadTo 1 (flaws_of_exposure exposure.now) (grid_exposure exposure.now) result }
{
    match exposure {
        Exposure::Claims(numeral, span) => {
            let claims = number(numeral);
            claims.with(GridExposure::Claims(claims.part, *span))
        }
        Exposure::Loss(numeral, span) => {
            let loss = number(numeral);
            loss.with(GridExposure::Loss(loss.part, *span))
        }
        Exposure::Premium {
            amount,
            ratio,
            span,
        } => {
            let amount = number(amount);
            let ratio = number(ratio);
            Gridded {
                part: GridExposure::Premium {
                    amount: amount.part,
                    ratio: ratio.part,
                    span: *span,
                },
                flaws: amount.flaws.or(ratio.flaws),
            }
        }
    }
}

/// The distribution of a claim count, and the probability of no claim that it is given. Listed
/// counts have no distribution, and any will do.
pub(crate) fn distribution(count: &CountAst) -> Gridded<(GridFreq, Option<Frac>)>
    requires { IsFormedCount count.now }
    ensures { IsReadTo 1 (flaws_of_distribution count.now) (freq_of count.now, given_zero count.now)
        result }
{
    match count {
        CountAst::Exposed { freq, zero, .. } => {
            let freq = grid_freq(freq);
            let zero = zero_number(zero);
            Gridded {
                part: (freq.part, zero.part),
                flaws: freq.flaws.or(zero.flaws),
            }
        }
        CountAst::Listed { span, .. } => Gridded::clean((GridFreq::Fixed(*span), None)),
    }
}

/// A distribution.
fn grid_freq(freq: &FreqAst) -> Gridded<GridFreq>
    requires { IsFormedFrequency freq.now }
    ensures { IsReadTo 1 (flaws_of_freq freq.now) (grid_freq freq.now) result }
{
    match freq {
        FreqAst::Fixed(span) => Gridded::clean(GridFreq::Fixed(*span)),
        FreqAst::Poisson(span) => Gridded::clean(GridFreq::Poisson(*span)),
        FreqAst::Geometric(span) => Gridded::clean(GridFreq::Gamma(Frac::whole(1), *span)),
        FreqAst::Bernoulli(span) => Gridded::clean(GridFreq::Bernoulli(*span)),
        FreqAst::Binomial(numeral, span) => {
            let probability = number(numeral);
            probability.with(GridFreq::Binomial(probability.part, *span))
        }
        FreqAst::Gamma(numeral, span) => {
            let variation = number(numeral);
            variation.with(GridFreq::Gamma(variation.part, *span))
        }
    }
}

/// The probability of no claim that a count is given; none where it keeps its own.
fn zero_number(zero: &ZeroAst) -> Gridded<Option<Frac>>
    requires { IsFormedZero zero.now }
    ensures { IsReadTo 1 (flaws_of_zero zero.now) (zero_value zero.now) result }
{
    match zero {
        ZeroAst::Plain => Gridded::clean(None),
        ZeroAst::Truncated(_) => Gridded::clean(Some(Frac::whole(0))),
        ZeroAst::Modified(numeral, _) => number(numeral).some(),
    }
}
