//! The weighing of probabilities.

ghost use Rattle.std.specs.Prelude.{◌≤◌, MatchResult, OnOk};
ghost use Rattle.dl_limits.specs.Limits.{most_weights};
ghost use Rattle.dl_plan.specs.Fine.{common_denominator};
ghost use Rattle.dl_severity.specs.Weighing.{RefusesWeights};
ghost use Rattle.dl_severity.specs.Weighed.{IsWeighing};

use crate::fault::WeighFault;
use crate::weights::{Weights, over_common};
use dl_frac::Frac;
use dl_plan::{common_denominator_of, sum_to_one};
use std::alloc::Global;

/// Whole weights over the common denominator of probabilities that sum to 1. `TooFine` exactly
/// where that denominator passes `most`, which is at most 2^40; else `NotOne` exactly where the sum
/// is not 1.
pub fn weigh(alloc: Global, probs: &[Frac], most: u64) -> Result<Weights, WeighFault>
    requires { most ≤ most_weights }
    ensures weights { MatchResult result (IsWeighing probs.now) (RefusesWeights most probs.now) }
    ensures fine { OnOk result (common_denominator probs.now ≤ most) }
{
    let Some(common) = common_denominator_of(probs, most) else {
        return Err(WeighFault::TooFine);
    };
    if !sum_to_one(probs, common) {
        return Err(WeighFault::NotOne);
    }
    Ok(over_common(alloc, probs, common)?)
}
