//! Whole weights of a list of probabilities.

ghost use Rattle.std.specs.Prelude.{◌≡◌, ◌≤◌, ◌^◌, IfOk};
ghost use Rattle.dl_limits.specs.Limits.{most_weights};
ghost use Rattle.dl_exact.specs.Fraction.{whole};
ghost use Rattle.dl_plan.specs.Fine.{common_denominator, numerator_over};
ghost use Rattle.dl_severity.specs.Weighing.{sum_of};
ghost use Rattle.dl_severity.specs.Weighed.{IsWeighing};

use dl_frac::Frac;
use dl_plan::{Items, numerator_over};
use std::alloc::{AllocError, Global};

/// Whole weights, each of which has itself over the total as its probability.
#[derive(Drop)]
pub struct Weights {
    /// The weights, in order.
    pub weights: Items<u64>,
    /// Their sum.
    pub total: u64,
}

/// The whole weights of probabilities that sum to 1, over their common denominator.
pub(crate) fn over_common(alloc: Global, probs: &[Frac], common: u64) -> Result<Weights, AllocError>
    requires common { common ≡ common_denominator probs.now }
    requires fine { common ≤ most_weights }
    requires one { sum_of probs.now ≡ whole 1 }
    ensures { IfOk result (IsWeighing probs.now) }
{
    let mut weights = Vec::new(alloc);
    'probs: for &prob in probs {
        weights.push(numerator_over(prob, common) as u64)?;
    }
    Ok(Weights {
        weights: Items::from_vec(weights),
        total: common,
    })
}
