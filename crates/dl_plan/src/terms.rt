//! Whether terms make a price.

ghost use Rattle.std.specs.Prelude.{◌≡◌, ◌↔◌, IfOk, IsTrue, map};
ghost use Rattle.dl_plan.specs.Terms.{ArePriced};

use crate::fine::{common_denominator_of, sum_to_one};
use crate::settings::Term;
use dl_frac::Frac;
use std::alloc::{AllocError, Global};

/// The most terms of a price.
pub const MOST_TERMS: usize = 8;

/// The greatest common denominator that the weights of a price may have.
const MOST_WEIGHT_PARTS: u64 = 1_000_000;

/// The weights of the terms, in order.
fn weights_of(alloc: Global, terms: &[Term]) -> Result<Vec<Frac>, AllocError>
    ensures { IfOk result (λ weights. weights.items ≡ map (λ term. term.weight) terms.now) }
{
    let mut weights = Vec::new(alloc);
    'terms: for term in terms {
        weights.push(term.weight)?;
    }
    Ok(weights)
}

/// Whether these are the terms of a price: 1 to 8 of them, with weights that have a common
/// denominator of at most 1,000,000 and sum to 1.
#[tactic(auto, using(dl_exact::proofs::Sums::sum_over_map))]
pub fn are_priced(alloc: Global, terms: &[Term]) -> Result<bool, AllocError>
    ensures { IfOk result (λ priced. IsTrue priced ↔ ArePriced terms.now) }
{
    if terms.is_empty() || terms.len() > MOST_TERMS {
        return Ok(false);
    }
    let weights = weights_of(alloc, terms)?;
    match common_denominator_of(weights.as_slice(), MOST_WEIGHT_PARTS) {
        Some(common) => Ok(sum_to_one(weights.as_slice(), common)),
        None => Ok(false),
    }
}
