//! The severity of one claim: amounts in buckets, each with a whole weight.

ghost use Rattle.dl_plan.specs.Weighted.{IsWeighted};

use crate::item::Item;
use dl_bytes::Items;

/// A severity in buckets: distinct amounts, each of which has its weight over the total as its
/// probability.
#[derive(Drop)]
pub struct Sev {
    /// The amounts, rising, each of positive weight.
    pub items: Items<Item>,
    /// The sum of the weights, at most 2^40. The weights have no common divisor above 1.
    pub total: u64,
    pub ghost weighted: { IsWeighted items total },
}
