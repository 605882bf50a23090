//! Values in money as whole numbers of buckets.

ghost use Rattle.std.specs.Prelude.{◌≡◌, ◌≤◌, ◌^◌, ◌<◌, ℕ, map, All, length, slice_index_or, IfOk, IfErr, IfSome, IfNone, IsTrue, ◌↔◌, MatchResult};
ghost use Rattle.dl_limits.specs.Limits.{most_amount, most_values};
ghost use Rattle.dl_exact.specs.Fraction.{Fraction, whole, ◌<ℚ◌};
ghost use Rattle.dl_plan.specs.Fine.{IsWhole};
ghost use Rattle.dl_severity.specs.Buckets.{HasPartsOf18Digits, IsFirstWhere, AreInBuckets, RefusesAmounts, buckets};

use crate::fault::AmountFault;
use crate::list::push_item;
use dl_frac::Frac;
use std::alloc::Global;

/// The values over `bs`, which is above 0, as whole numbers of buckets. `OffGrid` with the place of
/// the first that is not whole; else `TooFar` with that of the first above `top`, which is at most
/// 2^22. There are at most 65,536 values, and the parts of each and of `bs` are below 10^18.
pub fn amounts(alloc: Global, values: &[Frac], bs: Frac, top: u32) -> Result<Vec<u32>, AmountFault>
    requires bucket { whole 0 <ℚ bs }
    requires modest { HasPartsOf18Digits bs }
    requires count { length values.now ≤ most_values }
    requires parts { All HasPartsOf18Digits values.now }
    requires top { top ≤ most_amount }
    ensures { MatchResult result (λ made. AreInBuckets values.now bs top made.items)
        (RefusesAmounts values.now bs top) }
{
    if let Some(at) = first_off_grid(values, bs) {
        return Err(AmountFault::OffGrid(at));
    }
    let mut made = Vec::new(alloc);
    'values: for (at, &value) in values.iter().enumerate() {
        let amount = quotient(value, bs);
        if amount > top as u128 {
            return Err(AmountFault::TooFar(at as u32));
        }
        push_item(&mut made, amount as u32)?;
    }
    Ok(made)
}

/// The place of the first value that is no whole number of buckets.
fn first_off_grid(values: &[Frac], bs: Frac) -> Option<u32>
    requires bucket { whole 0 <ℚ bs }
    requires modest { HasPartsOf18Digits bs }
    requires count { length values.now ≤ most_values }
    requires parts { All HasPartsOf18Digits values.now }
    ensures first { IfSome result (IsFirstWhere (λ x. ¬ IsWhole (buckets bs x)) values.now) }
    ensures none { IfNone result (All (λ x. IsWhole (buckets bs x)) values.now) }
{
    'values: for (at, &value) in values.iter().enumerate() {
        if !is_on_grid(value, bs) {
            return Some(at as u32);
        }
    }
    None
}

/// Whether a value is a whole number of buckets.
fn is_on_grid(value: Frac, bs: Frac) -> bool
    requires bucket { whole 0 <ℚ bs }
    requires modest { HasPartsOf18Digits bs }
    requires parts { HasPartsOf18Digits value }
    ensures { IsTrue result ↔ IsWhole (buckets bs value) }
{
    (value.num() as u128 * bs.den() as u128) % (value.den() as u128 * bs.num() as u128) == 0
}

/// A value that is a whole number of buckets, as that number.
fn quotient(value: Frac, bs: Frac) -> u128
    requires bucket { whole 0 <ℚ bs }
    requires modest { HasPartsOf18Digits bs }
    requires parts { HasPartsOf18Digits value }
    requires on_grid { IsWhole (buckets bs value) }
    ensures { buckets bs value ≡ whole result }
{
    (value.num() as u128 * bs.den() as u128) / (value.den() as u128 * bs.num() as u128)
}
