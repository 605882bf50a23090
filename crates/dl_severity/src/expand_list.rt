//! The values of a list.

ghost use Rattle.std.specs.Prelude.{◌≡◌, ◌≢◌, ◌++◌, ◌≤◌, All, length, min, IfOk, IfErr, MatchResult};
ghost use Rattle.dl_limits.specs.Limits.{most_range_parts};
ghost use Rattle.dl_severity.specs.Ranges.{IsRange, IsShared, RefusesRanges, PassesRoom, list_values, range_values, range_denominator};

use crate::fault::ExpandFault;
use crate::list::push_item;
use crate::range::Range;
use dl_frac::Frac;
use dl_limits::MOST_RANGE_PARTS;
use dl_plan::{common_denominator_of, numerator_over};
use std::alloc::Global;

/// The values of the ranges in order. `TooLong` exactly where there are more than `most`.
pub fn expand(alloc: Global, items: &[Range], most: usize) -> Result<Vec<Frac>, ExpandFault>
    requires { All IsRange items.now }
    ensures values { MatchResult result (λ values. values.items ≡ list_values items.now)
        (RefusesRanges most items.now) }
    ensures few { IfOk result (λ values. length values.items ≤ most) }
{
    let mut values = Vec::new(alloc);
    'items: for item in items {
        if let Err(fault) = push_range(&mut values, item, most) {
            return Err(fault);
        }
    }
    Ok(values)
}

/// How many values a range has, but at most `most`.
pub fn count_to(range: &Range, most: usize) -> usize
    requires { IsRange range.now }
    ensures { result ≡ min (length (range_values range.now)) most }
{
    if range.from == range.to {
        return most.min(1);
    }
    let den = shared_denominator(range);
    let from = numerator_over(range.from, den);
    let steps = (numerator_over(range.to, den) - from) / numerator_over(range.step, den);
    if steps >= most as u128 {
        return most;
    }
    steps as usize + 1
}

/// The values of a range put behind others.
fn push_range(values: &mut Vec<Frac>, range: &Range, most: usize) -> Result<(), ExpandFault>
    requires range { IsRange range.now }
    requires room { length values.old.items ≤ most }
    ensures values { IfOk result (λ _. values.new.items
        ≡ values.old.items ++ range_values range.now) }
    ensures few { IfOk result (λ _. length values.new.items ≤ most) }
    ensures long { IfErr result (PassesRoom most (length values.old.items) range.now) }
{
    if range.from == range.to {
        return push_one(values, range, most);
    }
    push_steps(values, range, shared_denominator(range), most)
}

/// The one value of a range from a number to itself put behind others.
fn push_one(values: &mut Vec<Frac>, range: &Range, most: usize) -> Result<(), ExpandFault>
    requires range { IsRange range.now }
    requires one { range.now.from ≡ range.now.to }
    requires room { length values.old.items ≤ most }
    ensures values { IfOk result (λ _. values.new.items
        ≡ values.old.items ++ range_values range.now) }
    ensures few { IfOk result (λ _. length values.new.items ≤ most) }
    ensures long { IfErr result (PassesRoom most (length values.old.items) range.now) }
{
    if values.len() >= most {
        return Err(ExpandFault::TooLong);
    }
    push_item(values, range.from)?;
    Ok(())
}

/// The values of a range over one denominator put behind others.
fn push_steps(
    values: &mut Vec<Frac>,
    range: &Range,
    den: u64,
    most: usize,
) -> Result<(), ExpandFault>
    requires range { IsRange range.now }
    requires den { den ≡ range_denominator range.now }
    requires shared { den ≤ most_range_parts }
    requires room { length values.old.items ≤ most }
    ensures values { IfOk result (λ _. values.new.items
        ≡ values.old.items ++ range_values range.now) }
    ensures few { IfOk result (λ _. length values.new.items ≤ most) }
    ensures long { IfErr result (PassesRoom most (length values.old.items) range.now) }
{
    let from = numerator_over(range.from, den);
    let step = numerator_over(range.step, den);
    let steps = (numerator_over(range.to, den) - from) / step;
    if steps >= (most - values.len()) as u128 {
        return Err(ExpandFault::TooLong);
    }
    'steps: for k in 0..steps as u64 + 1 {
        let value = Frac::make(from + k as u128 * step, den as u128).unwrap();
        push_item(values, value)?;
    }
    Ok(())
}

/// The common denominator of the numbers of a range.
fn shared_denominator(range: &Range) -> u64
    requires { IsShared range.now }
    ensures { result ≡ range_denominator range.now }
{
    common_denominator_of(&[range.from, range.to, range.step], MOST_RANGE_PARTS).unwrap()
}
