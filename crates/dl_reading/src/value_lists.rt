//! The values of a list, each with the place of its item.

ghost use Rattle.std.specs.Prelude.{◌≡◌, ◌<◌, ◌≤◌, ◌+◌, ◌++◌, [], All, IfOk, IfErr, is_none, map, flat_map, length};
ghost use Rattle.std.specs.List.{list_all};
ghost use Rattle.dl_limits.specs.Limits.{most_amount};
ghost use Rattle.dl_limits.specs.Rules.{AreBounds};
ghost use Rattle.dl_ast.specs.WellFormed.{IsFormedItem, IsFormedList};
ghost use Rattle.dl_plan.specs.Ranges.{IsBucket};
ghost use Rattle.dl_severity.specs.Prelude.{HasPartsOf18Digits, IsRange, range_values};
ghost use Rattle.dl_reading.specs.Flaws.{AgreeToFirst, IsRead, IsReadTo, flaws_in, spans};
ghost use Rattle.dl_reading.specs.Grid.{grid_list, number_of};
ghost use Rattle.dl_reading.specs.Reading.{flaws_of_item, flaws_of_list, flaws_of_amount, flaws_of_numeral};
ghost use Rattle.dl_reading.specs.Values.{spanned_range, spanned_in, spanned_values, value, AreTooMany};

use crate::flaws::{Flaws, Gridded};
use crate::grid::ValueList;
use crate::numbers::{grid_amount, item_range, number};
use dl_ast::{ListAst, ListItem};
use dl_frac::Frac;
use dl_lexer::Span;
use dl_limits::Bounds;
use dl_plan::Items;
use dl_severity::{ExpandFault, Range, expand};
use std::alloc::{AllocError, Global};

/// The values of a list; of no use where it has a flaw.
pub(crate) fn value_list(
    alloc: Global,
    list: &ListAst,
    bounds: Bounds,
) -> Result<Gridded<ValueList>, AllocError>
    requires bounds { AreBounds bounds }
    requires formed { IsFormedList list.now }
    ensures { IfOk result (IsReadTo 3 (flaws_of_list bounds list.now) (grid_list list.now)) }
{
    let spanned = spanned_values(alloc, list, bounds)?;
    Ok(Gridded {
        part: ValueList {
            values: Items::from_vec(values_alone(alloc, spanned.part.as_slice())?),
            span: list.span,
        },
        flaws: spanned.flaws,
    })
}

/// The values of a list, each with the place of its item; of no use where the list has a flaw.
pub(crate) fn spanned_values(
    alloc: Global,
    list: &ListAst,
    bounds: Bounds,
) -> Result<Gridded<Items<(Frac, Span)>>, AllocError>
    requires bounds { AreBounds bounds }
    requires formed { IsFormedList list.now }
    ensures read { IfOk result (IsReadTo 3 (flaws_of_list bounds list.now)
        (spanned_values list.now)) }
    ensures modest { IfOk result (λ made. All (λ pair. HasPartsOf18Digits pair.0) made.part) }
{
    let items = list.items.as_slice();
    if items.len() > bounds.values {
        return Ok(long_list(alloc, list, bounds, item_flaws(items)));
    }
    if are_single(items) {
        return first_numbers(alloc, items);
    }
    let ranges = item_ranges(alloc, items)?;
    if ranges.flaws.numeral.is_some() || ranges.flaws.range.is_some() {
        return Ok(no_values(alloc, ranges.flaws));
    }
    match values_of_ranges(alloc, ranges.part.as_slice(), bounds) {
        Ok(values) => Ok(ranges.with(Items::from_vec(values))),
        Err(ExpandFault::TooLong) => Ok(long_list(alloc, list, bounds, ranges.flaws)),
        Err(ExpandFault::OutOfMemory) => Err(AllocError),
    }
}

/// No values of a list of more than it may have, beside the flaws of its items.
fn long_list(
    alloc: Global,
    list: &ListAst,
    bounds: Bounds,
    items: Flaws,
) -> Gridded<Items<(Frac, Span)>>
    requires long { bounds.values < length (spanned_values list.now) }
    requires items { AgreeToFirst (spans items) (spans (flaws_in flaws_of_item list.now.items)) }
    ensures read { IsReadTo 3 (flaws_of_list bounds list.now) (spanned_values list.now) result }
    ensures part { result.part ≡ [] }
{
    no_values(alloc, items.or(Flaws::long_at(Some(list.span))))
}

/// No values beside flaws.
fn no_values(alloc: Global, flaws: Flaws) -> Gridded<Items<(Frac, Span)>>
    ensures part { result.part ≡ [] }
    ensures flaws { result.flaws ≡ flaws }
{
    let part = Items::from_vec(Vec::new(alloc));
    Gridded { part, flaws }
}

/// The flaws of the numerals and ranges of items, which are not expanded.
pub(crate) fn item_flaws(items: &[ListItem]) -> Flaws
    requires { All IsFormedItem items.now }
    ensures { AgreeToFirst (spans result) (spans (flaws_in flaws_of_item items.now)) }
{
    let mut flaws = Flaws::none();
    'items: for item in items {
        flaws = flaws.or(item_range(item).flaws);
    }
    flaws
}

/// Whether no item is a range; no numeral is read.
pub(crate) fn are_single(items: &[ListItem]) -> bool
    ensures { result ≡ list_all (λ item. is_none item.to) items.now }
{
    items.iter().all(|item| item.to.as_ref().is_none())
}

/// The first number of each item, with the place of the item.
fn first_numbers(
    alloc: Global,
    items: &[ListItem],
) -> Result<Gridded<Items<(Frac, Span)>>, AllocError>
    requires { All IsFormedItem items.now }
    ensures read { IfOk result (IsReadTo 1 (flaws_in (λ item. flaws_of_numeral item.from) items.now)
        (map (λ item. (value item.from, item.span)) items.now)) }
    ensures modest { IfOk result (λ made. All (λ pair. HasPartsOf18Digits pair.0) made.part) }
{
    let mut made = Vec::with_capacity(alloc, items.len())?;
    let mut flaws = Flaws::none();
    'items: for item in items {
        let one = number(&item.from);
        made.push((one.part, item.span))?;
        flaws = flaws.or(one.flaws);
    }
    let part = Items::from_vec(made);
    Ok(Gridded { part, flaws })
}

/// The ranges of items, each with the place of its item.
fn item_ranges(
    alloc: Global,
    items: &[ListItem],
) -> Result<Gridded<Items<(Range, Span)>>, AllocError>
    requires { All IsFormedItem items.now }
    ensures { IfOk result (IsReadTo 2 (flaws_in flaws_of_item items.now)
        (map spanned_range items.now)) }
{
    let mut made = Vec::new(alloc);
    let mut flaws = Flaws::none();
    'items: for item in items {
        let one = item_range(item);
        made.push((one.part, item.span))?;
        flaws = flaws.or(one.flaws);
    }
    let part = Items::from_vec(made);
    Ok(Gridded { part, flaws })
}

/// The values of ranges, each with the place of its range. `TooLong` exactly where there are more
/// than a list may have.
fn values_of_ranges(
    alloc: Global,
    ranges: &[(Range, Span)],
    bounds: Bounds,
) -> Result<Vec<(Frac, Span)>, ExpandFault>
    requires bounds { AreBounds bounds }
    requires ranges { All (λ pair. IsRange pair.0) ranges.now }
    ensures values { IfOk result (λ values. values.items ≡ flat_map spanned_in ranges.now) }
    ensures few { IfOk result (λ values. length values.items ≤ bounds.values) }
    ensures long { IfErr result (AreTooMany bounds (length (flat_map spanned_in ranges.now))) }
{
    let mut values = Vec::new(alloc);
    'each: for &(range, span) in ranges {
        if let Err(fault) = push_spanned(alloc, range, span, bounds, &mut values) {
            return Err(fault);
        }
    }
    Ok(values)
}

/// The values of a range put behind others, each with this place. `TooLong` exactly where there are
/// then more than a list may have.
fn push_spanned(
    alloc: Global,
    range: Range,
    span: Span,
    bounds: Bounds,
    values: &mut Vec<(Frac, Span)>,
) -> Result<(), ExpandFault>
    requires bounds { AreBounds bounds }
    requires range { IsRange range }
    requires room { length values.old.items ≤ bounds.values }
    ensures values { IfOk result (λ _. values.new.items
        ≡ values.old.items ++ spanned_in (range, span)) }
    ensures few { IfOk result (λ _. length values.new.items ≤ bounds.values) }
    ensures long { IfErr result (AreTooMany bounds (length values.old.items
        + length (range_values range))) }
{
    let part = expand(alloc, &[range], bounds.values - values.len())?;
    push_each(values, &part, span)?;
    Ok(())
}

/// Numbers put behind others, each with this place.
fn push_each(values: &mut Vec<(Frac, Span)>, part: &[Frac], span: Span) -> Result<(), AllocError>
    ensures { IfOk result (λ _. values.new.items
        ≡ values.old.items ++ map (λ x. (x, span)) part.now) }
{
    'part: for &value in part {
        values.push((value, span))?;
    }
    Ok(())
}

/// Values without their places.
fn values_alone(alloc: Global, spanned: &[(Frac, Span)]) -> Result<Vec<Frac>, AllocError>
    ensures { IfOk result (λ values. values.items ≡ map (λ pair. pair.0) spanned.now) }
{
    spanned.iter().map(|pair| pair.0).collect(alloc)
}

/// Amounts of money, each with its place, as numbers of buckets.
pub(crate) fn grid_amounts(
    alloc: Global,
    spanned: &[(Frac, Span)],
    bs: Frac,
    most: u32,
) -> Result<Gridded<Items<u32>>, AllocError>
    requires bucket { IsBucket bs }
    requires most { most ≤ most_amount }
    requires modest { All (λ pair. HasPartsOf18Digits pair.0) spanned.now }
    ensures { IfOk result (IsRead
        (flaws_in (λ pair. flaws_of_amount most bs pair.0 pair.1) spanned.now)
        (map (λ pair. number_of bs pair.0) spanned.now)) }
{
    let mut made = Vec::new(alloc);
    let mut flaws = Flaws::none();
    'spanned: for &(value, span) in spanned {
        let amount = grid_amount(value, bs, most, span);
        made.push(amount.part)?;
        flaws = flaws.or(amount.flaws);
    }
    let part = Items::from_vec(made);
    Ok(Gridded { part, flaws })
}
