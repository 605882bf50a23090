//! The numbers of a text: a numeral, the range of an item, an amount of money in buckets.

ghost use Rattle.std.specs.Prelude.{◌≡◌, ◌≤◌, ◌&&◌, IfSome, is_some};
ghost use Rattle.std.specs.Option.{SomeIff};
ghost use Rattle.dl_limits.specs.Limits.{most_amount, most_range_parts};
ghost use Rattle.dl_lexer.specs.Prelude.{IsNumeral};
ghost use Rattle.dl_ast.specs.WellFormed.{IsFormedItem};
ghost use Rattle.dl_severity.specs.Prelude.{HasPartsOf18Digits, range_denominator};
ghost use Rattle.dl_plan.specs.Ranges.{IsBucket};
ghost use Rattle.dl_reading.specs.First.{at_if};
ghost use Rattle.dl_reading.specs.Flaws.{IsRead, IsReadTo, flaws_within};
ghost use Rattle.dl_reading.specs.Grid.{number_of};
ghost use Rattle.dl_reading.specs.Reading.{is_no_range, flaws_of_numeral, flaws_of_amount, flaws_of_money, flaws_of_item};
ghost use Rattle.dl_reading.specs.Small.{IsSmall};
ghost use Rattle.dl_reading.specs.Values.{value, value_or, range_of};

use crate::compare::is_above;
use crate::flaws::{Flaws, Gridded};
use crate::spans::span_if;
use dl_ast::{ListItem, Numeral};
use dl_frac::{Frac, lcm_to, numeral};
use dl_lexer::{Rare, Span};
use dl_limits::MOST_RANGE_PARTS;
use dl_severity::Range;

/// The value of a numeral; a bad one has the value 1.
pub(crate) fn number(written: &Numeral) -> Gridded<Frac>
    requires { IsNumeral written.now.text }
    ensures read { IsReadTo 1 (flaws_of_numeral written.now) (value written.now) result }
    ensures small { IsSmall result.part }
{
    match numeral(written.text.as_slice(), 11) {
        Ok(part) => Gridded::clean(part),
        Err(_) => Gridded {
            part: Frac::whole(1),
            flaws: Flaws {
                numeral: Some(written.span),
                ..Flaws::none()
            },
        },
    }
}

/// The value of a numeral, or a default where it is missing.
fn number_or(other: Frac, part: &Rare<Numeral>) -> Gridded<Frac>
    requires { IfSome part.now (λ n. IsNumeral n.text) }
    ensures { IsReadTo 1 (flaws_within flaws_of_numeral part.now) (value_or other part.now) result }
{
    match part.as_ref() {
        Some(numeral) => number(numeral),
        None => Gridded::clean(other),
    }
}

/// The range of an item.
pub(crate) fn item_range(item: &ListItem) -> Gridded<Range>
    requires { IsFormedItem item.now }
    ensures { IsReadTo 2 (flaws_of_item item.now) (range_of item.now) result }
{
    let from = number(&item.from);
    let to = number_or(from.part, &item.to);
    let step = number_or(Frac::whole(1), &item.step);
    let range = Range {
        from: from.part,
        to: to.part,
        step: step.part,
    };
    let numerals = from.flaws.or(to.flaws.or(step.flaws));
    let bad = Flaws {
        range: bad_range(item, &range),
        ..Flaws::none()
    };
    Gridded {
        part: range,
        flaws: numerals.or(bad),
    }
}

/// The span of an item of several numbers that are no range.
fn bad_range(item: &ListItem, range: &Range) -> Option<Span>
    ensures { result ≡ at_if (is_some item.now.to && is_no_range range.now) item.now.span }
{
    span_if(item.to.as_ref().is_some() && is_no_range(range), item.span)
}

/// The numbers go down, their step is 0, or their common denominator is above 1,000,000.
fn is_no_range(range: &Range) -> bool
    ensures { result ≡ is_no_range range.now }
{
    if is_above(range.from, range.to) || range.step.num() == 0 {
        return true;
    }
    shared_denominator(range).is_none()
}

/// The common denominator of the numbers of a range; `None` exactly where it passes 1,000,000.
fn shared_denominator(range: &Range) -> Option<u64>
    ensures { SomeIff result (range_denominator range.now ≤ most_range_parts)
        (range_denominator range.now) }
{
    let first = lcm_to(1, range.from.den(), MOST_RANGE_PARTS)?;
    let second = lcm_to(first, range.to.den(), MOST_RANGE_PARTS)?;
    lcm_to(second, range.step.den(), MOST_RANGE_PARTS)
}

/// An amount of money that is written at a place.
pub(crate) fn money(written: &Numeral, bs: Frac, most: u32, span: Span) -> Gridded<u32>
    requires bucket { IsBucket bs }
    requires most { most ≤ most_amount }
    requires numeral { IsNumeral written.now.text }
    ensures { IsRead (flaws_of_money most bs span written.now) (number_of bs (value written.now))
        result }
{
    let value = number(written);
    let amount = grid_amount(value.part, bs, most, span);
    Gridded {
        part: amount.part,
        flaws: value.flaws.or(amount.flaws),
    }
}

/// An amount of money at a place, as a number of buckets.
pub(crate) fn grid_amount(amount: Frac, bs: Frac, most: u32, span: Span) -> Gridded<u32>
    requires bucket { IsBucket bs }
    requires most { most ≤ most_amount }
    requires parts { HasPartsOf18Digits amount }
    ensures { IsRead (flaws_of_amount most bs amount span) (number_of bs amount) result }
{
    let num = amount.num() as u128 * bs.den() as u128;
    let den = amount.den() as u128 * bs.num() as u128;
    let most = most as u128;
    Gridded {
        part: (num / den).min(most) as u32,
        flaws: Flaws {
            off_grid: span_if(num % den != 0, span),
            too_far: span_if(den * most < num, span),
            ..Flaws::none()
        },
    }
}
