//! The listed claim counts of a unit.

ghost use Rattle.std.specs.Prelude.{◌≡◌, ◌≤◌, not, map, All, IfOk};
ghost use Rattle.dl_rules.specs.Claimed.{count_of, number_of};
ghost use Rattle.dl_rules.specs.Rules.{has_too_many_claims, passes};
ghost use Rattle.std.specs.List.{list_any};
ghost use Rattle.dl_rules.specs.Plans.{IsTabled, IsCountMade};
ghost use Rattle.dl_limits.specs.Limits.{most_count};
ghost use Rattle.dl_rules.specs.Listed.{AreCounts};
ghost use Rattle.dl_rules.specs.Checked.{IsWholeCount, IsCountChecked};
ghost use Rattle.dl_reading.specs.Prelude.{at_if, is_whole};

use crate::claims::UnitCount;
use crate::frequencies::{exposed_count, exposed_too_many};
use dl_frac::Frac;
use dl_lexer::Span;
use dl_limits::{MOST_COUNT, MOST_WEIGHTS};
use dl_plan::Freq;
use dl_reading::{GridCount, Shares, ValueList, is_above, span_if, weights_among};
use dl_severity::merge;
use std::alloc::{AllocError, Global};

/// The span of a list with a value that is not whole.
pub(crate) fn not_whole(list: &ValueList) -> Option<Span>
    ensures { result ≡ at_if (list_any (λ x. not (is_whole x)) list.now.values) list.now.span }
{
    span_if(is_any_split(list.values.as_slice()), list.span)
}

/// Whether a value is not whole.
fn is_any_split(values: &[Frac]) -> bool
    ensures { result ≡ list_any (λ x. not (is_whole x)) values.now }
{
    values.iter().any(|value| value.den() != 1)
}

/// Whether a count has too many claims, of which `above` are expected above 0. Its trials
/// and its shape are whole.
#[tactic(auto, unfolding(crate::specs::Rules::has_too_many_claims))]
pub(crate) fn too_many_claims(count: &UnitCount, above: &Option<Frac>) -> bool
    requires { IsWholeCount (count_of count.now) (number_of count.now) }
    ensures { result ≡ has_too_many_claims (count_of count.now) (number_of count.now) above.now }
{
    match count {
        UnitCount::Listed(counts, _) => is_any_above_most(counts.values.as_slice()),
        UnitCount::Exposed(_, freq, number) => exposed_too_many(freq, *number, above),
    }
}

/// Whether a value passes 256.
fn is_any_above_most(values: &[Frac]) -> bool
    ensures { result ≡ list_any (λ x. passes x most_count) values.now }
{
    values.iter().any(|&value| passes(value, MOST_COUNT))
}

/// Whether a value passes a limit.
pub(crate) fn passes(value: Frac, limit: u32) -> bool
    ensures { result ≡ passes value limit }
{
    is_above(value, Frac::whole(limit))
}

/// The claim count of a count that breaks no rule.
pub(crate) fn unit_count(alloc: Global, count: &UnitCount) -> Result<Freq, AllocError>
    requires { IsCountChecked (count_of count.now) (number_of count.now) }
    ensures { IfOk result (IsCountMade (count_of count.now) (number_of count.now)) }
{
    match count {
        UnitCount::Listed(counts, probs) => count_table(alloc, counts, probs),
        UnitCount::Exposed(_, freq, number) => Ok(exposed_count(freq, *number)),
    }
}

/// The claim count of listed counts: whole weights, those of equal counts added up.
fn count_table(
    alloc: Global,
    counts: &ValueList,
    probs: &Option<Shares>,
) -> Result<Freq, AllocError>
    requires { AreCounts counts.now probs.now }
    ensures { IfOk result (IsTabled counts.now probs.now) }
{
    let values = counts.values.as_slice();
    let numbers = numbers_of(alloc, values)?;
    let weights = weights_among(alloc, values.len(), probs, MOST_WEIGHTS)?.unwrap();
    let table = merge(alloc, &numbers, &weights)?;
    Ok(Freq::Table {
        counts: table.items,
        total: table.total,
    })
}

/// Whole values of at most 256 as numbers.
fn numbers_of(alloc: Global, values: &[Frac]) -> Result<Vec<u32>, AllocError>
    requires { All (λ x. x.num ≤ most_count) values.now }
    ensures { IfOk result (λ made. made.items ≡ map (λ x. x.num) values.now) }
{
    let mut made = Vec::new(alloc);
    'values: for &value in values {
        made.push(value.num() as u32)?;
    }
    Ok(made)
}
