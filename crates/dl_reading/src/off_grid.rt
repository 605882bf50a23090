//! Clauses that map whole amounts to whole amounts.

ghost use Rattle.std.specs.Prelude.{◌≡◌, false, map, IfOk};
ghost use Rattle.std.specs.List.{list_any};
ghost use Rattle.dl_plan.specs.Clause.{kept, IsClause};
ghost use Rattle.dl_reading.specs.Clauses.{is_off, IsMade};
ghost use Rattle.dl_reading.specs.Rules.{common_amount_of, off_grid_sums, off_grid_amounts};

use crate::made::{Clauses, MadeClause};
use crate::spans::span_if;
use dl_frac::small_divisor;
use dl_lexer::Span;
use dl_plan::Cede;
use dl_severity::fits;
use std::alloc::{AllocError, Global};

/// The span of the first clause that maps an amount to no whole number of buckets, for a severity
/// of these amounts in the layer.
pub fn off_grid_cession(
    alloc: Global,
    clauses: &Clauses,
    amounts: &[u32],
) -> Result<Option<Span>, AllocError>
    requires occ { IsMade clauses.now.occ }
    requires agr { IsMade clauses.now.agr }
    ensures { IfOk result (λ span. span
        ≡ off_grid_amounts clauses.now.occ clauses.now.agr amounts.now) }
{
    match &clauses.occ {
        MadeClause::Missing => Ok(off_grid_sums(&clauses.agr, amounts)),
        MadeClause::TooFine => Ok(None),
        MadeClause::Whole(cede, span) => {
            if is_any_off(cede, amounts) {
                return Ok(Some(*span));
            }
            let kept = kept_amounts(cede, amounts.to_vec(alloc)?);
            Ok(off_grid_sums(&clauses.agr, &kept))
        }
    }
}

/// The span of an aggregate clause that maps a sum of final amounts to no whole number.
fn off_grid_sums(agr: &MadeClause, amounts: &[u32]) -> Option<Span>
    requires { IsMade agr.now }
    ensures { result ≡ off_grid_sums agr.now amounts.now }
{
    match agr {
        MadeClause::Whole(cede, span) => span_if(!fits(cede, common_amount(amounts)), *span),
        _ => None,
    }
}

/// Whether the clause maps an amount to no whole number.
fn is_any_off(cede: &Cede, amounts: &[u32]) -> bool
    requires { IsClause cede.now }
    ensures { result ≡ list_any (is_off cede.now) amounts.now }
{
    amounts.iter().any(|&amount| is_off(cede, amount))
}

/// Whether the clause maps this amount to no whole number.
fn is_off(cede: &Cede, amount: u32) -> bool
    requires { IsClause cede.now }
    ensures { result ≡ is_off cede.now amount }
{
    cede.at(amount as u64).is_none()
}

/// The outcome of each amount after the clause, a whole number.
fn kept_amounts(cede: &Cede, mut amounts: Vec<u32>) -> Vec<u32>
    requires is_clause { IsClause cede.now }
    requires whole { list_any (is_off cede.now) amounts.items ≡ false }
    ensures { result.items ≡ map (λ x. (kept cede.now x).num) amounts.items }
{
    'amounts: for amount in amounts.iter_mut() {
        *amount = cede.at(*amount as u64).unwrap() as u32;
    }
    amounts
}

/// The greatest common divisor of the amounts.
fn common_amount(amounts: &[u32]) -> u32
    ensures { result ≡ common_amount_of amounts.now }
{
    amounts
        .iter()
        .fold(0, |common, &amount| small_divisor(common, amount))
}
