//! The row of an ask for a quantity of the total.

ghost use Rattle.std.specs.Prelude.{◌≡◌, ◌≤◌, ◌^◌, ◌⊎◌, ◌↔◌, Some, None, All, map};
ghost use Rattle.dl_limits.specs.Limits.{IsPlanScale, most_digits, most_mean};
ghost use Rattle.dl_plan.specs.declared.plan.Plan.{Plan as PlanValue};
ghost use Rattle.dl_plan.specs.Prelude.{IsLevel, ArePriced, IsValid};
ghost use Rattle.dl_shares.specs.Drawn.{IsMeanOf, IsTotalOf};
ghost use Rattle.dl_shares.specs.Settled.{IsPast};
ghost use Rattle.dl_budget.specs.Asks.{tail_budget, price_budget, in_digits};
ghost use Rattle.dl_report.specs.declared.report.End.TheVariants.{Beyond};
ghost use Rattle.dl_answers.specs.Grounds.{Prints};
ghost use Rattle.dl_answers.specs.Rows.{IsBracket, IsTailMean, IsBeyond, IsPastGrid, IsPrice, IsBeyondSome, bracket_end, total_error};

use dl_bytes::Text;
use dl_frac::Frac;
use dl_iv::Iv;
use dl_measures::{Distribution, price, quantile, tail_mean};
use dl_plan::Term;
use dl_report::{End, Row};

/// The row of an ask whose declared value lies in `value`, with `digits` digits.
#[tactic(auto, using(crate::proofs::Scales::digits_fit))]
pub(crate) fn ends_row<const B: u32>(ask: Text, digits: u32, value: Iv<B>) -> Row
    requires scale { IsPlanScale B }
    requires digits { digits ≤ most_digits }
    ensures ask { result.ask ≡ ask }
    ensures ends { Prints (2 ^ B) value.entry.lo value.entry.hi digits result }
{
    let (low, high) = value.print_ends(digits);
    Row {
        ask,
        low: End::Number(low),
        high: End::Number(high),
    }
}

/// The row of an ask whose quantile lies past the grid.
pub(crate) fn beyond_row(ask: Text) -> Row
    ensures ask { result.ask ≡ ask }
    ensures ends { IsPastGrid result }
{
    Row {
        ask,
        low: End::Beyond,
        high: End::Beyond,
    }
}

/// The end of a bracket.
fn bracket_end(hi: Option<u32>) -> End
    ensures { result ≡ bracket_end hi }
{
    match hi {
        Some(amount) => End::Whole(amount),
        None => End::Beyond,
    }
}

/// The row of an ask for the quantile at `p`.
pub(crate) fn quantile_row<const B: u32>(ask: Text, total: &Distribution<B>, p: Frac) -> Row
    requires level { IsLevel p }
    ensures ask { result.ask ≡ ask }
    ensures bracket { (plan : PlanValue) → IsValid plan → IsTotalOf plan total.now
        → IsBracket plan p (total_error (2 ^ B) plan) result }
    ensures past { (result.high ≡ Beyond) ↔ IsPast total.now p }
{
    let bracket = quantile(total, p);
    // it begins inside the grid, or right behind it
    prove!(bracket.lo <= total.cells());
    Row {
        ask,
        low: End::Whole(bracket.lo),
        high: bracket_end(bracket.hi),
    }
}

/// The row of an ask for the tail mean at `p`; without numbers where the grid ends before the
/// quantile. `mean` is that of the total.
pub(crate) fn tail_row<const B: u32>(
    ask: Text,
    digits: u32,
    total: &Distribution<B>,
    mean: Iv<B>,
    p: Frac,
) -> Row
    requires scale { IsPlanScale B }
    requires digits { digits ≤ most_digits }
    requires level { IsLevel p }
    requires small { mean.hi ≤ most_mean }
    ensures ask { result.ask ≡ ask }
    ensures tail { (plan : PlanValue) → IsValid plan
        → IsTotalOf plan total.now → IsMeanOf plan mean.entry
        → IsTailMean plan p digits (in_digits (2 ^ B) (tail_budget (2 ^ B) plan p) digits) result
        ⊎ IsBeyond plan p (total_error (2 ^ B) plan) result }
    ensures past { IsPastGrid result ↔ IsPast total.now p }
{
    match tail_mean(total, p, mean) {
        Some(tail) => ends_row(ask, digits, tail),
        None => beyond_row(ask),
    }
}

/// The row of an ask for the price by these terms; without numbers where the grid ends before the
/// quantile of some term. `mean` is that of the total.
pub(crate) fn price_row<const B: u32>(
    ask: Text,
    digits: u32,
    total: &Distribution<B>,
    mean: Iv<B>,
    terms: &[Term],
) -> Row
    requires scale { IsPlanScale B }
    requires digits { digits ≤ most_digits }
    requires levels { All IsLevel (map (λ term. term.p) terms.now) }
    requires priced { ArePriced terms.now }
    requires small { mean.hi ≤ most_mean }
    ensures ask { result.ask ≡ ask }
    ensures price { (plan : PlanValue) → IsValid plan
        → IsTotalOf plan total.now → IsMeanOf plan mean.entry
        → IsPrice plan terms.now digits
        (in_digits (2 ^ B) (price_budget (2 ^ B) plan terms.now) digits) result
        ⊎ IsBeyondSome plan terms.now (total_error (2 ^ B) plan) result }
{
    match price(total, terms, mean) {
        Some(price) => ends_row(ask, digits, price),
        None => beyond_row(ask),
    }
}
