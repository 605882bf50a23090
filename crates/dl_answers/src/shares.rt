//! The row of an ask for the share of a unit in a total.

ghost use Rattle.std.specs.Prelude.{◌≡◌, ◌*◌, ◌^◌, ◌<◌, ◌≤◌, ◌⊎◌, ◌↔◌, None, Some};
ghost use Rattle.dl_limits.specs.Limits.{most_digits, most_high, most_share_den};
ghost use Rattle.dl_plan.specs.Prelude.{IsLevel};
ghost use Rattle.dl_budget.specs.Asks.{kappa_budget, cotail_budget, share_budget, in_digits};
ghost use Rattle.dl_shares.specs.Settled.{IsPast};
ghost use Rattle.dl_shares.specs.Source.{reach};
ghost use Rattle.dl_report.specs.declared.report.End.TheVariants.{Absent};
ghost use Rattle.dl_answers.specs.Grounds.{IsJointOf, IsPart};
ghost use Rattle.dl_answers.specs.Rows.{IsBeyond, IsNoTailShare, IsPastGrid, IsShareOfUnit, IsTailShare, IsTooRare, total_error};

use crate::rows::{beyond_row, ends_row};
use dl_bytes::Text;
use dl_frac::Frac;
use dl_iv::Iv;
use dl_measures::{Distribution, quantile};
use dl_plan::Plan;
use dl_report::{End, Row};
use dl_shares::laws::{law_plan_joint_most, law_plan_unit_mean};
use dl_shares::{ShareSource, conditional_mean};

/// A unit of a plan, and what its shares are drawn from.
#[derive(Clone, Copy)]
pub(crate) struct Part<'a, const B: u32> {
    /// The plan.
    pub(crate) plan: &'a Plan,
    /// The grid of its total.
    pub(crate) total: &'a Distribution<'a, B>,
    /// The number of the unit, counted from 0.
    pub(crate) i: u32,
    /// What its joint means come from.
    pub(crate) source: ShareSource<'a, B>,
    /// Its mean, in buckets.
    pub(crate) mean: Iv<B>,
}

/// The mean outcome of the unit where the total is `at`, and 0 elsewhere, in buckets.
pub(crate) fn joint_of<const B: u32>(part: &Part<B>, at: u32) -> Iv<B>
    requires part { IsPart part.now }
    requires inside { at < reach part.now.source }
    ensures joint { IsJointOf part.now.plan.now part.now.i at result }
    ensures divisible { result.hi * 2 ^ B ≤ most_high }
{
    law_plan_joint_most(part.plan);
    part.source.joint(at)
}

/// The row of an ask for the mean outcome of the unit, given that the total is `at`; without
/// numbers where that total may be too rare.
#[tactic(auto, using(crate::proofs::Scales::part_scale))]
pub(crate) fn share_row<const B: u32>(ask: Text, digits: u32, part: &Part<B>, at: u32) -> Row
    requires digits { digits ≤ most_digits }
    requires part { IsPart part.now }
    requires inside { at < reach part.now.source }
    ensures ask { result.ask ≡ ask }
    ensures share { IsShareOfUnit part.now.plan.now part.now.i at digits
        (in_digits (2 ^ B) (kappa_budget (2 ^ B) part.now.plan.now part.now.i) digits) result
        ⊎ IsTooRare part.now.plan.now at (total_error (2 ^ B) part.now.plan.now) result }
{
    law_plan_joint_most(part.plan);
    let joint = joint_of(part, at);
    match conditional_mean(joint, part.total.at(at)) {
        Some(share) => ends_row(ask, digits, share),
        None => absent_row(ask),
    }
}

/// The row of an ask for a share that may be missing inside the grid.
fn absent_row(ask: Text) -> Row
    ensures ask { result.ask ≡ ask }
    ensures low { result.low ≡ Absent }
    ensures high { result.high ≡ Absent }
{
    Row {
        ask,
        low: End::Absent,
        high: End::Absent,
    }
}

/// The row of an ask for the share of the unit in the tail mean at `p`; without numbers where there
/// is none.
#[tactic(auto, using(crate::proofs::Scales::part_scale))]
pub(crate) fn tail_share_row<const B: u32>(ask: Text, digits: u32, part: &Part<B>, p: Frac) -> Row
    requires digits { digits ≤ most_digits }
    requires part { IsPart part.now }
    requires independent { part.now.plan.now.common ≡ None }
    requires reached { part.now.plan.now.cells ≤ reach part.now.source }
    requires level { IsLevel p }
    requires few { p.den ≤ most_share_den }
    ensures ask { result.ask ≡ ask }
    ensures share { IsTailShare part.now.plan.now part.now.i p digits
        (in_digits (2 ^ B) (cotail_budget (2 ^ B) part.now.plan.now part.now.i p) digits) result
        ⊎ IsBeyond part.now.plan.now p (total_error (2 ^ B) part.now.plan.now) result
        ⊎ IsNoTailShare part.now.plan.now p (total_error (2 ^ B) part.now.plan.now) result }
{
    law_plan_unit_mean(part.plan);
    if let Some(share) = part.source.tail_share(part.total, part.mean, p) {
        return ends_row(ask, digits, share);
    }
    match quantile(part.total, p).hi {
        Some(_) => absent_row(ask),
        None => beyond_row(ask),
    }
}

/// The row of an ask for the share of the unit in the tail mean at `p`, at every quantile; without
/// numbers where the grid ends before the quantile.
#[tactic(auto, using(crate::proofs::Scales::part_scale))]
pub(crate) fn whole_share_row<const B: u32>(ask: Text, digits: u32, part: &Part<B>, p: Frac) -> Row
    requires digits { digits ≤ most_digits }
    requires part { IsPart part.now }
    requires reached { part.now.plan.now.cells ≤ reach part.now.source }
    requires level { IsLevel p }
    ensures ask { result.ask ≡ ask }
    ensures share { IsTailShare part.now.plan.now part.now.i p digits
        (in_digits (2 ^ B) (share_budget (2 ^ B) part.now.plan.now part.now.i p) digits) result
        ⊎ IsBeyond part.now.plan.now p (total_error (2 ^ B) part.now.plan.now) result }
    ensures past { IsPastGrid result ↔ IsPast part.now.total.now p }
{
    law_plan_unit_mean(part.plan);
    match part.source.share(part.total, part.mean, p) {
        Some(share) => ends_row(ask, digits, share),
        None => beyond_row(ask),
    }
}
