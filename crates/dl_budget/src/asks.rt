//! The budget of an ask, what it needs, and whether it passes.

ghost use Rattle.std.specs.Prelude.{ℕ, ◌≡◌, ◌+◌, ◌*◌, ◌^◌, ◌<◌, ◌≤◌, ◌↔◌, List, None, Some, All, IfSome, IsTrue, length, map};
ghost use Rattle.dl_limits.specs.Limits.{IsPlanScale, most_digits, most_units, most_level_den, most_ask_budget, most_term_budget, most_joint_budget, most_alone_joint_budget, most_kappa_budget, most_share_den, most_tail_budget};
ghost use Rattle.dl_exact.specs.Fraction.{whole, ◌*ℚ◌};
ghost use Rattle.dl_grid.specs.Width.{up};
ghost use Rattle.dl_plan.specs.Prelude.{ArePriced, most_weight_parts, IsLevel, IsValid};
ghost use Rattle.dl_plan.specs.declared.settings.Ask.TheVariants.{LayerMean};
ghost use Rattle.dl_budget.specs.Asks.{IsInside, IsAskOf, index_of, named_unit, ask_budget, layer_mean_budget, tail_budget, price_budget, joint_by, joint_budget, kappa_budget, cotail_budget, undivided_by, share_budget, in_digits, needed, Passes};
ghost use Rattle.dl_budget.specs.Once.{AreBudgetsOf, AreBudgetsOfUnit, AreUnitBudgets, HasBudgets};
ghost use Rattle.dl_budget.specs.Plans.{HasUnitOn, IsPlanOn};

use crate::once::{Budgets, UnitBudgets, budgets_of};
use crate::shared::{raised_budget, shared_joint_budget};
use crate::steps::convolution_spread;
use crate::units::{others_budget, unit_budget, unit_mean_budget};
use dl_frac::Frac;
use dl_grid::units_of_one;
use dl_limits::RAREST_PARTS;
use dl_plan::{Ask, Plan, Settings, Term, Unit};

/// The budget of an ask: how far apart its two ends may lie before they are printed. It
/// follows from the plan and the ask alone. The ask lies inside the grid, names a unit of the
/// plan, if it names one, and its probability is below 1 and has parts of at most 10^9.
pub fn ask_budget<const B: u32>(plan: &Plan, ask: &Ask) -> u128
    requires plan { IsPlanOn B plan.now }
    requires ask { IsAskOf plan.now ask.now }
    ensures value { result ≡ ask_budget (2 ^ B) plan.now ask.now }
    ensures small { result ≤ most_ask_budget }
{
    let unit = named_unit(plan.units.as_slice(), ask);
    let of_unit = budgets_of_named::<B>(plan, unit);
    ask_budget_with::<B>(plan, budgets_of::<B>(plan), of_unit, ask)
}

/// The same budget, from those of the total and of its mean, and those of the unit that the ask
/// names, if it names one.
#[tactic(auto, unfolding(crate::specs::Asks::ask_budget))]
fn ask_budget_with<const B: u32>(
    plan: &Plan,
    budgets: Budgets,
    of_unit: Option<UnitBudgets>,
    ask: &Ask,
) -> u128
    requires scale { IsPlanScale B }
    requires plan { HasBudgets (2 ^ B) plan.now budgets }
    requires unit { AreBudgetsOfUnit (2 ^ B) plan.now (named_unit plan.now.units ask.now) of_unit }
    requires ask { IsAskOf plan.now ask.now }
    ensures value { result ≡ ask_budget (2 ^ B) plan.now ask.now }
    ensures small { result ≤ most_ask_budget }
{
    match ask {
        Ask::Pmf(_) | Ask::Cdf(_) | Ask::Quantile(_) => budgets.total,
        Ask::Mean => budgets.mean,
        Ask::LayerMean { limit, attach } => {
            layer_mean_budget::<B>(plan, budgets, *limit, *attach)
        }
        Ask::Tail(p) => tail_budget::<B>(plan, budgets, *p),
        Ask::Price(terms) => price_budget::<B>(plan, budgets, terms.as_slice()),
        Ask::Joint { .. } => of_unit.unwrap().joint,
        Ask::Kappa { .. } => kappa_budget::<B>(plan, budgets, of_unit.unwrap()),
        Ask::Cotail { p, .. } => cotail_budget::<B>(plan, budgets, of_unit.unwrap(), *p),
        Ask::Share { p, .. } => share_budget::<B>(plan, budgets, of_unit.unwrap(), *p),
    }
}

/// The budget of the mean of a layer.
fn layer_mean_budget<const B: u32>(
    plan: &Plan,
    budgets: Budgets,
    limit: Option<u32>,
    attach: u32,
) -> u128
    requires plan { HasBudgets (2 ^ B) plan.now budgets }
    requires inside { IsInside plan.now.cells (LayerMean limit attach) }
    ensures value { result ≡ layer_mean_budget (2 ^ B) plan.now limit attach }
    ensures small { result ≤ most_ask_budget }
{
    match limit {
        Some(limit) => limit as u128 * budgets.total,
        None => budgets.mean + attach as u128 * budgets.total,
    }
}

/// The budget of a tail mean at the probability `p`.
fn tail_budget<const B: u32>(plan: &Plan, budgets: Budgets, p: Frac) -> u128
    requires plan { HasBudgets (2 ^ B) plan.now budgets }
    requires level { IsLevel p }
    ensures value { result ≡ tail_budget (2 ^ B) plan.now p }
    ensures small { result ≤ most_tail_budget }
{
    let sums = 3 * plan.cells as u128 * budgets.total;
    let widths = 2 * budgets.mean + sums;
    let rest = p.den() - p.num();
    (widths * p.den() as u128).div_ceil(rest as u128) + 4
}

/// The width of a part of a tail mean, rounded once at each end: `weight` times `tail`, the
/// width of the tail mean.
fn part_budget(weight: Frac, tail: u128) -> u128
    requires weight { weight.num ≤ most_weight_parts }
    requires small { tail ≤ most_tail_budget }
    ensures value { result ≡ up (weight *ℚ whole tail) + 2 }
    ensures small { result ≤ most_term_budget }
{
    (weight.num() as u128 * tail).div_ceil(weight.den() as u128) + 2
}

/// The budget of a price by these terms.
fn price_budget<const B: u32>(plan: &Plan, budgets: Budgets, terms: &[Term]) -> u128
    requires plan { HasBudgets (2 ^ B) plan.now budgets }
    requires levels { All IsLevel (map (λ term. term.p) terms.now) }
    requires priced { ArePriced terms.now }
    ensures value { result ≡ price_budget (2 ^ B) plan.now terms.now }
    ensures small { result ≤ most_ask_budget }
{
    let mut sum = 0;
    'terms: for term in terms {
        sum += part_budget(term.weight, tail_budget::<B>(plan, budgets, term.p));
    }
    sum
}

/// The budget of the share of unit `i` in a total.
pub fn joint_budget<const B: u32>(plan: &Plan, i: u32) -> u128
    requires unit { HasUnitOn B plan.now i }
    ensures value { result ≡ joint_budget (2 ^ B) plan.now i }
    ensures small { result ≤ most_joint_budget }
{
    match plan.common {
        Some(shape) => {
            let units = plan.units.as_slice();
            let raised = raised_budget::<B>(units, shape, plan.cells);
            shared_joint_budget(&units[i as usize], raised, plan.cells)
        }
        None => joint_alone::<B>(plan, i),
    }
}

/// The budget of the share of unit `i` in a total of independent units.
fn joint_alone<const B: u32>(plan: &Plan, i: u32) -> u128
    requires unit { HasUnitOn B plan.now i }
    ensures value { result ≡ joint_by None (2 ^ B) plan.now i }
    ensures small { result ≤ most_alone_joint_budget }
{
    let unit = unit_budget::<B>(&plan.units.as_slice()[i as usize], plan.cells);
    plan.cells as u128 * convolution_spread::<B>(plan.cells, unit, others_budget::<B>(plan, i))
}

/// The budgets of unit `i`.
fn budgets_of_unit<const B: u32>(plan: &Plan, i: u32) -> UnitBudgets
    requires unit { HasUnitOn B plan.now i }
    ensures are { AreUnitBudgets (2 ^ B) plan.now result }
    ensures unit { result.unit ≡ i }
{
    UnitBudgets {
        unit: i,
        joint: joint_budget::<B>(plan, i),
        mean: unit_mean_budget::<B>(&plan.units.as_slice()[i as usize], plan.cells),
    }
}

/// The budgets of the unit with this number, counted from 0, of a valid plan; none where there is no
/// number.
pub fn budgets_of_named<const B: u32>(plan: &Plan, unit: Option<u32>) -> Option<UnitBudgets>
    requires scale { IsPlanScale B }
    requires valid { IsValid plan.now }
    requires unit { IfSome unit (λ i. i < length plan.now.units) }
    ensures { AreBudgetsOfUnit (2 ^ B) plan.now unit result }
{
    Some(budgets_of_unit::<B>(plan, unit?))
}

/// The budget of the share of a unit over the probability of the total.
fn kappa_budget<const B: u32>(plan: &Plan, budgets: Budgets, of_unit: UnitBudgets) -> u128
    requires plan { HasBudgets (2 ^ B) plan.now budgets }
    requires unit { AreUnitBudgets (2 ^ B) plan.now of_unit }
    ensures value { result ≡ kappa_budget (2 ^ B) plan.now of_unit.unit }
    ensures small { result ≤ most_kappa_budget }
{
    let total = plan.cells as u128 * budgets.total;
    RAREST_PARTS * (total + of_unit.joint) + 2
}

/// The budget of the share of a unit in the tail mean at the probability `p`.
fn cotail_budget<const B: u32>(plan: &Plan, budgets: Budgets, of_unit: UnitBudgets, p: Frac) -> u128
    requires plan { HasBudgets (2 ^ B) plan.now budgets }
    requires unit { AreUnitBudgets (2 ^ B) plan.now of_unit }
    requires level { IsLevel p }
    requires few { p.den ≤ most_share_den }
    ensures value { result ≡ cotail_budget (2 ^ B) plan.now of_unit.unit p }
    ensures small { result ≤ most_ask_budget }
{
    let cells = plan.cells as u128;
    let sums = of_unit.joint + 2 * cells + cells * (budgets.total + 2);
    let parts = of_unit.mean + sums + kappa_budget::<B>(plan, budgets, of_unit) + 4;
    let rest = p.den() - p.num();
    (parts * p.den() as u128).div_ceil(rest as u128) + 4
}

/// The budget of the share of a unit in the tail mean at every quantile, before it is divided by
/// `1 - p`.
fn undivided<const B: u32>(plan: &Plan, budgets: Budgets, of_unit: UnitBudgets) -> u128
    requires plan { HasBudgets (2 ^ B) plan.now budgets }
    requires unit { AreUnitBudgets (2 ^ B) plan.now of_unit }
    ensures value { result ≡ undivided_by plan.now.common (2 ^ B) plan.now of_unit.unit }
    ensures small { result * most_level_den + 4 ≤ most_ask_budget }
{
    let cells = plan.cells as u128;
    let sums = 4 * of_unit.joint + 6 * (cells * budgets.total);
    match plan.common {
        Some(_) => 1 + sums + 4 * cells + 4,
        None => of_unit.mean + sums + 8 * cells + 4,
    }
}

/// The budget of the share of a unit in the tail mean at the probability `p`, at every quantile.
fn share_budget<const B: u32>(plan: &Plan, budgets: Budgets, of_unit: UnitBudgets, p: Frac) -> u128
    requires plan { HasBudgets (2 ^ B) plan.now budgets }
    requires unit { AreUnitBudgets (2 ^ B) plan.now of_unit }
    requires level { IsLevel p }
    ensures value { result ≡ share_budget (2 ^ B) plan.now of_unit.unit p }
    ensures small { result ≤ most_ask_budget }
{
    let parts = undivided::<B>(plan, budgets, of_unit) * p.den() as u128;
    parts.div_ceil((p.den() - p.num()) as u128) + 4
}

/// How many units come before the one of this name.
fn index_of(units: &[Unit], name: &[u8]) -> u32
    requires { length units.now ≤ most_units }
    ensures { result ≡ index_of name.now units.now }
{
    let index = units.iter().position(|unit| unit.name.as_slice() == name);
    index.unwrap_or(units.len()) as u32
}

/// The number of the unit that an ask names, counted from 0; the number of units where none has the
/// name, and nothing where the ask names none.
pub fn named_unit(units: &[Unit], ask: &Ask) -> Option<u32>
    requires { length units.now ≤ most_units }
    ensures { result ≡ named_unit units.now ask.now }
{
    match ask.unit() {
        Some(name) => Some(index_of(units, name.as_slice())),
        None => None,
    }
}

/// A budget in units of the last of `digits` printed digits, rounded up, and one more.
fn in_digits<const B: u32>(budget: u128, digits: u32) -> u128
    requires scale { IsPlanScale B }
    requires small { budget ≤ most_ask_budget }
    requires digits { digits ≤ most_digits }
    ensures { result ≡ in_digits (2 ^ B) budget digits }
{
    1 + (budget * 10u128.pow(digits)).div_ceil(units_of_one(B))
}

/// The width that an ask needs, in units of the last of `digits` digits: its printed ends lie no
/// farther apart. Of the ask as of `ask_budget`; at most 9 digits.
pub fn needed<const B: u32>(plan: &Plan, ask: &Ask, digits: u32) -> u128
    requires plan { IsPlanOn B plan.now }
    requires ask { IsAskOf plan.now ask.now }
    requires digits { digits ≤ most_digits }
    ensures { result ≡ needed (2 ^ B) plan.now ask.now digits }
{
    in_digits::<B>(ask_budget::<B>(plan, ask), digits)
}

/// The same number, from the budgets of the total and of its mean, and those of the unit that the
/// ask names, if it names one.
pub fn needed_with<const B: u32>(
    plan: &Plan,
    budgets: Budgets,
    of_unit: Option<UnitBudgets>,
    ask: &Ask,
    digits: u32,
) -> u128
    requires scale { IsPlanScale B }
    requires valid { IsValid plan.now }
    requires budgets { AreBudgetsOf (2 ^ B) plan.now budgets }
    requires unit { AreBudgetsOfUnit (2 ^ B) plan.now (named_unit plan.now.units ask.now) of_unit }
    requires ask { IsAskOf plan.now ask.now }
    requires digits { digits ≤ most_digits }
    ensures { result ≡ needed (2 ^ B) plan.now ask.now digits }
{
    in_digits::<B>(ask_budget_with::<B>(plan, budgets, of_unit, ask), digits)
}

/// Whether the settings let the ask pass: it needs at most the width that they name for a
/// probability or a quantile, or that for a mean.
pub fn passes<const B: u32>(plan: &Plan, ask: &Ask, settings: &Settings) -> bool
    requires plan { IsPlanOn B plan.now }
    requires ask { IsAskOf plan.now ask.now }
    requires digits { settings.now.digits ≤ most_digits }
    ensures { IsTrue result ↔ Passes (2 ^ B) plan.now ask.now settings.now }
{
    needed::<B>(plan, ask, settings.digits) <= ask.most_width(settings) as u128
}
