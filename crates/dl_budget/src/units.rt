//! The budgets of units, of their sums and of their means.

ghost use Rattle.std.specs.Prelude.{ℕ, ◌≡◌, ◌+◌, ◌*◌, ◌^◌, ◌<◌, ◌≤◌, List, All, length, sum_by, fold, remove};
ghost use Rattle.dl_limits.specs.Limits.{IsPlanScale, budget_bound, standard_budget_bound, standard_units, most_cells, most_claims_budget, most_clause_budget, most_horizon, most_layers, most_plan_cells, most_sum_operands, most_unit_budget, most_mean_budget, most_layer_mean_budget, most_layers_mean_budget, most_clause_mean_budget, most_whole_mean, most_unit_mean_budget};
ghost use Rattle.dl_exact.specs.Fraction.{Fraction};
ghost use Rattle.dl_grid.specs.Width.{convolution_spread, sum_spread, up};
ghost use Rattle.dl_plan.specs.Prelude.{IsHorizonOf, edge, horizon, declared_mean, IsNewZero, AreFew, IsValidUnit, IsValid, mean_width, part_width};
ghost use Rattle.dl_budget.specs.Claims.{claims_budget};
ghost use Rattle.dl_budget.specs.Plans.{IsPlanOn};
ghost use Rattle.dl_budget.specs.Sizes.{IsOfUnits, most_budget_of, most_mean_budget_of, operands};
ghost use Rattle.dl_budget.specs.Units.{after_clause, unit_budget, unit_budgets, unit_mean_budget, total_budget, others_budget, mean_budget};

use crate::claims::{claims_budget, gamma_budget, none_budget};
use crate::shared::above_zero;
use crate::steps::convolution_spread;
use dl_plan::{CedeLayer, Plan, Unit};

/// The number of cells on which the claims of a unit of a valid plan are added up, for a grid of
/// `cells` cells.
fn horizon(unit: &Unit, cells: u32) -> u32
    requires valid { (h : ℕ) × IsValidUnit h unit.now }
    requires horizon { (k : ℕ) × IsHorizonOf unit.now.cede cells k × (k ≤ most_horizon cells) }
    ensures horizon { IsHorizonOf unit.now.cede cells result }
    ensures few { result ≤ most_cells }
{
    unit.horizon(cells).unwrap()
}

/// The budget of a unit of a valid plan after its aggregate clause, on a grid of `cells` cells,
/// before its probability of no claim is changed.
fn clause_budget<const B: u32>(unit: &Unit, cells: u32) -> u128
    requires scale { IsPlanScale B }
    requires valid { (h : ℕ) × IsValidUnit h unit.now }
    requires horizon { (k : ℕ) × IsHorizonOf unit.now.cede cells k × (k ≤ most_horizon cells) }
    ensures value { result ≡ after_clause unit.now.cede
        (claims_budget (2 ^ B) (horizon unit.now.cede cells) unit.now) }
    ensures small { result ≤ most_clause_budget }
{
    let before = claims_budget::<B>(&unit.freq, &unit.sev, horizon(unit, cells));
    match unit.cede {
        Some(_) => 2 * before,
        None => before,
    }
}

/// The budget of a unit of a valid plan, on a grid of `cells` cells: how far apart the ends of its
/// grid's cells may lie in all.
pub fn unit_budget<const B: u32>(unit: &Unit, cells: u32) -> u128
    requires scale { IsPlanScale B }
    requires valid { (h : ℕ) × IsValidUnit h unit.now }
    requires some { 1 ≤ cells }
    requires few { cells ≤ most_plan_cells }
    requires horizon { (k : ℕ) × IsHorizonOf unit.now.cede cells k × (k ≤ most_horizon cells) }
    ensures value { result ≡ unit_budget (2 ^ B) cells unit.now }
    ensures kind { result ≤ most_budget_of unit.now.zero }
    ensures small { result ≤ most_unit_budget }
{
    let before = clause_budget::<B>(unit, cells);
    match unit.zero {
        Some(_) => 18 * (before + 2 * none_budget::<B>(&unit.freq)) + 4 * cells as u128 + 2,
        None => before,
    }
}

/// The budget of a sum of units, from that of some units in `sum`, after further ones are taken
/// in one by one, in order.
fn with_units<const B: u32>(sum: u128, units: &[Unit], cells: u32) -> u128
    requires scale { IsPlanScale B }
    requires valid { All (IsValidUnit cells) units.now }
    requires some { 1 ≤ cells }
    requires few { cells ≤ most_plan_cells }
    requires room { (c : ℕ) × (c + operands cells units.now ≤ most_sum_operands)
        × IsOfUnits (2 ^ B) cells c sum }
    ensures value { result ≡ fold (convolution_spread (2 ^ B) cells) sum (unit_budgets (2 ^ B) cells units.now) }
    ensures size { (c : ℕ) → c + operands cells units.now ≤ most_sum_operands
        → IsOfUnits (2 ^ B) cells c sum
        → IsOfUnits (2 ^ B) cells (c + operands cells units.now) result }
{
    let mut total = sum;
    for unit in units {
        total = convolution_spread::<B>(cells, total, unit_budget::<B>(unit, cells));
    }
    total
}

/// The budget of the sum of these units, 0 of none.
fn sum_of<const B: u32>(units: &[Unit], cells: u32) -> u128
    requires scale { IsPlanScale B }
    requires valid { All (IsValidUnit cells) units.now }
    requires some { 1 ≤ cells }
    requires few { cells ≤ most_plan_cells }
    requires room { operands cells units.now ≤ most_sum_operands }
    ensures value { result ≡ sum_spread (2 ^ B) cells (unit_budgets (2 ^ B) cells units.now) }
    ensures size { 1 ≤ length units.now
        → IsOfUnits (2 ^ B) cells (operands cells units.now) result }
    ensures small { result < budget_bound }
    ensures standard { length units.now ≤ standard_units → result < standard_budget_bound }
{
    if units.is_empty() {
        return 0;
    }
    let first = unit_budget::<B>(&units[0], cells);
    with_units::<B>(first, &units[1..], cells)
}

/// The budget of the sum of these units but unit `i`, counted from 0; it is 0 where there is no
/// other.
fn sum_without<const B: u32>(units: &[Unit], i: u32, cells: u32) -> u128
    requires scale { IsPlanScale B }
    requires valid { All (IsValidUnit cells) units.now }
    requires some { 1 ≤ cells }
    requires few { cells ≤ most_plan_cells }
    requires room { operands cells units.now ≤ most_sum_operands }
    requires unit { i < length units.now }
    ensures value { result
        ≡ sum_spread (2 ^ B) cells (remove (unit_budgets (2 ^ B) cells units.now) i) }
    ensures small { result < budget_bound }
    ensures standard { length units.now ≤ standard_units → result < standard_budget_bound }
{
    let before = &units[..i as usize];
    let after = &units[i as usize + 1..];
    if before.is_empty() {
        return sum_of::<B>(after, cells);
    }
    with_units::<B>(sum_of::<B>(before, cells), after, cells)
}

/// The budget of the total of a valid plan: how far apart the ends of its grid's cells may lie in
/// all. Of independent units it starts with that of the first and takes in each further one as a
/// convolution does; of units that share a factor it is that of one gamma unit.
pub fn total_budget<const B: u32>(plan: &Plan) -> u128
    requires plan { IsPlanOn B plan.now }
    ensures value { result ≡ total_budget (2 ^ B) plan.now }
    ensures small { result < budget_bound }
    ensures standard { length plan.now.units ≤ standard_units → result < standard_budget_bound }
{
    let units = plan.units.as_slice();
    match plan.common {
        Some(shape) => gamma_budget::<B>(above_zero(units), shape, plan.cells),
        None => sum_of::<B>(units, plan.cells),
    }
}

/// The budget of the sum of all units of a valid plan but unit `i`, counted from 0; it is 0 where
/// there is no other.
pub fn others_budget<const B: u32>(plan: &Plan, i: u32) -> u128
    requires scale { IsPlanScale B }
    requires valid { IsValid plan.now }
    requires unit { i < length plan.now.units }
    ensures value { result ≡ others_budget (2 ^ B) plan.now i }
    ensures small { result < budget_bound }
    ensures standard { length plan.now.units ≤ standard_units → result < standard_budget_bound }
{
    sum_without::<B>(plan.units.as_slice(), i, plan.cells)
}

/// The part of a mean's budget that a layer of an aggregate clause adds, for a budget before the
/// clause. The layer ends within a horizon.
fn part_width(layer: &CedeLayer, before: u128) -> u128
    requires inside { edge layer.now ≤ most_cells }
    requires small { before ≤ most_claims_budget }
    ensures value { result ≡ part_width before layer.now.limit layer.now.attach }
    ensures small { result ≤ most_layer_mean_budget }
{
    match layer.limit {
        Some(limit) => limit as u128 * before + 3,
        None => layer.attach as u128 * before + 4,
    }
}

/// The part that all layers of an aggregate clause add.
fn layers_budget(layers: &[CedeLayer], before: u128) -> u128
    requires few { length layers.now ≤ most_layers }
    requires inside { All (λ l. edge l ≤ most_cells) layers.now }
    requires small { before ≤ most_claims_budget }
    ensures value { result ≡ sum_by (λ l. part_width before l.limit l.attach) layers.now }
    ensures small { result ≤ most_layers_mean_budget }
{
    let mut sum = 0;
    for layer in layers {
        sum += part_width(layer, before);
    }
    sum
}

/// The budget of the mean of a unit of a valid plan after its aggregate clause, on a grid of
/// `cells` cells, before its probability of no claim is changed.
fn clause_mean_budget<const B: u32>(unit: &Unit, cells: u32) -> u128
    requires scale { IsPlanScale B }
    requires valid { IsValidUnit cells unit.now }
    requires few { cells ≤ most_plan_cells }
    ensures value { result ≡ mean_width unit.now.cede
        (claims_budget (2 ^ B) (horizon unit.now.cede cells) unit.now) }
    ensures small { result ≤ most_clause_mean_budget }
{
    match &unit.cede {
        Some(clause) => {
            let before = claims_budget::<B>(&unit.freq, &unit.sev, horizon(unit, cells));
            1 + layers_budget(clause.layers(), before)
        }
        None => 1,
    }
}

/// The least whole number of buckets that the mean of the claims of a unit of a valid plan does not
/// pass, where its probability of no claim is changed.
fn whole_mean(unit: &Unit) -> u128
    requires valid { (h : ℕ) × IsValidUnit h unit.now }
    requires changed { (p : Fraction) × IsNewZero unit.now.freq p }
    ensures value { result ≡ up (declared_mean unit.now) }
    ensures small { result ≤ most_whole_mean }
{
    let (num, den) = unit.mean_parts();
    num.div_ceil(den)
}

/// The budget of the mean of a unit of a valid plan, on a grid of `cells` cells.
pub(crate) fn unit_mean_budget<const B: u32>(unit: &Unit, cells: u32) -> u128
    requires scale { IsPlanScale B }
    requires valid { IsValidUnit cells unit.now }
    requires few { cells ≤ most_plan_cells }
    ensures value { result ≡ unit_mean_budget (2 ^ B) cells unit.now }
    ensures kind { result ≤ most_mean_budget_of unit.now.zero }
    ensures small { result ≤ most_unit_mean_budget }
{
    let before = clause_mean_budget::<B>(unit, cells);
    match unit.zero {
        Some(_) => 18 * (before + 2) + 306 * whole_mean(unit) * none_budget::<B>(&unit.freq) + 2,
        None => before,
    }
}

/// The budget of the mean of the sum of these units.
fn sum_of_means<const B: u32>(units: &[Unit], cells: u32) -> u128
    requires scale { IsPlanScale B }
    requires valid { All (IsValidUnit cells) units.now }
    requires few { cells ≤ most_plan_cells }
    requires units { AreFew units.now }
    ensures value { result ≡ sum_by (unit_mean_budget (2 ^ B) cells) units.now }
    ensures small { result ≤ most_mean_budget }
{
    let mut sum = 0;
    for unit in units {
        sum += unit_mean_budget::<B>(unit, cells);
    }
    sum
}

/// The budget of the mean of the total of a valid plan; of units that share a factor it is 1.
pub(crate) fn mean_budget<const B: u32>(plan: &Plan) -> u128
    requires plan { IsPlanOn B plan.now }
    ensures value { result ≡ mean_budget (2 ^ B) plan.now }
    ensures small { result ≤ most_mean_budget }
{
    match plan.common {
        Some(_) => 1,
        None => sum_of_means::<B>(plan.units.as_slice(), plan.cells),
    }
}
