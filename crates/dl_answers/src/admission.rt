//! Which asks are refused.

ghost use Rattle.std.specs.Prelude.{◌≡◌, ◌<◌, ◌≤◌, ◌^◌, ◌↔◌, IsTrue, All, IfOk, IfSome, MatchOption, MatchResult, length};
ghost use Rattle.dl_limits.specs.Limits.{most_asks, most_units};
ghost use Rattle.dl_plan.specs.At.{IsPlanAt};
ghost use Rattle.dl_plan.specs.Prelude.{AreInRange};
ghost use Rattle.dl_budget.specs.Asks.{IsInside, NamesUnit, named_units};
ghost use Rattle.dl_answers.specs.Admission.{IsAdmissionOf};
ghost use Rattle.dl_answers.specs.Answers.{AreAdmitted, AreInside, AllPass, HasShare, IsFirstNot, IsFirstWide, NameUnits, RefusesAsk};

use crate::fault::EvalFault;
use dl_budget::{AllBudgets, all_budgets, named_unit, needed_with};
use dl_plan::{Ask, Asked, Plan, Settings, Unit};
use std::alloc::{AllocError, Global};

/// What the asks name, and the budgets that they need.
#[derive(Drop)]
pub struct Admitted {
    /// For each ask, the number of the unit that it names, counted from 0.
    pub named: Vec<Option<u32>>,
    /// The budgets of the total and of these units.
    pub budgets: AllBudgets,
}

/// Whether an ask lies inside a grid of `cells` cells.
fn is_inside(cells: u32, ask: &Ask) -> bool
    ensures { IsTrue result ↔ IsInside cells ask.now }
{
    ask.least_cells() <= cells as u64
}

/// For each ask, the number of the unit that it names, counted from 0; the number of units where
/// none has the name, and nothing where the ask names none.
fn named_units(
    alloc: Global,
    units: &[Unit],
    asks: &[Asked],
) -> Result<Vec<Option<u32>>, AllocError>
    requires few { length units.now ≤ most_units }
    ensures { IfOk result (λ named. named.items ≡ named_units units.now asks.now) }
{
    let mut named = Vec::new(alloc);
    for asked in asks {
        named.push(named_unit(units, &asked.ask))?;
    }
    Ok(named)
}

/// Whether a number, where there is one, is that of a unit.
fn is_unit(units: &[Unit], unit: Option<u32>) -> bool
    requires few { length units.now ≤ most_units }
    ensures { IsTrue result ↔ IfSome unit (λ i. i < length units.now) }
{
    match unit {
        Some(i) => (i as usize) < units.len(),
        None => true,
    }
}

/// The first ask that lies past the grid.
fn first_beyond(cells: u32, asks: &[Asked]) -> Option<u32>
    requires few { length asks.now ≤ most_asks }
    ensures { MatchOption result (All (λ asked. IsInside cells asked.ask) asks.now)
        (IsFirstNot (λ asked. IsInside cells asked.ask) asks.now) }
{
    for i in 0..asks.len() {
        if !is_inside(cells, &asks[i].ask) {
            return Some(i as u32);
        }
    }
    None
}

/// The first ask that names no unit of the plan.
fn first_unknown(units: &[Unit], asks: &[Asked], named: &[Option<u32>]) -> Option<u32>
    requires units { length units.now ≤ most_units }
    requires few { length asks.now ≤ most_asks }
    requires named { named.now ≡ named_units units.now asks.now }
    ensures { MatchOption result (All (λ asked. NamesUnit units.now asked.ask) asks.now)
        (IsFirstNot (λ asked. NamesUnit units.now asked.ask) asks.now) }
{
    for i in 0..asks.len() {
        if !is_unit(units, named[i]) {
            return Some(i as u32);
        }
    }
    None
}

/// Whether the ask is for no share of the tail mean, or the units share no factor.
fn has_share(plan: &Plan, ask: &Ask) -> bool
    ensures { IsTrue result ↔ HasShare plan.now ask.now }
{
    match ask {
        Ask::Cotail { .. } => plan.common.is_none(),
        _ => true,
    }
}

/// The first ask for a share of the tail mean, where the units share a factor.
fn first_share(plan: &Plan, asks: &[Asked]) -> Option<u32>
    requires few { length asks.now ≤ most_asks }
    ensures { MatchOption result (All (λ asked. HasShare plan.now asked.ask) asks.now)
        (IsFirstNot (λ asked. HasShare plan.now asked.ask) asks.now) }
{
    for i in 0..asks.len() {
        if !has_share(plan, &asks[i].ask) {
            return Some(i as u32);
        }
    }
    None
}

/// The first ask that needs more width than the settings give, and the width it needs.
#[tactic(auto, using(crate::proofs::Scales::at_scale))]
fn first_wide<const B: u32>(
    plan: &Plan,
    settings: &Settings,
    admitted: &Admitted,
) -> Option<(u32, u128)>
    requires plan { IsPlanAt B plan.now }
    requires ranges { AreInRange settings.now }
    requires inside { AreInside plan.now settings.now }
    requires named { NameUnits plan.now settings.now }
    requires told { IsAdmissionOf (2 ^ B) plan.now settings.now.asks admitted.now }
    ensures { MatchOption result (AllPass plan.now settings.now)
        (λ wide. IsFirstWide plan.now settings.now wide.0 wide.1) }
{
    let asks = settings.asks.as_slice();
    let named = admitted.named.as_slice();
    let budgets = &admitted.budgets;
    for i in 0..asks.len() {
        let ask = &asks[i].ask;
        let of_unit = budgets.of(named[i]);
        let width = needed_with::<B>(plan, budgets.of_total, of_unit, ask, settings.digits);
        if width > ask.most_width(settings) as u128 {
            return Some((i as u32, width));
        }
    }
    None
}

/// For each ask the number of the unit that it names, and the budgets; or refuses the first ask
/// past the grid, else the first that names no unit, else the first for a share of the tail mean
/// where the units share a factor, else the first that needs more width than the settings give.
#[tactic(auto, using(crate::proofs::Scales::at_scale))]
pub fn admit<const B: u32>(
    alloc: Global,
    plan: &Plan,
    settings: &Settings,
) -> Result<Admitted, EvalFault>
    requires plan { IsPlanAt B plan.now }
    requires ranges { AreInRange settings.now }
    ensures admitted { MatchResult result (λ _. AreAdmitted plan.now settings.now)
        (RefusesAsk plan.now settings.now) }
    ensures told { IfOk result (IsAdmissionOf (2 ^ B) plan.now settings.now.asks) }
{
    let asks = settings.asks.as_slice();
    if let Some(i) = first_beyond(plan.cells, asks) {
        return Err(EvalFault::AskBeyond(i));
    }
    let units = plan.units.as_slice();
    let named = named_units(alloc, units, asks)?;
    if let Some(i) = first_unknown(units, asks, named.as_slice()) {
        return Err(EvalFault::UnknownUnit(i));
    }
    if let Some(i) = first_share(plan, asks) {
        return Err(EvalFault::NoShare(i));
    }
    let budgets = all_budgets::<B>(alloc, plan, named.as_slice())?;
    let admitted = Admitted { named, budgets };
    if let Some((i, width)) = first_wide::<B>(plan, settings, &admitted) {
        return Err(EvalFault::TooWide(i, width));
    }
    Ok(admitted)
}
