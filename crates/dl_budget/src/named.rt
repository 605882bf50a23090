//! The budgets of a plan, computed once in a call.

ghost use Rattle.std.specs.Prelude.{ℕ, ◌≡◌, ◌<◌, ◌^◌, ◌↔◌, None, Some, Any, IfOk, IfSome, IsSome, IsTrue, length, get_or};
ghost use Rattle.dl_limits.specs.Limits.{IsPlanScale};
ghost use Rattle.dl_plan.specs.declared.plan.Plan.{Plan as PlanValue};
ghost use Rattle.dl_plan.specs.Valid.{IsValid};
ghost use Rattle.dl_budget.specs.Once.{AreBudgetsOfUnit, AreAllBudgets, HaveBudgets, IsBudgetOf};
ghost use Rattle.dl_budget.specs.Plans.{HasUnitOn};

use crate::asks::budgets_of_named;
use crate::once::{Budgets, UnitBudgets, budgets_of};
use dl_plan::Plan;
use std::alloc::{AllocError, Global};

/// The budgets of a plan that its asks need, in units of `1 / 2^B`.
#[derive(Drop)]
pub struct AllBudgets {
    /// Those of the total and of its mean.
    pub of_total: Budgets,
    /// For each unit that an ask names, its own.
    pub of_units: Vec<Option<UnitBudgets>>,
}

impl AllBudgets {
    /// Those of unit `i`, counted from 0; none where no ask names it.
    pub fn at(&self, i: usize) -> Option<UnitBudgets>
        requires inside { i < length self.now.of_units.items }
        ensures { result ≡ get_or self.now.of_units.items i None }
    {
        self.of_units.as_slice()[i]
    }

    /// Those of the unit with this number; none where there is no number.
    pub fn of(&self, unit: Option<u32>) -> Option<UnitBudgets>
        requires there { IfSome unit (λ i. IsSome (get_or self.now.of_units.items i None)) }
        ensures { (S : ℕ) (plan : PlanValue) → AreAllBudgets S plan self.now
            → AreBudgetsOfUnit S plan unit result }
    {
        self.at(unit? as usize)
    }

    /// Whether an ask names a unit.
    pub fn are_named(&self) -> bool
        ensures { IsTrue result ↔ Any (λ of. IsSome of) self.now.of_units.items }
    {
        self.of_units.as_slice().iter().any(|of| of.is_some())
    }
}

/// Whether unit `i`, counted from 0, is one of those that asks name.
fn is_named(named: &[Option<u32>], i: u32) -> bool
    ensures { IsTrue result ↔ Any (λ unit. unit ≡ Some i) named.now }
{
    named.iter().any(|unit| *unit == Some(i))
}

/// The budgets of unit `i` of a valid plan; none where no ask names it.
fn budgets_where<const B: u32>(plan: &Plan, named: &[Option<u32>], i: u32) -> Option<UnitBudgets>
    requires unit { HasUnitOn B plan.now i }
    ensures are { IfSome result (IsBudgetOf (2 ^ B) plan.now i) }
    ensures there { Any (λ unit. unit ≡ Some i) named.now → IsSome result }
{
    budgets_of_named::<B>(plan, is_named(named, i).then_some(i))
}

/// The budgets of the total of a valid plan, of its mean and of the units that asks name.
pub fn all_budgets<const B: u32>(
    alloc: Global,
    plan: &Plan,
    named: &[Option<u32>],
) -> Result<AllBudgets, AllocError>
    requires scale { IsPlanScale B }
    requires valid { IsValid plan.now }
    ensures are { IfOk result (AreAllBudgets (2 ^ B) plan.now) }
    ensures there { IfOk result (HaveBudgets plan.now named.now) }
{
    let mut of_units = Vec::new(alloc);
    for i in 0..plan.units.as_slice().len() {
        of_units.push(budgets_where::<B>(plan, named, i as u32))?;
    }
    let of_total = budgets_of::<B>(plan);
    Ok(AllBudgets { of_total, of_units })
}
