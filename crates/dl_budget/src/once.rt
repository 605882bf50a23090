//! The budgets that most asks share, computed once for a plan.

ghost use Rattle.std.specs.Prelude.{◌≡◌, ◌^◌};
ghost use Rattle.dl_limits.specs.Limits.{IsPlanScale};
ghost use Rattle.dl_plan.specs.Valid.{IsValid};
ghost use Rattle.dl_budget.specs.Once.{AreBudgetsOf};

use crate::units::{mean_budget, total_budget};
use dl_plan::Plan;

/// The budgets of the total and of its mean, in units of `1 / 2^B`.
#[derive(Clone, Copy)]
pub struct Budgets {
    /// How far apart the ends of the cells of the total's grid may lie in all.
    pub total: u128,
    /// How far apart the ends of the mean of the total may lie.
    pub mean: u128,
}

/// The budgets of one unit of a plan, in units of `1 / 2^B`.
#[derive(Clone, Copy)]
pub struct UnitBudgets {
    /// The number of the unit, counted from 0.
    pub unit: u32,
    /// How far apart the ends of its share in a total may lie.
    pub joint: u128,
    /// How far apart the ends of its mean may lie.
    pub mean: u128,
}

/// The budgets of the total of a valid plan and of its mean.
pub fn budgets_of<const B: u32>(plan: &Plan) -> Budgets
    requires scale { IsPlanScale B }
    requires valid { IsValid plan.now }
    ensures { AreBudgetsOf (2 ^ B) plan.now result }
{
    Budgets {
        total: total_budget::<B>(plan),
        mean: mean_budget::<B>(plan),
    }
}
