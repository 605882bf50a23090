//! A plan with the budgets of its rows.

use dl_budget::AllBudgets;
use dl_plan::Plan;
use std::alloc::Global;

/// A plan, and the budgets of its rows.
#[derive(Clone, Copy)]
pub(crate) struct Budgeted<'a> {
    /// Where the grids and means are allocated.
    pub(crate) alloc: Global,
    /// The plan.
    pub(crate) plan: &'a Plan,
    /// The budgets of its total, and of each unit that an ask names.
    pub(crate) budgets: &'a AllBudgets,
}
