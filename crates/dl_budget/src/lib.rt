//! The width rule: how far apart the ends of each row may lie, from the plan, the ask and
//! the settings alone, before any grid is computed. Budgets are in units of `1 / 2^B`. Nothing here
//! takes memory.
//!
//! The numbers are exact at every scale from 2^48 to 2^56 (`IsPlanScale`): `unit_budget`,
//! `total_budget` and `others_budget`, which are below 2^45 units of the scale for a valid plan and
//! below 2^44 for one of at most 16 units, `ask_budget`, `needed` and `passes`, and `needed_with`
//! from budgets that are made once: of the total and of its mean (`AreBudgetsOf`), and of the unit
//! that an ask names (`AreBudgetsOfUnit`), which `budgets_of_named` gives; `all_budgets` makes all
//! of them that the asks of a call need. Each unit of a valid plan has the one horizon that
//! `horizon` gives (`law_horizons`).
#![tactic(auto)]

mod asks;
mod claims;
mod laws;
mod named;
mod once;
mod shared;
mod steps;
mod units;

pub use asks::{
    ask_budget, budgets_of_named, joint_budget, named_unit, needed, needed_with, passes,
};
pub use claims::{claims_budget, none_budget};
pub use laws::{law_halvings, law_horizons};
pub use named::{AllBudgets, all_budgets};
pub use once::{Budgets, UnitBudgets, budgets_of};
pub use shared::shared_joint_budget;
pub use steps::{convolution_spread, doubled, halvings, listed, power_spread};
pub use units::{others_budget, total_budget, unit_budget};
