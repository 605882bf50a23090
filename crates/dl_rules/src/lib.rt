//! The typing rules: what a program means, its plan, or the first rule that it breaks.
//!
//! `check` gives the plan of a program, which is valid, or the first broken rule with its unit and
//! place (`IsCheckOf`). Each of the 29 rules is a definition of its own. A program that breaks none
//! has a valid plan (`law_accepted`), and a program and settings have at most one plan
//! (`law_plan_unique`): the definition of a plan leaves nothing open. Where the standard rules accept
//! a program, the extended rules accept it, with the same plan (`law_rules`); and they never break
//! the last rule (`law_total`).
#![tactic(auto)]

mod broken;
mod changes;
mod claims;
mod clause_rules;
mod count_rules;
mod counts;
mod exposures;
mod factor;
mod fault;
mod fine;
mod frequencies;
mod grid_rules;
mod known;
mod law;
mod names;
mod program;
mod ratio;
mod rule;
mod scale;
mod severities;
mod totals;
mod unit;

pub use fault::{CheckFault, TypeFault};
pub use law::{law_accepted, law_plan_unique, law_rules, law_total};
pub use program::check;
pub use rule::Rule;
