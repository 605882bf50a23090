//! Sums of claims: the grid of one claim, of a fixed number of claims, and of a listed number of
//! claims. Each cell holds the declared probability of its sum, and how far its ends lie apart
//! follows from the width rule.
//!
//! `claim_grid`, `power` and `mix_counts` enclose one claim, a number of claims and a listed number
//! of claims for every family as stated (`encloses`), and spread no more than the rule of widths
//! says (`spread`).
#![tactic(auto)]

mod blocks;
mod claims;
mod counts;
mod halves;
mod listed;
mod mixture;
mod powers;
mod shares;
mod short;
mod widths;

pub use claims::claim_grid;
pub use counts::mix_counts;
pub use powers::power;
