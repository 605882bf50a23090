//! The grid of a unit: the sum of its claims before its aggregate clause, for each kind of count.
//! Each cell holds the declared probability of its sum, and the ends of all cells together lie no
//! further apart than the unit's budget.
//!
//! `unit_grid_with` encloses the sum of a unit's claims for every kind of count, and spreads no
//! more than the unit's budget (`encloses`, `spread`); `none_of` holds the probability of no claim
//! of a count, whatever the severity of its claims (`holds`, `width`). The weights of trials add up
//! to 1 (`law_trials`).
#![tactic(auto)]

mod claim;
mod direct;
mod finite;
mod law;
mod none;
mod trial;
mod unbounded;
mod unit;

pub use law::law_trials;
pub use none::none_of;
pub use unbounded::{gamma_claims, poisson_claims};
pub use unit::unit_grid_with;
