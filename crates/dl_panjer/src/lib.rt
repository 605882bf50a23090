//! Grids of compound Poisson sums, and of compound gamma sums of shape 1 and below, by Panjer's
//! recursion: cell 0 encloses the probability of no claim, and each later cell follows from those
//! before it, rounded outward. The probability of no claim of a Poisson count is an exponential,
//! which is enclosed by the reciprocals of two partial sums of its series.
//!
//! `exp_neg` encloses the exponential of `-x` for `x` up to 1/2, within 3 units of the scale, and
//! is at most 1 (`encloses`, `narrow`, `small`). What it encloses is said by the partial sums of
//! its series, without real numbers. Its two ends are exact (`low`, `high`), and enclose it by a
//! law of their own (`law_ends`).
//!
//! `poisson_base` and `geometric_base` give grids by Panjer's recursion with two outward roundings
//! for each end of a cell (`follows`), from a first cell that encloses the probability of no claim
//! (`start`), which enclose the compound sums of these counts (`encloses`) and spread no more than
//! is stated (`spread`). So does `shape_base` for a gamma count of a shape below 1, with three
//! roundings for each end. To enclose the exponential is to hold 1 over the sums of its series, and
//! these are the sums of the Poisson weights (`law_exponential`).
#![tactic(auto)]

mod exponential;
mod follow;
mod geometric;
mod laws;
mod made;
mod poisson;
mod rate;
mod rates;
mod shape;
mod sums;

pub use exponential::exp_neg;
pub use follow::next_cell;
pub use geometric::{geometric_base, geometric_start};
pub use laws::{law_ends, law_exponential, law_stands};
pub use made::grid_of;
pub use poisson::poisson_base;
pub use rate::{Rate, rate_of};
pub use rates::halved;
pub use shape::shape_base;
pub use sums::count_at_most;
