//! Tests of powers, of the probability of no claim of gamma counts, of the two ways to a Poisson or
//! gamma count, and of sums of units.

mod claims;
mod start;
mod totals;
mod unit;
