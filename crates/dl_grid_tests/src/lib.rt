//! Tests of the numbers and grids, on values that were worked outside the program: intervals at
//! three scales, and the ways to a product of grids, which no row of a report tells apart.
#![tactic(auto)]

#[cfg(test)]
mod tests;
