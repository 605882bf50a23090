//! Tests of the crates that make the grid of a unit and the sums of units, with values that were
//! worked outside the program, where no row of a report tells them: this crate holds nothing else.
#![tactic(auto)]

#[cfg(test)]
mod tests;
