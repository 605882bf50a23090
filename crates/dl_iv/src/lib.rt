//! Intervals at every scale: an interval holds the numbers between two whole numbers of units, of
//! which `2^B` make 1. Each operation rounds its low end down to whole units and its high end up,
//! so that its result holds each value that the operands' values give. None takes memory or
//! refuses: what it needs of its operands, it asks by a condition.
//!
//! Each operation has exactly the stated floor and ceiling at every scale from 2^1 to 2^56 (`low`,
//! `high`), and holds each value that its operands' values give (`holds`).
#![tactic(auto)]

mod exact;
mod interval;
mod laws;
mod rounded;

pub use exact::units_of_one;
pub use interval::Iv;
pub use laws::{law_lesser, law_wider};
