//! The probability of no claim of a count, as a number with an exponent (Klugman, Panjer and
//! Willmot, Loss Models, "The (a, b, 0) class"): 1 over the sum of the count's weights, enclosed.
//! Nothing here takes memory.
//!
//! `Scaled` is such a number, between two ends. `poisson_start` and `gamma_start` hold that of a
//! Poisson count and of a gamma count of any shape (`holds`): powers of that of an equal share of
//! the count, and for the part of a shape below its whole part `shape_start`, by square roots,
//! between ends that are at most 1 / 2^56 apart where the mean is at most 65,536 times the shape
//! (`narrow`). `times` and `power_of` hold that of counts added up.
#![tactic(auto)]

mod first;
mod gamma;
mod powers;
mod root;
mod scaled;
mod shape;

pub use first::poisson_start;
pub use gamma::gamma_start;
pub use powers::{power_of, times};
pub use scaled::Scaled;
pub use shape::shape_start;
