//! Grids: the distribution of a sum as a list of intervals, one for each number of buckets. Cell
//! `x` holds the probability of `x` buckets, in units of `1 / 2^B`. The width rule, which says
//! before anything is computed how far apart the ends may lie, has its definitions and laws here
//! too.
//!
//! The low ends of a grid sum to at most 1; a grid is kept as two lists of ends. `cdf`, `spread`,
//! `set` and the others are exact.
#![tactic(auto)]

mod empty;
mod grid;
mod laws;
mod widths;

pub use dl_iv::units_of_one;
pub use empty::empty_grid;
pub use grid::Grid;
pub use laws::{
    law_convolution_spread_rises, law_power_spread, law_power_spread_rises, law_size, law_up,
};
pub use widths::convolution_spread;
