//! Convolution of two grids: the grid of the sum of two independent amounts. Each cell is rounded
//! once, its low end down and its high end up, and what lies past the grid is left out.
//!
//! `convolve_plain` gives each cell by one floor and one ceiling (`IsConvolution`), and spreads no
//! more than `convolution_spread` says. `plain_sums` has the exact sums of products of two lists of
//! any lengths.
#![tactic(auto)]

mod grids;
mod plain;

pub use grids::{convolve_plain, grid_of_sums, room_for_sums};
pub use plain::{plain_sums, product_of_ends, sum_up_to};
