//! The product of two grids. The last cells of a grid may be all alike, with the low end 0: the
//! products with these are running sums. Of the cells before them, the head of the grid, those that
//! are not 0 are read once, as lists, and these are multiplied one product after another or by
//! transforms, whichever takes less. Each function here has the contract of the convolution, and
//! every way gives the same cells.
#![tactic(auto)]

mod behind;
mod ends;
mod heads;
mod lists;
mod operand;
mod products;
mod steps;
mod sums;
mod windows;

pub use products::{Workspace, product, square};
