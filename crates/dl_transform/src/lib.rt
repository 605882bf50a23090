//! Exact products of lists of whole numbers by transforms: the values of a polynomial at many
//! points at once, and back. All numbers are remainders by a prime of 62 bits; two primes give each
//! sum of products below `2^123` exactly. The constants are computed first and then checked one by
//! one, so that nothing rests on how they were found.
//!
//! The transform is the decimation of Cooley and Tukey in remainders (Pollard, 1971), with products
//! by constants after Shoup and products of values after Montgomery, and a sum from its two
//! remainders after Garner.
//!
//! `product` multiplies two lists of cells, each a low end and a width, and gives the exact sums of
//! products of low ends and those of high ends (`low`, `high`), wherever the setup has room for
//! both lists, no more sums are wanted than the lists have cells together, and the sum of the high
//! ends of the one times the greatest of the other is below 2^123 (`found`). What the second sums
//! are above the first takes one prime where the widths are small, and else both. A list of numbers
//! is one of cells with no widths, and takes the sums of low ends alone.
//!
//! No number theory is in it: that the numbers are primes, or have roots of unity, is claimed
//! nowhere. `set_up` computes its constants without proof, and gives them out only after each one
//! has been checked: the fields of a `Setup` say so (`right`). No clause says that it gives any:
//! where it does not, `dl_product` multiplies the other way, which costs time and changes no
//! clause.
#![tactic(auto)]

mod bounds;
mod cells;
mod checks;
mod combined;
mod constants;
mod factors;
mod modular;
mod multiply;
mod passes;
mod setup;
mod tables;

pub use cells::Cells;
pub use constants::set_up;
pub use multiply::{Buffers, product};
pub use setup::Setup;
