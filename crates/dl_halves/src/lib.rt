//! Products by halves (Karatsuba), in a ring whose products can be counted. Nothing of the program
//! stands on this crate: `dl_product` multiplies grids in less time.
//!
//! `halved` multiplies two lists of `32 * 2^k` items in any ring (`Ring`): each item of the product
//! modulo `2^128`, in at most `1024 * 3^k` products. `convolve` gives each cell of a convolution by
//! one floor and one ceiling (`IsConvolution`), and spreads no more than `convolution_spread` says.
//! That it calls `halved` is seen in the code alone.
#![tactic(auto)]

mod grids;
mod halves;
mod ring;
mod short;

pub use grids::convolve;
pub use halves::halved;
pub use ring::{Counted, Ring, Words};
pub use short::{halved_sums, work_for};
