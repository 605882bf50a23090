//! One unit in the place of several. Under a common factor, given one gamma factor of mean 1, which
//! scales the means of all units, their claim counts are independent Poisson counts: of its total
//! such a plan declares what one gamma unit does, `pool`; and what a unit adds to a total comes from
//! the grid of that unit with one more in its shape, `raised`. Without a factor one Poisson unit has
//! the total of several, `pool_poisson`; and what a gamma unit adds to a total comes from the grid of
//! the total with its extra claims, `extra`.
//!
//! The unit of `pool` is a valid plan and declares of the total, at every level, what the units do
//! (`pooled`, `valid`, `same`), and `raised` is valid too. They ask for a valid plan with a factor
//! (`SharesFactor`). `pool_poisson` gives one Poisson unit with the total of several, which is there
//! where their sums keep the bounds of a valid unit (`sum`, `valid`, `there`). `extra` is valid
//! wherever the gamma unit is (`extra`, `valid`, `there`). The joint means of a unit over these
//! grids are those of `dl_shares::ShareSource`.
#![tactic(auto)]

mod copies;
mod extras;
mod pooling;
mod raising;
mod shares;

pub use extras::extra;
pub use pooling::{pool, pool_poisson};
pub use raising::raised;
pub use shares::sharing;
