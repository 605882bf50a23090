//! What a unit's sum of claims becomes, by its aggregate clause and by a changed probability of no
//! claim (Klugman, Panjer and Willmot, Loss Models, "Truncation and modification at zero"): in each
//! case the grid of the unit after, and its mean. The clauses speak of a unit of a valid plan,
//! whatever its count.
//!
//! An aggregate clause maps each sum to a number of buckets and never falls, so that a few cells of
//! the sum give each cell of what is kept. The cell that takes in all large sums is what the others
//! leave of the whole. The mean follows from the means of the clause's layers, and from that of the
//! sum, which needs no grid: so no part of it is cut off where the grid ends. `cede_grid` encloses
//! the outcome of a unit after its clause (`encloses`), and spreads at most twice as much as the
//! grid before it (`spread`); `cede_mean` holds its mean, as narrow as the width rule says
//! (`holds`, `width`).
//!
//! Where the probability of no claim is changed to `p`, `none` is an interval that holds the unit's
//! probability of no claim before the change: that of its count, whatever its severity. It is at
//! most 17 / 18, so that the probability of a claim, by which what is left is divided, is at least
//! 1 / 18. Neither call refuses, and only a grid takes memory. `zero_grid` encloses the outcomes of
//! the changed unit (`encloses`, `spread`), and `zero_mean` holds its mean (`holds`, `width`,
//! `small`). What both ask of `none` follows where at least 1/16 of a claim is expected
//! (`law_none_low`, `law_none_small`), and the unit stays a loss that can be declared
//! (`law_new_zero` of `dl_model`).
#![tactic(auto)]

mod change;
mod changed_grid;
mod changed_mean;
mod clause_grid;
mod clause_mean;
mod factor;
mod laws;

pub use changed_grid::{changed_cells, zero_grid};
pub use changed_mean::zero_mean;
pub use clause_grid::{cede_grid, kept_cells};
pub use clause_mean::{cede_mean, claims_mean, kept_mean};
pub use laws::{law_low_mean, law_none_low, law_none_small};
