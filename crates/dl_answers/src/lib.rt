//! Which asks are refused, and the rows of those that are not: one for each ask, with two ends that
//! hold the declared value, as narrow as the width rule says. Nothing here makes a grid: rows are
//! drawn from what `dl_shares::Drawn` has.
//!
//! `admit` refuses the first ask that is beyond the grid, else the first that names no unit, else
//! the first for a share of the tail mean where the units share a factor, else the first that needs
//! too much width, with that width (`admitted`); of asks that it admits it gives the units that
//! they name and the budgets of these (`told`).
//!
//! `report` gives a good report on every valid plan, at the scale that its number of cells has
//! (`IsPlanAt`), from grids and means that are those of the plan (`AreDrawnOf`) and reach all
//! totals that the asks look at (`AreReached`), of which `cells_asked` tells the number.
//! `mean_report` gives it from the mean of the total alone, where all asks are for the mean
//! (`are_means`). A valid plan has independent units or units that share a factor, and a good
//! report is the same for both: what it holds is what the plan declares (`declared`). A share of
//! the tail mean at every quantile is printed wherever the tail mean is, under a common factor too.
#![tactic(auto)]

mod admission;
mod asked;
mod fault;
mod reports;
mod rows;
mod shares;

pub use admission::{Admitted, admit};
pub use asked::{are_means, cells_asked};
pub use fault::EvalFault;
pub use reports::{mean_report, report};
