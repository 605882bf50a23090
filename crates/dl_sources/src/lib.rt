//! From a valid plan to the grids and means that its rows are drawn from (`dl_shares::Drawn`).
//!
//! `drawn_for` gives the grid of the total and the means of all units and of the total, within
//! their budgets, and for each unit that an ask names what its joint means come from, within
//! theirs: the claims of the unit over a grid, or the grid of the unit beside that of the sum of
//! all others (`AreDrawnOf`), at all totals below the `reach` that is asked for (`Reaches`).
//! `mean_for` gives the mean of the total alone (`IsMeanOf`). Neither refuses a valid plan, at the
//! scale that its number of cells has, and only memory can fail.
//!
//! The total of independent units comes from one Poisson unit in the place of all that can be
//! pooled and from the rest, where no named unit needs the sum of the others, else from all units;
//! where a joint mean would be wider than its budget, the next way is taken: at last that by the
//! sum of the others, which is always within it. The total of units under a common factor comes
//! from one unit in their place.
//!
//! With more units than the standard rules admit, and where no named unit needs the sum of the
//! others, the units are added up by halves: each grid is given up once it is in a sum, and units
//! in a row that are alike are made once, so that few grids are held at once. Where that comes out
//! wider than its budget, the ways above follow. In each way the grid and the mean of a unit of the
//! plan are made once.
#![tactic(auto)]

mod budgeted;
mod drawn;
mod extra;
mod factor;
mod halves;
mod origins;
mod outcomes;
mod same;
mod together;
mod totals;
mod units;

pub use drawn::{drawn_for, mean_for};
