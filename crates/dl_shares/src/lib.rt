//! The share of one unit in a total: its joint mean, which is the mean of its outcome where the
//! total is a given amount, and of 0 elsewhere; its mean given that amount; and its share in the
//! tail mean, which is the mean of its outcome over the greatest totals. Nothing here takes memory.
//!
//! Joint means come from a `ShareSource`: the grids of the unit and of all other units, or the
//! claims of a Poisson or gamma unit over the grid of what there is beside one of them, which is
//! that of the total, of the total with the unit of `dl_pool::extra`, or of `dl_pool::raised`. A
//! source gives the joint means of a unit where its exact ends hold them (`GivesJoints`): by
//! `law_beside`, which stands on `law_joint_ends`, by `law_of_total`, by `law_with_extra` and, under
//! a common factor, by `law_raised`. Then `joint` holds the joint mean at a total, and `joints_to`
//! the sum of those up to it, within one width; no joint mean is above its total times the
//! probability of that (`law_joint_most`, `law_plan_joint_most`), and those of all units add up to
//! it, under a common factor too (`law_joint_total`).
//!
//! `conditional_mean` holds the quotient of a joint mean by the probability of its total, or none
//! exactly where that may be below 1/65,536 (`holds`, `none`, `width`).
//!
//! The clauses on shares speak of every list of losses that can be declared (`AreDeclared`), as
//! those of the units of every valid plan can, by `dl_model::plans::law_declared`. `tail_share`
//! holds the share at the declared quantile, whatever part of the probability there belongs to the
//! tail, within the width that its budget states. There is none exactly where the grid ends before
//! the quantile, its bracket has two ends, or that total may be rarer than 1/65,536 (`holds`,
//! `width`, `none`, `absent`). `share` holds it at every quantile inside the grid, under a common
//! factor too: there is none exactly where the grid ends before the quantile (`holds`, `width`,
//! `none`). The shares of all units of a plan add up to the tail mean at every level, under a
//! common factor too (`law_shares`), and a unit's mean beside others is that of the unit alone
//! (`law_unit_mean`, `law_plan_unit_mean`).
//!
//! `Drawn` has the grids and means that all rows of a plan are drawn from, and for each unit where
//! its joint means come from (`AreDrawnOf`); `source_of` gives the source of a unit, over the running
//! sums of the grids, which `sums_of` marks once (`IsSourceOf`).
#![tactic(auto)]

mod beside;
mod claims;
mod conditional;
mod drawn;
mod joints;
pub mod laws;
mod running;
mod settled;
mod shares;
mod source;
mod sums;
mod tails;
mod weighted;

pub use beside::joint_mean;
pub use conditional::conditional_mean;
pub use drawn::{Drawn, Origin, source_of, sums_of};
pub use source::{Beside, OverClaims, ShareSource};
