//! The steps of a severity, from the lists of a program to the amounts and whole weights of a plan:
//! the values of a list, whole buckets, whole weights, the mixture, the conditioning on exceeding
//! an attachment, the layer and the occurrence clause. Each is exact, or refused.
//!
//! `count_to`, `expand`, `amounts`, `weigh`, `copied`, `merge`, `mix`, `above`, `cut`, `cede_each`,
//! `fits` and `mean` are exact, and each refusal comes exactly where its definition says.
#![tactic(auto)]

mod atoms;
mod buckets;
mod expand_list;
mod fault;
mod gather;
mod kept_whole;
mod lattice;
mod layers;
mod list;
mod means;
mod range;
mod weighing;
mod weights;

pub use atoms::{copied, merge, mix};
pub use buckets::amounts;
pub use expand_list::{count_to, expand};
pub use fault::{AboveFault, AmountFault, CedeFault, ExpandFault, MixFault, WeighFault};
pub use kept_whole::cede_whole;
pub use lattice::fits;
pub use layers::{above, cede_each, cut, cut_amount};
pub use means::mean;
pub use range::Range;
pub use weighing::weigh;
pub use weights::Weights;
