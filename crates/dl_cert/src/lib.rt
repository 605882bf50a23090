//! Certificates of the total of a plan: steps, each of which can be checked alone. Here is
//! which plans can have one, what the labels of steps mean, when a step passes its test, and that
//! the grid of steps that pass encloses the total.
//!
//! `not_covered` names what keeps a plan from having a certificate. A label counts how often the
//! part of each unit is in a step; what encloses a label's product encloses the label
//! (`law_labelled`), and the parts of a covered plan, each as often as the target says, have in
//! every cell the declared value of the total (`law_target`, by `law_same_products`). So the grid
//! of steps that pass, whose last label is the target, encloses the total (`law_certified`).
//! `certify` gives the text of such steps for each covered plan, in which each end is exactly the
//! number that it is compared with, in at most 66,000,000 bytes (`certified`, `short`); `verify`
//! gives the grid of the last of some steps, which encloses the total, or the number of the first
//! bad one (`verified`, `encloses`).
#![tactic(auto)]

mod base;
mod bases;
mod checking;
mod covered;
mod fault;
pub mod laws;
mod lines;
mod making;
mod passed_steps;
mod printing;
mod starting;
mod step;
mod steps;
mod test;
mod units;

pub use checking::verify;
pub use covered::not_covered;
pub use fault::{CertFault, VerifyFault};
pub use making::certify;
pub use step::Kind;
