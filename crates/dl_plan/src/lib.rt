//! What a program means: a plan of units, each with a severity in buckets, a claim count and an
//! aggregate clause; the settings of a run, and what it asks.
//!
//! A valid plan is `IsValid`, with independent units or under a factor. A severity has whole
//! weights over one total. A reinsurance clause's map of an amount is exact, or refused where it is
//! not whole (`Cede::at`). `Unit::mean_parts` and `Freq::thinned` are exact, and `Unit::horizon` is
//! the number of buckets that an aggregate clause asks for (`law_horizon`: there is one, and
//! `horizon` gives it). What is asked of a unit of a valid plan holds (`law_valid_units`).
#![tactic(auto)]

mod asks;
mod cede;
mod fine;
mod item;
mod law;
mod layers;
mod lowest;
mod plan;
mod settings;
mod severity;
mod shapes;
mod terms;
mod totals;
mod unit;

pub use cede::{Cede, CedeLayer, in_layer};
pub use dl_bytes::Items;
pub use fine::{common_denominator_of, numerator_over, sum_to_one};
pub use item::Item;
pub use law::{law_horizon, law_valid_units};
pub use plan::{Freq, Plan, Unit};
pub use settings::{Ask, Asked, Form, Format, Settings, Term};
pub use severity::Sev;
pub use shapes::raised;
pub use terms::{MOST_TERMS, are_priced};
pub use totals::{greatest_amount, weighted_sum};
