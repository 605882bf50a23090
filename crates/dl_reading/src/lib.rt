//! A unit of a text in whole buckets: its severity step by step, its layer and its clauses, and the
//! rules on them.
//!
//! `grid_mixture` and `grid_unit` read the syntax of a unit and give the unit in whole buckets
//! (`grid_of`), with the first place of each of the seven rules that reading asks (`flaws_of`): the
//! first broken rule and its place are those of the text, and where none is broken the unit is
//! right (`IsRead`). The values of a severity are counted before they are made, so that no more are
//! made than it may have. Each later rule gives the first place of the unit in buckets where it is
//! broken. The few multiples that one of them looks at decide of all (`law_clauses`).
#![tactic(auto)]

mod clauses;
mod compare;
mod copies;
mod count;
mod flaws;
mod grid;
mod law;
mod layers;
mod list_lengths;
mod losses;
mod made;
mod numbers;
mod off_grid;
mod reading;
mod severity;
mod shares;
mod spans;
mod support;
mod value_lists;

pub use clauses::{overlap, share_above_one};
pub use compare::is_above;
pub use flaws::{Flaws, Gridded};
pub use grid::{
    GridAtom, GridCeded, GridClause, GridCount, GridExposure, GridFreq, GridLayer, GridSev,
    GridShare, GridUnit, Shares, ValueList,
};
pub use law::{law_clauses, law_fine};
pub use made::{Clauses, MadeClause, make_clauses};
pub use off_grid::off_grid_cession;
pub use reading::{grid_mixture, grid_unit};
pub use severity::{final_severity, weighed_severity};
pub use shares::{are_fine, weights_among, weights_differ};
pub use spans::span_if;
pub use support::{none_above, positive_amounts, support_in_layer};
