//! Quantities of a total, from the grid of its distribution: the bracket of a quantile, the mean of
//! a layer, the tail mean, and the price, a weighted sum of tail means. With weights that sum to 1
//! prices are the mixed tail means of the distortion risk measures (Klugman, Panjer and Willmot,
//! Loss Models, "Risk measures"). Each holds the declared value, and how far its ends lie apart
//! follows from the spread of the grid. Each is read from the running sums of the grid, of which
//! marks are made once for all quantities, and takes no memory.
//!
//! The clauses speak of every list of losses that can be declared (`AreDeclared`). Those of the
//! units of every valid plan can, `aggregates_of plan`, whatever their counts and aggregate
//! clauses, by `dl_model::plans::law_declared`.
//!
//! `quantile` gives the least sums at which the high and the low end of the distribution reach `p`,
//! a bracket that holds the declared quantile and is tight (`holds`, `tight`). `layer_mean` holds
//! the declared mean of a layer, and `tail_mean` the tail mean at every quantile that there can be,
//! or none exactly where the bracket has no high end (`none`, `holds`, `width`). `price` holds the
//! weighted sum of the tail means at the declared quantiles, and its low end is at most what any
//! whole numbers in the place of the quantiles give (`least`), within the sum of the widths of its
//! terms. There is no price exactly where some term has no tail mean, whatever its weight. What an
//! enclosing grid gives are laws over any ends (`law_cdf_ends`, `law_layer_ends`, `law_bracket`,
//! `law_tight`).
#![tactic(auto)]

mod distribution;
pub mod laws;
mod layers;
mod marks;
mod prices;
mod quantiles;
mod tails;

pub use distribution::Distribution;
pub use layers::{grid_layer_mean, layer_mean};
pub use prices::price;
pub use quantiles::{Bracket, quantile};
pub use tails::tail_mean;
