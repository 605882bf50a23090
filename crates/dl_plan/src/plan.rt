//! Units and plans.

use crate::cede::Cede;
use crate::item::Item;
use crate::severity::Sev;
use dl_bytes::{Items, Text};
use dl_frac::Frac;

/// The claim count of a unit.
#[derive(Drop)]
pub enum Freq {
    /// Exactly this number of claims.
    Fixed(u32),
    /// Listed numbers of claims, rising, each with a whole weight.
    Table {
        /// The numbers of claims.
        counts: Items<Item>,
        /// The sum of their weights.
        total: u64,
    },
    /// One claim with this probability, else none.
    Bernoulli(Frac),
    /// Binomial: `trials` trials, each a claim with probability `q`.
    Binomial {
        /// The number of trials.
        trials: u32,
        /// The probability of each.
        q: Frac,
    },
    /// Poisson with this mean.
    Poisson(Frac),
    /// Poisson mixed by a gamma factor: negative binomial.
    Gamma {
        /// The shape of the factor, 1 over the square of its coefficient of variation.
        shape: Frac,
        /// The expected number of claims.
        mean: Frac,
    },
}

/// One unit: the sum of a random number of independent claims, mapped once by its aggregate clause.
#[derive(Drop)]
pub struct Unit {
    /// The unit's name.
    pub name: Text,
    /// The severity of one claim, after its layer and its occurrence clause.
    pub sev: Sev,
    /// The claim count.
    pub freq: Freq,
    /// The aggregate clause, where there is one.
    pub cede: Option<Cede>,
    /// The probability of no claim in place of that of the claim count, which is the count before
    /// this change; `None`: it is not changed.
    pub zero: Option<Frac>,
}

/// The plan of a program: what it declares, in buckets.
#[derive(Drop)]
pub struct Plan {
    /// The bucket size, in money.
    pub bs: Frac,
    /// How many cells the grid has.
    pub cells: u32,
    /// The units in the order of the text.
    pub units: Items<Unit>,
    /// The shape of the gamma factor of mean 1 that all claim counts share; `None`: the units are
    /// independent.
    pub common: Option<Frac>,
}
