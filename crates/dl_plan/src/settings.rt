//! The settings of a run, and what it asks.

use dl_bytes::{Items, Text};
use dl_frac::Frac;
use dl_limits::Rules;

/// What is done with the text.
#[derive(Clone, Copy, Debug, PartialEq, Eq)]
pub enum Form {
    /// A report on its asks.
    Run,
    /// It is printed in its canonical form.
    Fmt,
    /// A certificate of its total is written.
    Cert,
    /// A certificate of its total, which follows the program, is checked.
    Verify,
}

/// How a report is written.
#[derive(Clone, Copy, Debug, PartialEq, Eq)]
pub enum Format {
    /// A line for each row.
    Plain,
    /// Comma-separated values.
    Csv,
    /// A JSON object.
    Json,
}

/// A term of a price: a tail mean, and what part of the price it is.
#[derive(Clone, Copy, Debug, PartialEq, Eq)]
pub struct Term {
    /// The weight; those of all terms of a price add up to 1.
    pub weight: Frac,
    /// The probability of the tail mean, below 1.
    pub p: Frac,
}

/// What is asked of the total.
#[derive(Drop)]
pub enum Ask {
    /// The probability of this amount, in buckets.
    Pmf(u32),
    /// The probability of at most this amount, in buckets.
    Cdf(u32),
    /// The mean.
    Mean,
    /// The quantile at this probability.
    Quantile(Frac),
    /// The mean of what lies in a layer.
    LayerMean {
        /// The most that the layer takes, in buckets; none where there is no limit.
        limit: Option<u32>,
        /// Where the layer attaches, in buckets.
        attach: u32,
    },
    /// The tail mean at this probability.
    Tail(Frac),
    /// A price: a weighted sum of tail means, 1 to 8 of them.
    Price(Items<Term>),
    /// The mean of a unit's outcome where the total is an amount, and 0 elsewhere.
    Joint {
        /// The unit's name.
        unit: Text,
        /// The total, in buckets.
        at: u32,
    },
    /// The same over the probability of that total.
    Kappa {
        /// The unit's name.
        unit: Text,
        /// The total, in buckets.
        at: u32,
    },
    /// The share of a unit in the tail mean at a probability.
    Cotail {
        /// The unit's name.
        unit: Text,
        /// The probability of the tail mean, below 1, with parts of at most 10,000.
        p: Frac,
    },
    /// The same at each quantile inside the grid, however rare its total, and under a common factor
    /// too.
    Share {
        /// The unit's name.
        unit: Text,
        /// The probability of the tail mean, below 1.
        p: Frac,
    },
}

/// An ask, and the word that it was written with.
#[derive(Drop)]
pub struct Asked {
    /// The word.
    pub text: Text,
    /// What it asks.
    pub ask: Ask,
}

/// What the words of the command line say.
#[derive(Drop)]
pub struct Settings {
    /// What is done with the text.
    pub form: Form,
    /// The seed of a made program that is read in place of the input.
    pub make: Option<u32>,
    /// The bucket size, in money, above 0.
    pub bs: Frac,
    /// The grid has 2 to this power cells, from 1 to 16.
    pub log2: u32,
    /// The number of digits behind the point, from 1 to 9.
    pub digits: u32,
    /// The most that the ends of a probability may lie apart, in units of the last digit.
    pub width: u64,
    /// The same of a mean.
    pub mwidth: u64,
    /// How the report is written.
    pub format: Format,
    /// The rules that the program is typed by.
    pub rules: Rules,
    /// What is asked, in order.
    pub asks: Items<Asked>,
}
