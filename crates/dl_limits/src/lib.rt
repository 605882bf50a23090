//! The bounds of a plan, of its settings and of the numbers that follow from them: each is defined
//! once, in `specs/Limits.antt`, and here are those that code compares with.
//!
//! `most_amount`, `most_total` and `most_horizon` give the bounds that depend on a plan's number of
//! cells, and `bounds_of` those that depend on the rules that a program is typed by. Nothing else
//! runs, and nothing is proved of a bound alone.
#![tactic(auto)]

mod rules;

ghost use Rattle.std.specs.Prelude.{◌≡◌};
ghost use Rattle.dl_limits.specs.Limits.{bits_of, most_amount_at, most_cells_at, most_horizon, most_total_at};

pub use rules::{Bounds, Rules, bounds_of};

/// A plan's grid has 2 to the power of at most this many cells.
pub const MOST_LOG2: u32 = 16;

/// The ends of a plan's grid of at most 4,096 cells are in units of 1 over 2 to this power.
pub const SHORT_BITS: u32 = 56;

/// Those of a longer one are in units of 1 over 2 to this power.
pub const LONG_BITS: u32 = 48;

/// The most cells of a plan's grid whose ends are in units of 1 over 2 to the power `SHORT_BITS`.
pub const MOST_SHORT_CELLS: u32 = 4_096;

/// The most cells of any grid.
pub const MOST_CELLS: u32 = 65_536;

/// The most cells of a grid at a finer scale than that of long grids.
pub const MOST_FINE_CELLS: u32 = 16_384;

/// The greatest amount, limit or attachment of any plan, in buckets.
pub const MOST_AMOUNT: u32 = 1 << 22;

/// The same in a plan whose grid has at most `MOST_SHORT_CELLS` cells.
pub const MOST_SHORT_AMOUNT: u32 = 1 << 20;

/// The greatest fixed or listed number of claims, and the most trials.
pub const MOST_CLAIMS: u32 = 65_536;

/// The greatest expected number of claims above 0, where the count has no greatest number.
pub const MOST_EXPECTED: u32 = 4_096;

/// The greatest shape of a gamma count.
pub const MOST_SHAPE: u32 = 10_000;

/// The greatest number of expected claims above 0 of a gamma count over its shape.
pub const MOST_BETA: u32 = 32_768;

/// The most units of a plan.
pub const MOST_UNITS: usize = 256;

/// The most units of a plan by the standard rules.
pub const STANDARD_UNITS: usize = 16;

/// The most units of a plan whose probability of no claim is changed.
pub const MOST_CHANGED: usize = 16;

/// A change of the probability of no claim makes a mean at most so many times as large.
pub const MOST_GROWTH: u128 = 17;

/// The greatest mean of all units of a plan, in buckets.
pub const MOST_TOTAL: u128 = 17 << 38;

/// The same in a plan whose grid has at most `MOST_SHORT_CELLS` cells.
pub const MOST_SHORT_TOTAL: u128 = 17 << 36;

/// The most layers of a clause.
pub const MOST_LAYERS: usize = 16;

/// The most atoms of a severity.
pub const MOST_ATOMS: usize = 64;

/// The most values of a list.
pub const MOST_VALUES: usize = 65_536;

/// The most values of a list by the standard rules.
pub const STANDARD_VALUES: usize = 1_024;

/// The greatest common denominator of probabilities, by the standard rules.
pub const STANDARD_WEIGHTS: u64 = 1 << 30;

/// The greatest common denominator of the ends and the step of a range of values.
pub const MOST_RANGE_PARTS: u64 = 1_000_000;

/// The greatest listed count.
pub const MOST_COUNT: u32 = 256;

/// The most bytes of an input.
pub const MOST_TEXT: usize = 1_048_576;

/// The most cells of a plan that has a certificate.
pub const MOST_CERT_CELLS: u32 = 1024;

/// The most bytes of a certificate.
pub const MOST_CERT_TEXT: usize = 66_000_000;

/// The most bytes of steps that are checked, and of a program and steps that are read.
pub const MOST_STEPS_TEXT: usize = 67_108_864;

/// The most asks of a call.
pub const MOST_ASKS: usize = 256;

/// `kappa` is reported only where P(total) is at least `1 / RAREST_PARTS`.
pub const RAREST_PARTS: u128 = 1 << 16;

/// The greatest width that is asked of a probability, in units of the last printed digit.
pub const MOST_WIDTH: u64 = 1_000_000_000;

/// The greatest width that is asked of a mean, in units of the last printed digit.
pub const MOST_MEAN_WIDTH: u64 = 1_000_000_000_000;

/// The most decimals of a printed end.
pub const MOST_DIGITS: u32 = 9;

/// The parts of an admitted fraction are below this.
pub const ADMITTED_BOUND: u64 = 1 << 48;

/// The parts of a fraction that the program holds are below this.
pub const FRAC_BOUND: u128 = 1 << 62;

/// The greatest common denominator of the shares of a clause, and of what Poisson units that are
/// pooled have of all claims and of their amounts.
pub const MOST_PARTS: u64 = 1 << 30;

/// The greatest common denominator of the probabilities of a severity or of listed counts.
pub const MOST_WEIGHTS: u64 = 1 << 40;

/// The budget of a sum of units is below this, in units of the scale.
pub const BUDGET_BOUND: u128 = 1 << 45;

/// The greatest budget of the mean of a total, in units of the scale.
pub const MOST_MEAN_BUDGET: u128 = 1 << 67;

/// The greatest amount, limit or attachment, in buckets, in a plan whose grid has `cells` cells.
#[tactic(auto, unfolding(crate::specs::Limits::most_amount_at))]
pub fn most_amount(cells: u32) -> u32
    ensures most { result ≡ most_amount_at cells }
{
    if cells <= MOST_SHORT_CELLS {
        MOST_SHORT_AMOUNT
    } else {
        MOST_AMOUNT
    }
}

/// The greatest mean of all units, in buckets, in a plan whose grid has `cells` cells.
#[tactic(auto, unfolding(crate::specs::Limits::most_total_at))]
pub fn most_total(cells: u32) -> u128
    ensures most { result ≡ most_total_at cells }
{
    if cells <= MOST_SHORT_CELLS {
        MOST_SHORT_TOTAL
    } else {
        MOST_TOTAL
    }
}

/// The greatest horizon of a clause, in cells, in a plan whose grid has `cells` cells: as many as a
/// grid at the plan's scale may have.
#[tactic(auto, unfolding(crate::specs::Limits::bits_of, crate::specs::Limits::most_cells_at))]
pub fn most_horizon(cells: u32) -> u32
    ensures most { result ≡ most_horizon cells }
{
    if cells <= MOST_SHORT_CELLS {
        MOST_FINE_CELLS
    } else {
        MOST_CELLS
    }
}

/// So many units make 1 in the sums of the series of an exponential.
pub const SERIES_ONE: u128 = 1 << 63;

/// The end of cell 0 of the one recursion of a unit's mean, before any shift.
pub const FIRST_END: u64 = 1 << 61;

/// The greatest end of a cell of the one recursion of a unit's mean.
pub const MOST_END: u128 = 1 << 62;

/// The greatest high end of the probability of no claim in that recursion, in its own units.
pub const MOST_START: u128 = 1 << 63;
