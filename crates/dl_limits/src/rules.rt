//! The two sets of rules that a program may be typed by, and the bounds in which they differ.

ghost use Rattle.std.specs.Prelude.{◌≡◌};
ghost use Rattle.dl_limits.specs.Rules.{bounds_of};

use crate::{
    MOST_UNITS, MOST_VALUES, MOST_WEIGHTS, STANDARD_UNITS, STANDARD_VALUES, STANDARD_WEIGHTS,
};

/// The rules that a program is typed by.
#[derive(Clone, Copy, Debug, PartialEq, Eq)]
pub enum Rules {
    /// Those of the language.
    Standard,
    /// Those for books that the standard rules do not hold: they accept each program that the
    /// standard rules accept, with the same plan.
    Extended,
}

/// The bounds in which the two sets of rules differ.
#[derive(Clone, Copy, Debug, PartialEq, Eq)]
pub struct Bounds {
    /// The most units of a program.
    pub units: usize,
    /// The most values of a list.
    pub values: usize,
    /// The greatest common denominator of the probabilities of a list, and of the products of those
    /// of a mixture with its weights.
    pub parts: u64,
    /// Whether the shape of a gamma factor has to be whole.
    pub whole_shapes: bool,
}

/// The bounds of these rules.
pub fn bounds_of(rules: Rules) -> Bounds
    ensures { result ≡ bounds_of rules }
{
    match rules {
        Rules::Standard => Bounds {
            units: STANDARD_UNITS,
            values: STANDARD_VALUES,
            parts: STANDARD_WEIGHTS,
            whole_shapes: true,
        },
        Rules::Extended => Bounds {
            units: MOST_UNITS,
            values: MOST_VALUES,
            parts: MOST_WEIGHTS,
            whole_shapes: false,
        },
    }
}
