//! Ranges of values.

use dl_frac::Frac;

/// The values `from`, `from + step`, and so on, as long as they do not pass `to`.
#[derive(Clone, Copy)]
pub struct Range {
    /// The first value.
    pub from: Frac,
    /// The bound that no value passes.
    pub to: Frac,
    /// From each value to the next.
    pub step: Frac,
}
