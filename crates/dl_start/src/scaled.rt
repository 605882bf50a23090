//! The probability of no claim as two numbers with one exponent.

ghost use Rattle.std.specs.Prelude.{◌≤◌};
ghost use Rattle.dl_limits.specs.Limits.{most_start};

/// The numbers from `low / 2^exponent` to `high / 2^exponent`, both ends among them.
#[derive(Clone, Copy)]
pub struct Scaled {
    /// The low end, in units of `1 / 2^exponent`.
    pub low: u64,
    /// The high end, in units of `1 / 2^exponent`.
    pub high: u64,
    /// How often the unit halves 1.
    pub exponent: u32,
    ghost order: { low ≤ high },
    ghost top: { high ≤ most_start },
    ghost least: { 63 ≤ exponent },
}
