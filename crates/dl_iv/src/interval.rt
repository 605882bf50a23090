//! Intervals.

ghost use Rattle.std.specs.Prelude.{◌≤◌, ◌^◌};
ghost use Rattle.dl_limits.specs.Limits.{most_high};

/// The numbers from `lo / 2^B` to `hi / 2^B`, both ends among them.
#[derive(Clone, Copy, Debug)]
pub struct Iv<const B: u32> {
    /// The low end, in units of `1 / 2^B`, at most the high end.
    pub lo: u128,
    /// The high end, in units of `1 / 2^B`, at most `most_high`.
    pub hi: u128,
    ghost ordered: { lo ≤ hi },
    ghost in_range: { hi ≤ most_high },
    ghost scale_above: { 1 ≤ B },
    ghost scale_below: { B ≤ 56 },
}
