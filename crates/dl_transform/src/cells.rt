//! Cells to multiply.

ghost use Rattle.dl_transform.specs.Ends.{AreWords};

/// Cells to multiply, all in the same units.
#[derive(Clone, Copy)]
pub struct Cells<'a> {
    /// The low ends, each below `2^64`.
    pub lows: &'a [u128],
    /// How far each high end is above its low end, each below `2^64`. There may be fewer widths
    /// than low ends, or none: the high ends of the cells past the last width are their low ends.
    pub widths: &'a [u128],
    pub ghost words: { AreWords lows.now widths.now },
}
