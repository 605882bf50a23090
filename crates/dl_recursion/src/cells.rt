//! The cells of the recursion so far.

/// Cell 0 begins as 2 to this power: the greatest end of a cell is twice as much.
pub(crate) const START_BITS: u64 = 61;

/// Both ends of one cell, or a sum over cells for each.
#[derive(Clone, Copy)]
pub struct Ends {
    /// The low end.
    pub low: u128,
    /// The high end.
    pub high: u128,
}

/// Two sums over the cells that lie an amount of a run before one cell, for one end.
#[derive(Clone, Copy)]
pub struct Window {
    /// The sum of the ends.
    pub cells: u128,
    /// The sum of the ends, each times how far its amount lies above the run's first.
    pub steps: u128,
}

/// The windows of one run.
#[derive(Clone, Copy)]
pub struct Windows {
    /// Of the low ends.
    pub low: Window,
    /// Of the high ends.
    pub high: Window,
}

/// Both ends of the cells so far, in units of `2^shift / 2^61` of cell 0 (`START_BITS`).
#[derive(Drop)]
pub struct ScaledCells {
    /// The low ends.
    pub low: Vec<u64>,
    /// The high ends, as many.
    pub high: Vec<u64>,
    /// How many cells from the first on have the ends 0 and 0, or 0 and 1: a shift leaves them
    /// alone.
    pub first: usize,
    /// How many bits all cells were shifted down by.
    pub shift: u64,
    /// The windows of each run at the last cell; none where they are not known, at the beginning
    /// and after a shift.
    pub windows: Vec<Windows>,
}
