//! A report: its rows, and the number of its digits.

use dl_bytes::Text;
use dl_plan::Items;

/// An end of a row.
#[derive(Clone, Copy, Debug, PartialEq, Eq)]
pub enum End {
    /// A number, in units of the last printed digit.
    Number(u128),
    /// An amount, in buckets.
    Whole(u32),
    /// Past the grid.
    Beyond,
    /// No value.
    Absent,
}

/// A row: an ask and its two ends.
#[derive(Drop)]
pub struct Row {
    /// The ask's word, as it was written.
    pub ask: Text,
    /// The low end.
    pub low: End,
    /// The high end.
    pub high: End,
}

/// The rows of a run, in the order of the asks.
#[derive(Drop)]
pub struct Report {
    /// How many digits follow the point, from 0 to 9.
    pub digits: u32,
    /// A row for each ask.
    pub rows: Items<Row>,
}
