//! An amount, or a number of claims, and its weight.

/// An amount, or a number of claims, and its weight.
#[derive(Clone, Copy, Debug, Default, PartialEq, Eq)]
pub struct Item {
    /// The amount in buckets, or the number of claims.
    pub amount: u32,
    /// Its weight: its probability times the total of its list.
    pub weight: u64,
}
