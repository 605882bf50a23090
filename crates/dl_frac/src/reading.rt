//! The state of reading a numeral, after some of its bytes.

ghost use Rattle.std.specs.Prelude.{◌<◌, ◌≤◌, ◌^◌};

/// The state of reading a numeral, after some of its bytes: at most 11 digits, and numbers that
/// these can write.
#[derive(Clone, Copy)]
pub(crate) struct Reading {
    /// The number of the digits, without the point.
    pub(crate) number: u64,
    /// How many digits there were.
    pub(crate) digits: u32,
    /// How many of them followed the point.
    pub(crate) places: u32,
    /// There was a point.
    pub(crate) pointed: bool,
    /// There was a percent sign.
    pub(crate) percent: bool,
    ghost few: { digits ≤ 11 },
    ghost small: { number < 10 ^ digits },
    ghost within: { places ≤ digits },
}
