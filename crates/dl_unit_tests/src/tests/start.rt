//! The probability of no claim of gamma counts of a shape below 1.

ghost use Rattle.std.specs.Prelude.{◌<◌};

use dl_frac::Frac;
use dl_start::shape_start;
use std::cmp::Ordering;

/// The first nine decimals of `end / 2^exponent`.
fn decimals(end: u64, exponent: u32) -> u128 {
    let mut nine = u128::from(end) * 1_000_000_000 / 9_223_372_036_854_775_808;
    for k in 63..exponent {
        nine = nine / 2;
    }
    nine
}

/// Whether both ends of that of the mean over the shape `num / den` and the shape `above / below`
/// have these first nine decimals.
fn has_decimals(num: u32, den: u32, above: u32, below: u32, want: u128) -> bool
    requires den_above { 0 < den }
    requires below_above { 0 < below }
{
    let Ok(beta) = Frac::make(u128::from(num), u128::from(den)) else {
        return false;
    };
    let Ok(shape) = Frac::make(u128::from(above), u128::from(below)) else {
        return false;
    };
    if shape.compare(Frac::whole(1)) != Ordering::Less {
        return false;
    }
    let start = shape_start(beta, shape);
    decimals(start.low, start.exponent) == want && decimals(start.high, start.exponent) == want
}

// worked with 40 digits
#[test]
fn starts_of_shapes(rt: HostRuntime) {
    assert!(rt; has_decimals(1, 1, 1, 2, 707_106_781));
    assert!(rt; has_decimals(32_768, 1, 1, 3, 31_249_682));
    assert!(rt; has_decimals(9, 50, 1, 9, 981_777_580));
}
