//! Exact fractions with parts below 2^62, least common multiples, and the numerals that are read as
//! such fractions. A result is exact, or it is refused because a part of it would be 2^62 or more.
//! Nothing here takes memory.
//!
//! `Frac` is a fraction of 64-bit parts, always in lowest terms. `make`, `add`, `mul` and `div`
//! give the exact result, or `TooFine` exactly where a part of it reaches 2^62; `compare`,
//! `floor_scaled`, `ceil_scaled` and `lcm_to` are exact; `numeral` gives the value of a numeral, or
//! `BadNumeral` exactly where it has too many digits or nothing below the line.
#![tactic(auto)]

mod arithmetic;
mod divisors;
mod laws;
mod numerals;
mod reading;

pub use arithmetic::{Frac, TooFine};
pub use divisors::{divisor, lcm_to, small_divisor};
pub use dl_bytes::is_numeral;
pub use laws::{law_bad_numerals, law_fits, law_lcm, law_numeral_values};
pub use numerals::{BadNumeral, numeral};
