//! Bytes: owned texts and lists of parts, digits and the numbers that they write, and how numerals
//! are spelled.
//!
//! `Text`, `Items` and `Rare` own what they were given, and clauses see them as that. `number` is
//! the number that digits write, or none exactly where they are no digits or too many; `is_numeral`
//! is whether a text is spelled as a numeral, which has one definition (`spelled`) and one test
//! (`test`).
#![tactic(auto)]

mod digits;
pub mod items;
pub mod rare;
mod spelling;
pub mod text;

pub use digits::{are_digits, number};
pub use items::Items;
pub use rare::Rare;
pub use spelling::is_numeral;
pub use text::Text;
