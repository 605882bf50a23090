//! The words of the command line: what they ask for, or their first fault.
//!
//! `read_words` gives the settings that the words ask for, or their first fault, by a definition
//! that does not mention the library that reads them. The asks are those of the table in
//! docs/USAGE.md, row by row (`law_asks`), of which the last depends on the rules that the words
//! name: the definitions have each row once, and from it follow both which texts spell an ask and
//! what a text is read as. Settings lie in the ranges that a plan needs (`law_ranges`; of the two
//! widths it says that they are at least 1, and their greatest values are in the definition itself),
//! and asks are written with plain bytes (`law_plain_asks`), which is what the laws of `dl_report`
//! ask of a report.
#![tactic(auto)]

mod asks;
mod command;
mod fault;
mod judge;
mod laws;
mod options;
mod ranges;
mod read;
mod spelling;

pub use fault::{UsageFault, WordsFault};
pub use laws::{law_asks, law_parts, law_spellings};
pub use ranges::{law_plain_asks, law_ranges};
pub use read::read_words;
