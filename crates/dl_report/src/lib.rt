//! The rows of a report, and its three forms: lines, comma-separated values and JSON.
//!
//! `text`, `csv` and `json` give a report's bytes, and the bytes of each form determine its rows
//! (`law_text_determines_rows` and its two likes).
#![tactic(auto)]

mod ends;
mod law;
mod lines;
mod objects;
mod records;
mod report;

pub use law::{law_csv_determines_rows, law_json_determines_rows, law_text_determines_rows};
pub use lines::text;
pub use objects::json;
pub use records::csv;
pub use report::{End, Report, Row};
