//! A report as comma-separated values.

ghost use Rattle.std.specs.Prelude.{◌≡◌, ◌≤◌, ◌++◌, ℕ, List, IfOk, OnOk};
ghost use Rattle.dl_limits.specs.Limits.{most_digits};
ghost use Rattle.dl_report.specs.Records.{csv_of, record_text, row_record};
ghost use Rattle.dl_report.specs.Writing.{HasWritten};

use crate::ends::end_bytes;
use crate::report::{Report, Row};
use csv::{Writer, WriterBuilder};
use std::alloc::{AllocError, Global};

/// Writes a record of three fields.
fn write_record(
    writer: &mut Writer<Vec<u8>>,
    ask: &[u8],
    low: &[u8],
    high: &[u8],
) -> Result<(), AllocError>
    ensures { OnOk result ((text : List ℕ) → HasWritten writer.old text
        → HasWritten writer.new (text ++ record_text ask.now low.now high.now)) }
{
    let fields = [ask, low, high];
    match writer.write_fields(&fields) {
        Ok(()) => Ok(()),
        Err(_) => Err(AllocError),
    }
}

/// Writes the record of a row.
fn write_row(
    alloc: Global,
    writer: &mut Writer<Vec<u8>>,
    digits: u32,
    row: &Row,
) -> Result<(), AllocError>
    requires { digits ≤ most_digits }
    ensures { OnOk result ((text : List ℕ) → HasWritten writer.old text
        → HasWritten writer.new (text ++ row_record digits row.now)) }
{
    let low = end_bytes(alloc, digits, row.low)?;
    let high = end_bytes(alloc, digits, row.high)?;
    write_record(writer, row.ask.as_slice(), &low, &high)
}

/// The report as comma-separated values: the names of the three fields, then a record for each row.
pub fn csv(alloc: Global, report: &Report) -> Result<Vec<u8>, AllocError>
    requires { report.now.digits ≤ most_digits }
    ensures { IfOk result (λ text. text.items ≡ csv_of report.now) }
{
    let mut writer = WriterBuilder::new().from_writer(Vec::new(alloc));
    write_record(&mut writer, b"ask", b"low", b"high")?;
    for row in report.rows.as_slice() {
        write_row(alloc, &mut writer, report.digits, row)?;
    }
    match writer.into_inner() {
        Ok(text) => Ok(text),
        Err(_) => Err(AllocError),
    }
}
