//! A report as lines.

ghost use Rattle.std.specs.Prelude.{◌≡◌, ◌≤◌, ◌++◌, IfOk, OnOk};
ghost use Rattle.dl_limits.specs.Limits.{most_digits};
ghost use Rattle.dl_report.specs.Lines.{line, lines_of};

use crate::ends::push_end;
use crate::report::{Report, Row};
use std::alloc::{AllocError, Global};

/// Appends the line of a row.
fn push_line(text: &mut Vec<u8>, digits: u32, row: &Row) -> Result<(), AllocError>
    requires { digits ≤ most_digits }
    ensures { OnOk result (text.new.items ≡ text.old.items ++ line digits row.now) }
{
    text.extend_from_slice(row.ask.as_slice())?;
    text.extend_from_slice(b" ")?;
    push_end(text, digits, row.low)?;
    text.extend_from_slice(b" ")?;
    push_end(text, digits, row.high)?;
    text.extend_from_slice(b"\n")
}

/// The report as lines: the ask, the low end and the high end, with a blank between them.
pub fn text(alloc: Global, report: &Report) -> Result<Vec<u8>, AllocError>
    requires { report.now.digits ≤ most_digits }
    ensures { IfOk result (λ text. text.items ≡ lines_of report.now) }
{
    let mut text = Vec::new(alloc);
    for row in report.rows.as_slice() {
        push_line(&mut text, report.digits, row)?;
    }
    Ok(text)
}
