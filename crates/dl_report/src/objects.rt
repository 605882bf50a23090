//! A report as JSON.

ghost use Rattle.std.specs.Prelude.{◌≡◌, ◌≤◌, ◌++◌, IfOk, OnOk, codes, map};
ghost use Rattle.std.specs.Str.{IsAscii, IsUtf8};
ghost use Rattle.serde_json.specs.Data.{member, no_members, object, string};
ghost use Rattle.serde_json.specs.View.{items_view, view};
ghost use Rattle.dl_limits.specs.Limits.{most_digits};
ghost use Rattle.dl_report.specs.Objects.{AsksAreText, fraction_text, json_of};
ghost use Rattle.dl_report.specs.Values.{report_data, row_data};

use crate::ends::{end_bytes, push_whole};
use crate::report::{Report, Row};
use dl_frac::Frac;
use serde_json::Value;
use std::alloc::{AllocError, Global};

/// Appends a fraction.
fn push_fraction(text: &mut Vec<u8>, fraction: Frac) -> Result<(), AllocError>
    ensures appends { OnOk result (text.new.items ≡ text.old.items ++ fraction_text fraction) }
    ensures ascii { OnOk result (IsAscii (fraction_text fraction)) }
{
    push_whole(text, fraction.num() as u128)?;
    if fraction.den() == 1 {
        return Ok(());
    }
    text.extend_from_slice(b"/")?;
    push_whole(text, fraction.den() as u128)
}

/// These bytes as text.
fn as_text(bytes: &[u8]) -> &str
    requires { IsUtf8 bytes.now }
    ensures { result.now ≡ bytes.now }
{
    std::str::from_utf8(bytes).unwrap()
}

/// A row as a JSON object.
fn row_value(alloc: Global, digits: u32, row: &Row) -> Result<Value, AllocError>
    requires digits { digits ≤ most_digits }
    requires ask { IsUtf8 row.now.ask }
    ensures { IfOk result (λ value. view value ≡ row_data digits row.now) }
{
    let low = end_bytes(alloc, digits, row.low)?;
    let high = end_bytes(alloc, digits, row.high)?;
    row_of(
        alloc,
        as_text(row.ask.as_slice()),
        as_text(&low),
        as_text(&high),
    )
}

/// A row of these texts as a JSON object.
fn row_of(alloc: Global, ask: &str, low: &str, high: &str) -> Result<Value, AllocError>
    ensures { IfOk result (λ value. view value ≡ object (member (codes "ask") (string ask.now)
        (member (codes "high") (string high.now)
        (member (codes "low") (string low.now) no_members)))) }
{
    serde_json::json!(in alloc; {"ask": ask, "high": high, "low": low})
}

/// A report of these rows as a JSON object.
fn report_value(alloc: Global, bs: Frac, cells: u32, rows: Vec<Value>) -> Result<Value, AllocError>
    ensures { IfOk result (λ value. view value ≡ report_data (fraction_text bs) cells
        (items_view rows.items)) }
{
    let mut size = Vec::new(alloc);
    push_fraction(&mut size, bs)?;
    report_of(alloc, as_text(&size), cells, rows)
}

/// A report of these rows as a JSON object, with this text of the bucket size.
fn report_of(alloc: Global, bs: &str, cells: u32, rows: Vec<Value>) -> Result<Value, AllocError>
    ensures { IfOk result (λ value. view value ≡ report_data bs.now cells (items_view rows.items)) }
{
    serde_json::json!(in alloc; {"bs": bs, "cells": cells, "rows": Value::Array(rows)})
}

/// The rows of a report as JSON objects.
fn row_values(alloc: Global, report: &Report) -> Result<Vec<Value>, AllocError>
    requires digits { report.now.digits ≤ most_digits }
    requires asks { AsksAreText report.now }
    ensures { IfOk result (λ rows. map view rows.items
        ≡ map (row_data report.now.digits) report.now.rows) }
{
    let mut rows = Vec::new(alloc);
    for row in report.rows.as_slice() {
        let value = row_value(alloc, report.digits, row)?;
        rows.push(value)?;
    }
    Ok(rows)
}

/// The report as a JSON object, with the bucket size in money and the number of the grid's cells.
pub fn json(alloc: Global, report: &Report, bs: Frac, cells: u32) -> Result<Vec<u8>, AllocError>
    requires digits { report.now.digits ≤ most_digits }
    requires asks { AsksAreText report.now }
    ensures { IfOk result (λ text. text.items ≡ json_of report.now bs cells) }
{
    let rows = row_values(alloc, report)?;
    let whole = report_value(alloc, bs, cells, rows)?;
    let mut text = whole.to_vec(alloc)?;
    text.push(b'\n')?;
    Ok(text)
}
