//! How a step is written.

ghost use Rattle.std.specs.Prelude.{◌≡◌, ◌++◌, ◌∷◌, [], ◌^◌, ◌≤◌, OnOk, codes, length};
ghost use Rattle.std.specs.Fmt.{decimal};
ghost use Rattle.dl_grid.specs.Cells.{low_at, high_at};
ghost use Rattle.dl_cert.specs.Written.{cell_text, cells_text, kind_text, line_of};

use crate::step::Kind;
use dl_grid::Grid;
use itoa::Buffer;
use std::alloc::AllocError;

/// Appends the decimal digits of a number.
fn push_number(text: &mut Vec<u8>, number: u128) -> Result<(), AllocError>
    ensures { OnOk result (text.new.items ≡ text.old.items ++ decimal number) }
{
    let mut buffer = Buffer::new();
    text.extend_from_slice(buffer.format(number).as_bytes())
}

/// Appends a blank and the ends of a cell.
fn push_cell(text: &mut Vec<u8>, low: u128, high: u128) -> Result<(), AllocError>
    ensures { OnOk result (text.new.items ≡ text.old.items ++ cell_text low high) }
{
    text.extend_from_slice(b" ")?;
    push_number(text, low)?;
    text.extend_from_slice(b",")?;
    push_number(text, high)
}

/// Appends the cells of a grid.
fn push_cells(text: &mut Vec<u8>, grid: &Grid<56>) -> Result<(), AllocError>
    ensures { OnOk result (text.new.items ≡ text.old.items
        ++ cells_text (low_at grid.now) (high_at grid.now) (length grid.now)) }
{
    for x in 0..grid.cells() {
        let cell = grid.at(x);
        push_cell(text, cell.lo, cell.hi)?;
    }
    Ok(())
}

/// Appends the kind of a step.
fn push_kind(text: &mut Vec<u8>, kind: Kind) -> Result<(), AllocError>
    ensures { OnOk result (text.new.items ≡ text.old.items ++ kind_text kind) }
{
    match kind {
        Kind::One => text.extend_from_slice(b"one"),
        Kind::Start(unit) => {
            text.extend_from_slice(b"start ")?;
            push_number(text, u128::from(unit))
        }
        Kind::Times(first, second) => {
            text.extend_from_slice(b"times ")?;
            push_number(text, u128::from(first))?;
            text.extend_from_slice(b" ")?;
            push_number(text, u128::from(second))
        }
    }
}

/// Appends the line of a step, and a newline.
pub(crate) fn push_step(text: &mut Vec<u8>, kind: Kind, grid: &Grid<56>) -> Result<(), AllocError>
    ensures { OnOk result (text.new.items ≡ text.old.items
        ++ (line_of (record { kind = kind; cells = grid.now }) ++ (10 ∷ []))) }
{
    push_kind(text, kind)?;
    push_cells(text, grid)?;
    text.extend_from_slice(b"\n")
}
