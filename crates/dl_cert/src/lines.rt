//! Steps that are read from their lines.

ghost use Rattle.std.specs.Prelude.{ℕ, ◌≡◌, ◌≢◌, ◌==◌, ◌<◌, ◌≤◌, List, ◌∷◌, ◌++◌, length, drop, get_or, codes, IfOk, IfSome, MatchOption};
ghost use Rattle.std.specs.List.{position_or_len};
ghost use Rattle.dl_iv.specs.declared.interval.Iv.{Iv};
ghost use Rattle.dl_cert.specs.Steps.{Step};
ghost use Rattle.dl_cert.specs.Spelling.{IsNumber, IsCell};
ghost use Rattle.dl_cert.specs.Numbers.{one};
ghost use Rattle.dl_cert.specs.Lines.{lines_of, AreCells, IsStep};
ghost use Rattle.dl_cert.specs.Reading.{BeginsCell, AreStepWords, IsNoStep, line_from, first_word, after_word};

use crate::step::Kind;
use dl_bytes::number;
use dl_iv::{Iv, units_of_one};
use std::alloc::{AllocError, Global};

/// The place of the first such byte, or the number of all bytes.
fn index_of(text: &[u8], sign: u8) -> usize
    ensures offset { result ≡ position_or_len (λ byte. byte == sign) text.now }
    ensures within { result ≤ length text.now }
{
    for i in 0..text.len() {
        if text[i] == sign {
            return i;
        }
    }
    text.len()
}

/// The bytes of a text from a place on.
fn after(text: &[u8], offset: usize) -> &[u8]
    requires { offset ≤ length text.now }
    ensures { result.now ≡ drop offset text.now }
{
    &text[offset..]
}

/// The line that begins at a place of a text, without its newline.
pub(crate) fn line_from(text: &[u8], offset: usize) -> &[u8]
    requires { offset ≤ length text.now }
    ensures { result.now ≡ line_from text.now offset }
{
    let rest = after(text, offset);
    &rest[..index_of(rest, b'\n')]
}

/// The place behind the line that begins at a place of a text, and behind its newline.
pub(crate) fn next_line(text: &[u8], offset: usize) -> usize
    requires { offset < length text.now }
    ensures lines { lines_of (drop offset text.now)
        ≡ line_from text.now offset ∷ lines_of (drop result text.now) }
    ensures after { offset < result }
    ensures within { result ≤ length text.now }
{
    let end = offset + index_of(after(text, offset), b'\n');
    if end < text.len() { end + 1 } else { end }
}

/// The cell with these ends, where they are in order and at most 1.
fn cell_of(lo: u128, hi: u128) -> Option<Iv<56>>
    ensures { MatchOption result (¬ ((lo ≤ hi) × (hi ≤ one)))
        (λ cell. (cell.lo ≡ lo) × (cell.hi ≡ hi) × (hi ≤ one)) }
{
    if lo > hi || hi > units_of_one(56) {
        return None;
    }
    Some(Iv { lo, hi })
}

/// The cell that a text spells.
fn read_cell(text: &[u8]) -> Option<Iv<56>>
    ensures { MatchOption result ((cell : Iv 56) → ¬ IsCell text.now cell) (IsCell text.now) }
{
    let comma = index_of(text, b',');
    if comma == text.len() {
        return None;
    }
    let Some(lo) = number(&text[..comma], 17) else {
        return None;
    };
    let Some(hi) = number(after(text, comma + 1), 17) else {
        return None;
    };
    cell_of(u128::from(lo), u128::from(hi))
}

/// A cell of a line, and the place behind it.
#[derive(Clone, Copy)]
struct ReadCell {
    /// The cell.
    cell: Iv<56>,
    /// The place behind its last byte.
    next: usize,
}

/// The cell that is spelled from a place of a text on, with a blank before it.
fn cell_from(text: &[u8], from: usize) -> Option<ReadCell>
    requires { from ≤ length text.now }
    ensures cell { MatchOption result
        ((cell : Iv 56) (cells : List (Iv 56)) → ¬ AreCells (drop from text.now) (cell ∷ cells))
        (λ read. BeginsCell (drop from text.now) read.cell (drop read.next text.now)) }
    ensures within { IfSome result (λ read. read.next ≤ length text.now) }
{
    if from == text.len() {
        return None;
    }
    if text[from] != b' ' {
        return None;
    }
    let rest = after(text, from + 1);
    let end = index_of(rest, b' ');
    let Some(cell) = read_cell(&rest[..end]) else {
        return None;
    };
    Some(ReadCell {
        cell,
        next: from + 1 + end,
    })
}

/// The cells that are spelled from `start` to the end of a text, where there are `cells` of them.
fn cells_from(
    alloc: Global,
    text: &[u8],
    start: usize,
    cells: u32,
) -> Result<Option<Vec<Iv<56>>>, AllocError>
    requires { start ≤ length text.now }
    ensures { IfOk result (λ read. MatchOption read
        ((list : List (Iv 56)) → AreCells (drop start text.now) list → length list ≢ cells)
        (λ list. AreCells (drop start text.now) list.items × (length list.items ≡ cells))) }
{
    let mut list = Vec::with_capacity(alloc, cells as usize)?;
    let mut from = start;
    for _count in 0..cells {
        match cell_from(text, from) {
            Some(read) => {
                list.push(read.cell)?;
                from = read.next;
            }
            None => return Ok(None),
        }
    }
    if from < text.len() {
        return Ok(None);
    }
    Ok(Some(list))
}

/// The kind of a step, and the place in its line where its cells begin.
#[derive(Clone, Copy)]
struct StepWords {
    /// The kind.
    kind: Kind,
    /// The place behind the words that say it.
    next: usize,
}

/// A number of a unit or of a step in a line, and the place behind it.
#[derive(Clone, Copy)]
struct ReadNumber {
    /// The number.
    number: u32,
    /// The place behind its last digit.
    next: usize,
}

/// The number of 1 to 9 digits from a place of a line to the next blank, or to the line's end.
fn number_from(line: &[u8], from: usize) -> Option<ReadNumber>
    requires { from ≤ length line.now }
    ensures number { MatchOption result
        ((n : ℕ) → ¬ IsNumber 9 (first_word (drop from line.now)) n)
        (λ read. IsNumber 9 (first_word (drop from line.now)) read.number) }
    ensures next { IfSome result (λ read. drop read.next line.now
        ≡ after_word (drop from line.now)) }
    ensures within { IfSome result (λ read. read.next ≤ length line.now) }
{
    let rest = after(line, from);
    let end = index_of(rest, b' ');
    let Some(number) = number(&rest[..end], 9) else {
        return None;
    };
    Some(ReadNumber {
        number: number as u32,
        next: from + end,
    })
}

/// The kind of the step that a line of a start spells.
fn start_of(line: &[u8]) -> Option<StepWords>
    requires { line.now ≡ codes "start " ++ drop 6 line.now }
    ensures { MatchOption result (IsNoStep line.now) (λ words. AreStepWords line.now words.kind words.next) }
{
    let Some(unit) = number_from(line, 6) else {
        return None;
    };
    Some(StepWords {
        kind: Kind::Start(unit.number),
        next: unit.next,
    })
}

/// The kind of the step that a line of a product spells.
fn times_of(line: &[u8]) -> Option<StepWords>
    requires { line.now ≡ codes "times " ++ drop 6 line.now }
    ensures { MatchOption result (IsNoStep line.now) (λ words. AreStepWords line.now words.kind words.next) }
{
    let Some(first) = number_from(line, 6) else {
        return None;
    };
    if first.next == line.len() {
        return None;
    }
    let Some(second) = number_from(line, first.next + 1) else {
        return None;
    };
    Some(StepWords {
        kind: Kind::Times(first.number, second.number),
        next: second.next,
    })
}

/// The kind of the step that a line spells.
fn step_words(line: &[u8]) -> Option<StepWords>
    ensures { MatchOption result (IsNoStep line.now) (λ words. AreStepWords line.now words.kind words.next) }
{
    if let Some(_cells) = line.strip_prefix(b"one") {
        return Some(StepWords {
            kind: Kind::One,
            next: 3,
        });
    }
    if let Some(_words) = line.strip_prefix(b"start ") {
        return start_of(line);
    }
    if let Some(_words) = line.strip_prefix(b"times ") {
        return times_of(line);
    }
    None
}

/// A step that is read.
#[derive(Drop)]
pub(crate) struct ReadStep {
    /// Its kind.
    pub kind: Kind,
    /// Its cells.
    pub cells: Vec<Iv<56>>,
}

/// The step that a line spells, where it has `cells` cells.
pub(crate) fn read_step(
    alloc: Global,
    line: &[u8],
    cells: u32,
) -> Result<Option<ReadStep>, AllocError>
    ensures { IfOk result (λ read. MatchOption read
        ((step : Step) → IsStep line.now step → length step.cells ≢ cells)
        (λ step. IsStep line.now (record { kind = step.kind; cells = step.cells.items })
        × (length step.cells.items ≡ cells))) }
{
    let Some(words) = step_words(line) else {
        return Ok(None);
    };
    let Some(list) = cells_from(alloc, line, words.next, cells)? else {
        return Ok(None);
    };
    Ok(Some(ReadStep {
        kind: words.kind,
        cells: list,
    }))
}
