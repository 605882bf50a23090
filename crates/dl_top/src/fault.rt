//! Why no report is written, and what is printed then.

ghost use Rattle.std.specs.Prelude.{◌≡◌, ◌≤◌, ◌++◌, IfOk, OnOk, length, slice_get, codes};
ghost use Rattle.std.specs.Fmt.{decimal};
ghost use Rattle.dl_limits.specs.Limits.{most_text};
ghost use Rattle.dl_parser.specs.Within.{AllInside};
ghost use Rattle.dl_top.specs.Faults.{status_of, fault_line, line_col_text, token_start, token_text, ask_text, unit_text, step_text, usage_text, typing_text, reason, IsInSource};

use crate::number::push_number;
use crate::status::Status;
use dl_arguments::UsageFault;
use dl_lexer::{Token, line_col};
use dl_rules::TypeFault;
use std::alloc::{AllocError, Global};

/// Why no report is written.
#[derive(Clone, Copy, Debug, PartialEq, Eq)]
pub enum Fault {
    /// The words are no command line, or one of them is no ask.
    Usage(UsageFault),
    /// A read of the input failed.
    Read,
    /// The program has more than 1,048,576 bytes, or with steps the input more than 67,108,864.
    TooLong,
    /// At this place of the text neither a blank nor a token begins.
    BadByte(u32),
    /// This many tokens begin a program, and no more do.
    Syntax(u32),
    /// The same, and the next token names a continuous severity in the place of a listed one.
    Continuous(u32),
    /// The program breaks a typing rule.
    Typing(TypeFault),
    /// The total can have no certificate: this unit is the first that is not covered; 0 also where
    /// the units share a factor.
    NotCovered(u32),
    /// This step is the first that is misspelled or fails its test; or there are so many, and they
    /// do not end at the total.
    BadStep(u32),
    /// This ask is the first that lies beyond the grid.
    AskBeyond(u32),
    /// This ask is the first that names no unit.
    UnknownUnit(u32),
    /// This ask is the first for a share of the tail mean, and the units share a factor.
    NoShare(u32),
    /// This ask is the first that needs more width than the settings give, and it needs this width.
    TooWide(u32, u128),
}

impl Fault {
    /// How a call with this fault ends, where its text can be written.
    pub fn status(self) -> Status
        ensures { result ≡ status_of self }
    {
        match self {
            Fault::Usage(_) => Status::Usage,
            Fault::Read => Status::ReadFault,
            Fault::AskBeyond(_) | Fault::UnknownUnit(_) | Fault::NoShare(_) => Status::AskFault,
            Fault::TooWide(..) => Status::TooWide,
            _ => Status::Refused,
        }
    }
}

/// Where token `k` starts; past the last one, where the text ends.
fn start_of(source: &[u8], tokens: &[Token], k: u32) -> u32
    requires short { length source.now ≤ most_text }
    requires inside { AllInside source.now tokens.now }
    ensures start { result ≡ token_start source.now (slice_get tokens.now k) }
    ensures within { result ≤ length source.now }
{
    match tokens.get(k as usize) {
        Some(token) => token.span.start,
        None => source.len() as u32,
    }
}

/// Appends the line and the column of a place.
fn push_line_col(
    alloc: Global,
    text: &mut Vec<u8>,
    source: &[u8],
    at: u32,
) -> Result<(), AllocError>
    requires short { length source.now ≤ most_text }
    requires within { at ≤ length source.now }
    ensures { OnOk result (text.new.items ≡ text.old.items ++ line_col_text source.now at) }
{
    let (line, column) = line_col(source, at);
    push_number(alloc, text, line as u128)?;
    text.extend_from_slice(b":")?;
    push_number(alloc, text, column as u128)?;
    text.extend_from_slice(b": ")
}

/// Appends the bytes of token `k`; none past the last one.
fn push_token(text: &mut Vec<u8>, source: &[u8], tokens: &[Token], k: u32) -> Result<(), AllocError>
    requires inside { AllInside source.now tokens.now }
    ensures { OnOk result (text.new.items ≡ text.old.items ++ token_text source.now
        (slice_get tokens.now k)) }
{
    match tokens.get(k as usize) {
        Some(token) => {
            text.extend_from_slice(&source[token.span.start as usize..token.span.end as usize])
        }
        None => Ok(()),
    }
}

/// Appends a word with its blank, a number and a colon.
fn push_named(alloc: Global, text: &mut Vec<u8>, word: &[u8], number: u32) -> Result<(), AllocError>
    ensures { OnOk result (text.new.items ≡ text.old.items
        ++ (word.now ++ decimal number ++ codes ": ")) }
{
    text.extend_from_slice(word)?;
    push_number(alloc, text, number as u128)?;
    text.extend_from_slice(b": ")
}

/// Appends the number of an ask.
fn push_ask(alloc: Global, text: &mut Vec<u8>, ask: u32) -> Result<(), AllocError>
    ensures { OnOk result (text.new.items ≡ text.old.items ++ ask_text ask) }
{
    push_named(alloc, text, b"ask ", ask)
}

/// Appends the unit that is not covered.
fn push_not_covered(alloc: Global, text: &mut Vec<u8>, unit: u32) -> Result<(), AllocError>
    ensures { OnOk result (text.new.items ≡ text.old.items
        ++ (unit_text unit ++ codes "not covered")) }
{
    push_named(alloc, text, b"unit ", unit)?;
    text.extend_from_slice(b"not covered")
}

/// Appends the first bad step.
fn push_bad_step(alloc: Global, text: &mut Vec<u8>, step: u32) -> Result<(), AllocError>
    ensures { OnOk result (text.new.items ≡ text.old.items
        ++ (step_text step ++ codes "not verified")) }
{
    push_named(alloc, text, b"step ", step)?;
    text.extend_from_slice(b"not verified")
}

/// Appends what is wrong with the words.
fn push_usage(alloc: Global, text: &mut Vec<u8>, usage: UsageFault) -> Result<(), AllocError>
    ensures { OnOk result (text.new.items ≡ text.old.items ++ usage_text usage) }
{
    match usage {
        UsageFault::Line => text.extend_from_slice(b"usage"),
        UsageFault::Ask(ask) => {
            push_ask(alloc, text, ask)?;
            text.extend_from_slice(b"not an ask")
        }
    }
}

/// Appends a broken rule: its place, its unit, its number and its name.
fn push_typing(
    alloc: Global,
    text: &mut Vec<u8>,
    source: &[u8],
    typing: TypeFault,
) -> Result<(), AllocError>
    requires short { length source.now ≤ most_text }
    ensures { OnOk result (text.new.items ≡ text.old.items ++ typing_text typing source.now) }
{
    // a place past the end is the end, and has its line and column
    push_line_col(
        alloc,
        text,
        source,
        typing.span.start.min(source.len() as u32),
    )?;
    text.extend_from_slice(b"unit ")?;
    push_number(alloc, text, typing.unit as u128)?;
    text.extend_from_slice(b": rule ")?;
    push_number(alloc, text, typing.rule.number() as u128)?;
    text.extend_from_slice(b" ")?;
    text.extend_from_slice(typing.rule.name().as_bytes())
}

/// Appends the width that an ask needs.
fn push_width(alloc: Global, text: &mut Vec<u8>, ask: u32, width: u128) -> Result<(), AllocError>
    ensures { OnOk result (text.new.items ≡ text.old.items ++ ask_text ask ++ codes "needs width "
        ++ decimal width) }
{
    push_ask(alloc, text, ask)?;
    text.extend_from_slice(b"needs width ")?;
    push_number(alloc, text, width)
}

/// Appends what is wrong.
fn push_reason(
    alloc: Global,
    text: &mut Vec<u8>,
    fault: Fault,
    source: &[u8],
    tokens: &[Token],
) -> Result<(), AllocError>
    requires short { length source.now ≤ most_text }
    requires in_source { IsInSource fault source.now }
    requires inside { AllInside source.now tokens.now }
    ensures { OnOk result (text.new.items ≡ text.old.items ++ reason fault source.now tokens.now) }
{
    match fault {
        Fault::Usage(usage) => push_usage(alloc, text, usage),
        Fault::Read => text.extend_from_slice(b"the input could not be read"),
        Fault::TooLong => text.extend_from_slice(b"the input has more than 1048576 bytes"),
        Fault::BadByte(at) => {
            push_line_col(alloc, text, source, at)?;
            text.extend_from_slice(b"no token begins here")
        }
        Fault::Syntax(k) => {
            push_line_col(alloc, text, source, start_of(source, tokens, k))?;
            text.extend_from_slice(b"syntax")
        }
        Fault::Continuous(k) => {
            push_line_col(alloc, text, source, start_of(source, tokens, k))?;
            text.extend_from_slice(b"continuous severity ")?;
            push_token(text, source, tokens, k)
        }
        Fault::Typing(typing) => push_typing(alloc, text, source, typing),
        Fault::NotCovered(unit) => push_not_covered(alloc, text, unit),
        Fault::BadStep(step) => push_bad_step(alloc, text, step),
        Fault::AskBeyond(ask) => {
            push_ask(alloc, text, ask)?;
            text.extend_from_slice(b"beyond the grid")
        }
        Fault::UnknownUnit(ask) => {
            push_ask(alloc, text, ask)?;
            text.extend_from_slice(b"no such unit")
        }
        Fault::NoShare(ask) => {
            push_ask(alloc, text, ask)?;
            text.extend_from_slice(b"no share under a common factor")
        }
        Fault::TooWide(ask, width) => push_width(alloc, text, ask, width),
    }
}

/// The line that is printed of a fault, which names its place by line and column. `source` and
/// `tokens` are those that the fault was found in, or empty where it names no place.
pub fn fault_text(
    alloc: Global,
    fault: &Fault,
    source: &[u8],
    tokens: &[Token],
) -> Result<Vec<u8>, AllocError>
    requires short { length source.now ≤ most_text }
    requires in_source { IsInSource fault.now source.now }
    requires inside { AllInside source.now tokens.now }
    ensures { IfOk result (λ text. text.items ≡ fault_line fault.now source.now tokens.now) }
{
    let mut text = b"decl: ".to_vec(alloc)?;
    push_reason(alloc, &mut text, *fault, source, tokens)?;
    text.extend_from_slice(b"\n")?;
    Ok(text)
}
