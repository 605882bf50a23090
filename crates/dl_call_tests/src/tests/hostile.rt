//! Whole calls whose objects fail at each call in turn, and texts that end anywhere. The values
//! were worked apart from the program.

ghost use Rattle.std.specs.Prelude.{◌≤◌, length};
ghost use Rattle.dl_limits.specs.Limits.{most_text};

use crate::tests::helpers::{DIE, Objects, STEADY, call};
use dl_lexer::line_col;
use dl_top::Status;
use std::alloc::{AllocError, Global};
use std::process::Abort;
use std::test::Fail;

/// A book of three units.
const BOOK: &[u8] = b"port Book
agg Motor 20 claims 50 xs 0 dsev [1 2 5 10 80] [0.4 0.3 0.2 0.08 0.02] poisson
agg Property 200 premium at 65% lr dsev [5 10 20 60] [0.5 0.3 0.15 0.05] mixed gamma 0.25
agg Liability dfreq [0 1 2] [0.5 0.3 0.2] 40 xs 10 dsev [5 15 30 100] [0.6 0.2 0.15 0.05] \
occurrence net of 0.5 so 20 xs 20 aggregate net of 20 xs 30
";

/// The asks about the book.
const ASKS: &str = "run --log2 10 --digits 4 mean q:0.99 tail:0.99 joint:Motor:200 kappa:Motor:200";

/// Their report.
const ANSWERS: &[u8] = b"mean 214.7812 214.7813
q:0.99 425 425
tail:0.99 465.6967 465.6968
joint:Motor:200 0.4013 0.4014
kappa:Motor:200 73.6485 73.6486
";

/// The message of an input that could not be read.
const UNREAD: &[u8] = b"decl: the input could not be read\n";

/// The most bytes that an object gives or takes at once.
const PIECE: usize = 7;

/// An object of a call.
#[derive(Clone, Copy)]
enum Object {
    Source,
    Out,
    Err,
}

impl Object {
    /// Objects of which this one fails, at the call of it with this number.
    fn failing(self, number: u64) -> Objects {
        let steady = Objects {
            given: PIECE,
            taken: PIECE,
            ..STEADY
        };
        match self {
            Object::Source => Objects {
                read: number,
                ..steady
            },
            Object::Out => Objects {
                write: number,
                ..steady
            },
            Object::Err => Objects {
                tell: number,
                ..steady
            },
        }
    }
}

/// How a call is due to end, and what its two sinks are due to hold.
#[derive(Clone, Copy)]
struct Due<'a> {
    status: Status,
    report: &'a [u8],
    message: &'a [u8],
}

/// The end that is due where an object fails after `moved` bytes went through it; `own` is that of
/// a call in which nothing fails.
fn due_of<'a>(failing: Object, moved: usize, input: &[u8], own: Due<'a>) -> Due<'a> {
    let none: &'a [u8] = b"";
    match failing {
        Object::Source if moved < input.len() + PIECE => Due {
            status: Status::ReadFault,
            report: none,
            message: UNREAD,
        },
        Object::Out if moved < own.report.len() => Due {
            status: Status::WriteFault,
            report: &own.report[..moved],
            message: none,
        },
        Object::Err if moved < own.message.len() => Due {
            status: Status::WriteFault,
            report: none,
            message: &own.message[..moved],
        },
        _ => own,
    }
}

/// Whether a call ends as is due where its object fails at this call of it.
fn is_due(
    alloc: Global,
    words: &str,
    input: &[u8],
    failing: Object,
    number: u8,
    own: Due<'_>,
) -> Result<bool, AllocError> {
    let due = due_of(failing, PIECE * number as usize, input, own);
    let ended = call(alloc, words, input, failing.failing(number as u64))?;
    Ok(ended.is(due.status, due.report, due.message))
}

#[test]
fn tells_each_failed_call(rt: HostRuntime) -> Result<(), Fail> {
    let done = Due {
        status: Status::Done,
        report: ANSWERS,
        message: b"",
    };
    let wide = Due {
        status: Status::TooWide,
        report: b"",
        message: b"decl: ask 0: needs width 2\n",
    };
    // the words, the text, the object that fails, one call more than it has, and the end else
    let rows = [
        (ASKS, BOOK, Object::Source, 49u8, done),
        (ASKS, BOOK, Object::Out, 20, done),
        ("run --log2 4 --width 1 pmf:3", DIE, Object::Err, 5, wide),
    ];
    for (words, input, failing, calls, own) in rows {
        for number in 0..calls {
            let right = is_due(rt.alloc(), words, input, failing, number, own)?;
            assert!(rt; right, "{words} {number}");
        }
    }
    Ok(())
}

/// The line and the column that a message names.
fn place_of(message: &[u8]) -> Option<(u32, u32)> {
    let text = str::from_utf8(message).ok()?;
    let mut parts = text.strip_prefix("decl: ")?.split(':');
    let line = parts.next()?.parse::<u32>().ok()?;
    let column = parts.next()?.parse::<u32>().ok()?;
    Some((line, column))
}

/// Whether a message names a place that is not past the end of a text.
fn is_within(text: &[u8], message: &[u8]) -> bool
    requires { length text.now ≤ most_text }
{
    let (last, width) = line_col(text, text.len() as u32);
    match place_of(message) {
        Some((line, column)) => line < last || line == last && column <= width,
        None => false,
    }
}

/// Whether a call over a text is done without a message, or is refused without a report, at a place
/// in the text.
fn is_answered(alloc: Global, text: &[u8]) -> Result<bool, AllocError>
    requires { length text.now ≤ most_text }
{
    let ended = call(alloc, "run --log2 4 pmf:0", text, STEADY)?;
    Ok(match ended.status {
        Status::Done => ended.message.is_empty(),
        Status::Refused => ended.report.is_empty() && is_within(text, ended.message.as_slice()),
        _ => false,
    })
}

#[test]
fn answers_each_prefix(rt: HostRuntime) -> Result<(), Fail> {
    for end in 0..=BOOK.len() {
        assert!(rt; is_answered(rt.alloc(), &BOOK[..end])?, "{end}");
    }
    Ok(())
}
