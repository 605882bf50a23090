//! The limits of the language and of a call: a text that meets a limit has its report, and one that
//! passes it by one is refused. The values were worked by hand.

use crate::tests::helpers::{DIE, Ended, Objects, STEADY, call};
use dl_top::Status;
use std::alloc::{AllocError, Global};
use std::process::Abort;
use std::test::Fail;

/// A table of `N` limits on texts, with a line `==` between them: the words of a call, a text that
/// meets the limit, its report, a text that passes the limit by one, and its message, divided by
/// lines `--`.
#[derive(Clone, Copy)]
struct Table<const N: usize> {
    rows: &'static str,
}

/// A table of limits on a number between two texts, and of one on the units of a
/// portfolio: the ask with its two ends, the numbers that meet the limit and pass it, and the
/// fault.
macro_rules! limits {
    ($($ask:literal $ends:literal, $head:literal $met:literal $passed:literal $tail:literal,
        $fault:literal;)*
        port $all:literal $certain:literal, [$($unit:literal)*] $next:literal, $many:literal;) => {
        Table {
            rows: concat!(
                $("run --log2 5 ", $ask, "\n--\n", $head, $met, $tail, "\n--\n",
                $ask, " ", $ends, "\n--\n", $head, $passed, $tail, "\n--\n",
                "decl: ", $fault, "\n==\n",)*
                "run --log2 5 ", $all, "\n--\nport P\n",
                $("agg U", $unit, " dfreq [1] dsev [1]\n",)* "--\n", $all, " ", $certain, "\n--\nport P\n",
                $("agg U", $unit, " dfreq [1] dsev [1]\n",)* "agg U", $next,
                " dfreq [1] dsev [1]\n--\ndecl: ", $many, "\n"
            ),
        }
    };
}

/// Whether a text that meets a limit has its report, and one that passes it is refused.
fn is_kept(alloc: Global, row: &str) -> Result<bool, AllocError> {
    let mut parts = row.split("--\n");
    let words = parts.next().unwrap_or("").trim_end();
    let met = parts.next().unwrap_or("").as_bytes();
    let report = parts.next().unwrap_or("").as_bytes();
    let passed = parts.next().unwrap_or("").as_bytes();
    let message = parts.next().unwrap_or("").as_bytes();
    let answered = call(alloc, words, met, STEADY)?;
    let refused = call(alloc, words, passed, STEADY)?;
    Ok(answered.is(Status::Done, report, b"") && refused.is(Status::Refused, b"", message))
}

/// The place of the first limit in a table that is not kept, counted from 0; `N` where all are.
fn first_not_kept<const N: usize>(alloc: Global, table: &Table<N>) -> Result<usize, AllocError> {
    for i in 0..N {
        let row = table.rows.split("==\n").nth(i).unwrap_or("");
        if !is_kept(alloc, row)? {
            return Ok(i);
        }
    }
    Ok(N)
}

#[test]
fn limits_of_texts(rt: HostRuntime) -> Result<(), Fail> {
    let table: Table<11> = limits!(
        "pmf:0" "1.000000 1.000000", "agg F " 65536 65537 " claims dsev [0] fixed",
            "1:5: unit 0: rule 20 TooManyClaims";
        "mean" "4096.000000 4096.000000", "agg P " 4096 4097 " claims dsev [1] poisson",
            "1:5: unit 0: rule 20 TooManyClaims";
        "mean" "0.000000 0.000000", "agg D dfreq [" 256 257 "] dsev [0]",
            "1:5: unit 0: rule 20 TooManyClaims";
        "mean" "1.000000 1.000000", "agg G 1 claims dsev [1] mixed gamma 1/" 100 101 "",
            "1:5: unit 0: rule 20 TooManyClaims";
        "pmf:0" "1.000000 1.000000", "agg P " 99999999999 999999999999
            " claims dsev [0] poisson", "1:7: unit 0: rule 2 BadNumeral";
        "pmf:1" "0.250000 0.250000", "agg D dfreq [1] dsev [1 2] [" "25.0000000" "25.00000000"
            "% 75%]", "1:29: unit 0: rule 2 BadNumeral";
        "mean" "1048576.000000 1048576.000000", "agg D dfreq [1] dsev [" 1048576 1048577 "]",
            "1:23: unit 0: rule 8 TooFar";
        "mean" "512.500000 512.500000", "agg D dfreq [1] dsev [1:" 1024 1025 "]",
            "1:22: unit 0: rule 4 ListTooLong";
        "mean" "1.999999 2.000000", "agg D dfreq [1] dsev [1 2] "
            "[1/1073741824 1073741823/1073741824]" "[1/1073741825 1073741824/1073741825]" "",
            "1:5: unit 0: rule 19 TooFine";
        "pmf:3" "0.166666 0.166667", "agg D dfreq [1] dsev [1:6] aggregate net of inf xs "
            16384 16385 "", "1:28: unit 0: rule 21 HorizonTooLarge";
        port "pmf:16" "1.000000 1.000000", [0 1 2 3 4 5 6 7 8 9 10 11 12 13 14 15] 16,
            "18:5: unit 16: rule 22 TooManyUnits";
    );
    let kept = first_not_kept(rt.alloc(), &table)?;
    assert!(rt; kept == 11, "{kept}");
    Ok(())
}

/// A text that has a piece so many times, and what is due of the call `run pmf:3` over it.
#[derive(Clone, Copy)]
struct Long {
    head: &'static str,
    piece: &'static str,
    times: usize,
    tail: &'static str,
    status: Status,
    written: &'static str,
}

/// The row of a die.
const SIXTH: &str = "pmf:3 0.166666 0.166667\n";

/// The most bytes of a text, without those of a die.
const BLANKS: usize = 1_048_576 - DIE.len();

/// Long lists, clauses and texts, the longest that are admitted and longer ones.
const LONG: [Long; 9] = [
    Long {
        head: "agg D dfreq [1]",
        piece: " dsev [3]",
        times: 64,
        tail: " wts [0:1/32:1/2016]",
        status: Status::Done,
        written: "pmf:3 1.000000 1.000000\n",
    },
    Long {
        head: "agg D dfreq [1]",
        piece: " dsev [3]",
        times: 65,
        tail: " wts [1]",
        status: Status::Refused,
        written: "decl: 1:17: unit 0: rule 4 ListTooLong\n",
    },
    Long {
        head: "agg D dfreq [1] dsev [1:6] occurrence net of 0 xs 0",
        piece: " and 0 xs 0",
        times: 15,
        tail: "",
        status: Status::Done,
        written: SIXTH,
    },
    Long {
        head: "agg D dfreq [1] dsev [1:6] occurrence net of 0 xs 0",
        piece: " and 0 xs 0",
        times: 16,
        tail: "",
        status: Status::Refused,
        written: "decl: 1:28: unit 0: rule 4 ListTooLong\n",
    },
    Long {
        head: "#",
        piece: " a comment of many reads",
        times: 10_000,
        tail: "\nagg D dfreq [1] dsev [1;6]",
        status: Status::Refused,
        written: "decl: 2:24: no token begins here\n",
    },
    Long {
        head: "agg D dfreq [1] dsev [1:6]\n",
        piece: " ",
        times: BLANKS,
        tail: "",
        status: Status::Done,
        written: SIXTH,
    },
    Long {
        head: "agg D dfreq [1] dsev [1:6]\n",
        piece: " ",
        times: BLANKS + 1,
        tail: "",
        status: Status::Refused,
        written: "decl: the input has more than 1048576 bytes\n",
    },
    Long {
        head: "agg D dfreq ",
        piece: "[",
        times: 100_000,
        tail: "",
        status: Status::Refused,
        written: "decl: 1:14: syntax\n",
    },
    Long {
        head: "agg D dfreq [1] dsev [",
        piece: "1 ",
        times: 100_000,
        tail: "]",
        status: Status::Refused,
        written: "decl: 1:22: unit 0: rule 4 ListTooLong\n",
    },
];

/// Objects that give and take much at once.
const LARGE: Objects = Objects {
    given: 65_536,
    taken: 65_536,
    ..STEADY
};

/// Whether the call over a long text ends as is due.
fn is_answered(alloc: Global, row: &Long) -> Result<bool, AllocError> {
    let pieces = row.piece.repeat(alloc, row.times)?;
    let text = format!(in alloc; "{}{}{}", row.head, pieces, row.tail)?;
    let ended = call(alloc, "run pmf:3", text.as_bytes(), LARGE)?;
    let written = row.written.as_bytes();
    Ok(match row.status {
        Status::Done => ended.is(Status::Done, written, b""),
        other => ended.is(other, b"", written),
    })
}

#[test]
fn long_texts(rt: HostRuntime) -> Result<(), Fail> {
    for (i, row) in LONG.iter().enumerate() {
        assert!(rt; is_answered(rt.alloc(), row)?, "{i}");
    }
    Ok(())
}

/// How a call about a die ends that asks so many times for the mean.
fn asked_often(alloc: Global, times: usize) -> Result<Ended, AllocError> {
    let asks = " mean".repeat(alloc, times)?;
    let words = format!(in alloc; "run{asks}")?;
    call(alloc, words.as_str(), DIE, LARGE)
}

#[test]
fn as_many_asks_as_may_be(rt: HostRuntime) -> Result<(), Fail> {
    let alloc = rt.alloc();
    let rows = "mean 3.500000 3.500000\n".repeat(alloc, 256)?;
    assert!(rt; asked_often(alloc, 256)?.is(Status::Done, rows.as_bytes(), b""));
    assert!(rt; asked_often(alloc, 257)?.is(Status::Usage, b"", b"decl: usage\n"));
    Ok(())
}

/// How a call ends that is to check a step behind a program with so many blanks, which has 27 bytes
/// more and breaks a rule.
fn checked_behind(alloc: Global, blanks: usize) -> Result<Ended, AllocError> {
    let pieces = " ".repeat(alloc, blanks)?;
    let text = format!(in alloc; "agg D dfreq [1] dsev [1/2]{pieces}\n---\none")?;
    call(alloc, "verify --log2 1", text.as_bytes(), LARGE)
}

#[test]
fn as_long_a_program_before_steps_as_may_be(rt: HostRuntime) -> Result<(), Fail> {
    let alloc = rt.alloc();
    let broken = b"decl: 1:23: unit 0: rule 7 OffGrid\n";
    assert!(rt; checked_behind(alloc, 1_048_549)?.is(Status::Refused, b"", broken));
    let long = b"decl: the input has more than 1048576 bytes\n";
    assert!(rt; checked_behind(alloc, 1_048_550)?.is(Status::Refused, b"", long));
    Ok(())
}
