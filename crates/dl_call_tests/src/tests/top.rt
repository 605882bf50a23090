//! Whole calls, from words and bytes to bytes. The values were worked by hand, in exact fractions.

use crate::tests::helpers::{DIE, Objects, STEADY, call};
use dl_top::Status;
use std::alloc::{AllocError, Global};
use std::process::Abort;
use std::test::Fail;

/// Calls, with a line `==` between them: the words, the input, how the call ends, and what it
/// writes, what was asked for to the one sink or the text of a fault to the other, divided by lines
/// `%%`. There is one for each form, each status and each kind of fault; further ones are in
/// clients/calls.txt, where they cost no proof.
const CALLS: &str = "run --log2 4 pmf:1
%%
agg B 1/3 claims dsev [1] bernoulli
%%
Done
%%
pmf:1 0.333333 0.333334
==
run --log2 4 pmf:3 --format csv
%%
agg D dfreq [1] dsev [1:6]
%%
Done
%%
ask,low,high
pmf:3,0.166666,0.166667
==
run --log2 4 --format json pmf:3
%%
agg D dfreq [1] dsev [1:6]
%%
Done
%%
{\"bs\":\"1\",\"cells\":16,\"rows\":[{\"ask\":\"pmf:3\",\"high\":\"0.166667\",\"low\":\"0.166666\"}]}
==
run --log2 4 pmf:2 cdf:9 mean q:0.9 layer:5xs5 layer:infxs10
%%
agg D dfreq [2] dsev [1:6]
%%
Done
%%
pmf:2 0.027777 0.027778
cdf:9 0.833333 0.833334
mean 7.000000 7.000000
q:0.9 10 10
layer:5xs5 2.166666 2.166667
layer:infxs10 0.111111 0.111112
==
run --log2 4 pmf:0 pmf:1 kappa:A:2 mean
%%
port C common 0.5 agg A 1 claims dsev [1] poisson agg B 2 claims dsev [1] poisson
%%
Done
%%
pmf:0 0.106622 0.106623
pmf:1 0.182780 0.182781
kappa:A:2 0.666666 0.666667
mean 3.000000 3.000000
==
run --log2 4 pmf:0 pmf:1 pmf:2 joint:A:2 joint:B:2 kappa:A:2 kappa:B:2 cotail:A:0.25 cotail:B:0.25
%%
port T agg A 1 claims dsev [1 2] poisson agg B 2 claims dsev [1] poisson
%%
Done
%%
pmf:0 0.049787 0.049788
pmf:1 0.124467 0.124468
pmf:2 0.180478 0.180479
joint:A:2 0.112020 0.112021
joint:B:2 0.248935 0.248936
kappa:A:2 0.620689 0.620690
kappa:B:2 1.379310 1.379311
cotail:A:0.25 1.904122 1.904123
cotail:B:0.25 2.394599 2.394600
==
run --log2 4 pmf:3 joint:A:3 joint:B:3 kappa:A:5 kappa:B:5 cotail:A:0.75 cotail:B:0.75
%%
port T agg A 1 claims dsev [1 2] mixed gamma 1 agg B 2 claims dsev [1] mixed gamma 0.5
agg C 1 claims dsev [1] poisson agg D 1 claims dsev [2] poisson agg E dfreq [0 1] dsev [1]
agg F dfreq [0 1] dsev [1] agg G dfreq [0 1] dsev [1] agg H dfreq [0 1] dsev [2]
%%
Done
%%
pmf:3 0.029847 0.029848
joint:A:3 0.006258 0.006259
joint:B:3 0.020676 0.020677
kappa:A:5 0.446802 0.446803
kappa:B:5 1.125207 1.125208
cotail:A:0.75 3.235124 3.235125
cotail:B:0.75 3.060951 3.060952
==
run --log2 4 cotail:A:0.8
%%
port C common 0.5 agg A 1 claims dsev [1] poisson agg B 2 claims dsev [1] poisson
%%
AskFault
%%
decl: ask 0: no share under a common factor
==
cert --log2 1
%%
agg F 1 claims dsev [1] fixed
%%
Done
%%
start 0 0,0 72057594037927936,72057594037927936
==
verify --log2 1
%%
agg F 1 claims dsev [1] fixed
---
start 0 0,0 72057594037927936,72057594037927936
%%
Done
%%
verified
==
verify --log2 1
%%
agg F 1 claims dsev [1] fixed
---
start 0 0,0 72057594037927936,72057594037927935
%%
Refused
%%
decl: step 0: not verified
==
cert --log2 4
%%
agg D dfreq [1] dsev [1:6]
%%
Refused
%%
decl: unit 0: not covered
==
run --width 1 --log2 4 pmf:3
%%
agg D dfreq [1] dsev [1:6]
%%
TooWide
%%
decl: ask 0: needs width 2
==
run --log2 4 pmf:3
%%
%%
Refused
%%
decl: 1:1: syntax
==
run --log2 4 pmf:3
%%
agg D dfreq [1] dsev [1;6]
%%
Refused
%%
decl: 1:24: no token begins here
==
run --log2 4 pmf:3
%%
agg C 10 claims sev lognorm 50 cv 1.75 poisson
%%
Refused
%%
decl: 1:21: continuous severity lognorm
==
run --log2 4 pmf:3
%%
agg D dfreq [1] dsev [1 2] [1/3 1/3]
%%
Refused
%%
decl: 1:28: unit 0: rule 6 NotOne
==
run --log2 4 pmf:16
%%
agg D dfreq [1] dsev [1:6]
%%
AskFault
%%
decl: ask 0: beyond the grid
==
run pmf:1 pmf
%%
agg D dfreq [1] dsev [1:6]
%%
Usage
%%
decl: ask 1: not an ask
==
run --log2 17 mean
%%
agg D dfreq [1] dsev [1:6]
%%
Usage
%%
decl: usage
==
run --log2 2 q:0.9
%%
agg D dfreq [2] dsev [1:6]
%%
Done
%%
q:0.9 4 beyond
==
run --log2 4 kappa:Q:4
%%
port T agg A dfreq [1] dsev [1:3] agg B dfreq [1] dsev [1:3] [1/2 1/6 1/3]
%%
AskFault
%%
decl: ask 0: no such unit
==
run --log2 4 kappa:A:1
%%
agg A dfreq [1] dsev [1 2] [1/65537 65536/65537]
%%
Done
%%
kappa:A:1 - -
==
run --log2 13 pmf:8008
%%
agg W dfreq [2] dsev [8:8000:8]
%%
Done
%%
pmf:8008 0.000999 0.001001
==
run --log2 16 --digits 3 mean cdf:65535
%%
agg V 100 claims dsev [400:800:100] poisson
%%
Done
%%
mean 60000.000 60000.000
cdf:65535 0.816 0.817
==
run --log2 12 pmf:0
%%
agg Y dfreq [1] dsev [1:6] aggregate net of 20000 xs 0
%%
Refused
%%
decl: 1:28: unit 0: rule 21 HorizonTooLarge
==
run --log2 13 pmf:0
%%
agg Y dfreq [1] dsev [1:6] aggregate net of 20000 xs 0
%%
Done
%%
pmf:0 0.999999 1.000000
==
run --log2 12 pmf:0
%%
agg X dfreq [1] dsev [2000000]
%%
Refused
%%
decl: 1:23: unit 0: rule 8 TooFar
==
run --log2 13 pmf:2
%%
agg X dfreq [1] dsev [2 2000000]
%%
Done
%%
pmf:2 0.500000 0.500000
==
fmt
%%
port  Book note{all of it} # a comment
agg A 2.50 claim 3 xs 1 dsev [1, 2 : 5 ,6:10 :2] ! occurrence net of 0.5 so 4 xs 2 and
  2 po 5 xs 6 and inf xs 11 fixed aggregate ceded to inf xs 5 note{a [b] # c}
agg B 1/2 loss sev dhistogram xps [1 , 2] [50%,1/2] dsev[3]wts[.25 0.75]poisson agg C 10 prem at \
70% lr
inf xs 0 dsev [1:6] occurrence ceded to 1 xs 0 bernoulli
agg D 3 claims dsev [1] binomial 0.50 aggregate net of 1/2 so 2 xs 2 and 1 xs 4
agg E 1 claims sev dhistogram xps [0 1] mixed gamma 1/2
agg F dfreq [0,1] [1/4,3/4] 2 xs 1 dsev [1:3] occurrence net of 1 xs 1 aggregate net of 2 xs 2 \
note{}
%%
Done
%%
port Book note{all of it}
agg A 2.50 claims 3 xs 1 dsev [1 2:5 6:10:2] ! occurrence net of 0.5 so 4 xs 2 and 2 po 5 xs 6 \
and inf xs 11 fixed aggregate ceded to inf xs 5 note{a [b] # c}
agg B 1/2 loss dsev [1 2] [50% 1/2] dsev [3] wts [.25 0.75] poisson
agg C 10 premium at 70% lr inf xs 0 dsev [1:6] occurrence ceded to 1 xs 0 bernoulli
agg D 3 claims dsev [1] binomial 0.50 aggregate net of 1/2 so 2 xs 2 and 1 xs 4
agg E 1 claims dsev [0 1] mixed gamma 1/2
agg F dfreq [0 1] [1/4 3/4] 2 xs 1 dsev [1:3] occurrence net of 1 xs 1 aggregate net of 2 xs 2 \
note{}
==
fmt
%%
agg D dfreq [1] dsev
%%
Refused
%%
decl: 2:1: syntax
==
run --make 0 mean
%%
%%
Done
%%
mean 1194.500000 1194.500000
";

/// The made program of number 0.
const MADE: &[u8] = b"port Made
agg U1 34 claims dsev [1:9] poisson
agg U2 31 claims dsev [1:10] mixed gamma 0.5
agg U3 32 claims dsev [1:9] binomial 0.5
agg U4 34 claims dsev [1:10] fixed
agg U5 33 claims dsev [1:9] poisson
agg U6 28 claims dsev [1:6] mixed gamma 0.5
agg U7 32 claims dsev [1:9] binomial 0.5
agg U8 21 claims dsev [1:7] fixed
";

/// The name of a status.
fn name(status: Status) -> &'static str {
    match status {
        Status::Done => "Done",
        Status::Usage => "Usage",
        Status::Refused => "Refused",
        Status::TooWide => "TooWide",
        Status::ReadFault => "ReadFault",
        Status::WriteFault => "WriteFault",
        Status::OutOfMemory => "OutOfMemory",
        Status::AskFault => "AskFault",
    }
}

/// Whether a call of the table ends as its row says, and writes the text of its row to the one sink
/// and nothing to the other.
fn is_answered(alloc: Global, row: &str) -> Result<bool, AllocError> {
    let mut parts = row.split("%%\n");
    let words = parts.next().unwrap_or("").trim_end();
    let input = parts.next().unwrap_or("");
    let status = parts.next().unwrap_or("").trim_end();
    let written = parts.next().unwrap_or("").as_bytes();
    let ended = call(alloc, words, input.as_bytes(), STEADY)?;
    let right = match ended.status {
        Status::Done => ended.is(Status::Done, written, b""),
        other => ended.is(other, b"", written),
    };
    Ok(right && name(ended.status) == status)
}

#[test]
fn answers(rt: HostRuntime) -> Result<(), Fail> {
    for row in CALLS.split("==\n") {
        assert!(rt; is_answered(rt.alloc(), row)?, "{row}");
    }
    Ok(())
}

/// A call about a die, the read and the write that fail, and how it is due to end. The sinks have
/// room for 64 bytes, but for the made program.
#[derive(Clone, Copy)]
struct Failing {
    words: &'static str,
    read: u64,
    write: u64,
    status: Status,
    report: &'static [u8],
    message: &'static [u8],
}

const FAILING: [Failing; 5] = [
    Failing {
        words: "run --log2 4 pmf:3",
        read: 1,
        write: 999,
        status: Status::ReadFault,
        report: b"",
        message: b"decl: the input could not be read\n",
    },
    Failing {
        words: "run --log2 4 pmf:3",
        read: 999,
        write: 1,
        status: Status::WriteFault,
        report: b"pmf:3 0",
        message: b"",
    },
    Failing {
        words: "fmt",
        read: 999,
        write: 2,
        status: Status::WriteFault,
        report: b"agg D dfreq [1",
        message: b"",
    },
    Failing {
        words: "fmt --make 0",
        read: 0,
        write: 999,
        status: Status::Done,
        report: MADE,
        message: b"",
    },
    Failing {
        words: "run pmf",
        read: 0,
        write: 999,
        status: Status::Usage,
        report: b"",
        message: b"decl: ask 0: not an ask\n",
    },
];

/// Whether a call ends as it is due.
fn fails_as_said(alloc: Global, row: &Failing) -> Result<bool, AllocError> {
    let with = Objects {
        room: row.report.len().max(64),
        read: row.read,
        write: row.write,
        ..STEADY
    };
    let ended = call(alloc, row.words, DIE, with)?;
    Ok(ended.is(row.status, row.report, row.message))
}

#[test]
fn tells_failed_calls(rt: HostRuntime) -> Result<(), Fail> {
    for (i, row) in FAILING.iter().enumerate() {
        assert!(rt; fails_as_said(rt.alloc(), row)?, "{i}");
    }
    Ok(())
}
