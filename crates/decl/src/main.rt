//! `decl`: a report about a DecL text. The words name the asks and the form of the report. The
//! text comes from standard input, the report goes to standard output, and the text of a fault to
//! standard error. The program ends with the number of the status.
#![tactic(auto)]

use dl_streams::{StdSink, StdSource};
use dl_top::run_with_arguments;
use std::env;
use std::process::ExitCode;

fn main(rt: HostRuntime) -> ExitCode {
    let mut source = StdSource::new(rt.stdin());
    let mut out = StdSink::new(rt.stdout());
    let mut err = StdSink::new(rt.stderr());
    run_with_arguments(rt.alloc(), env::args(&rt), &mut source, &mut out, &mut err)
}
