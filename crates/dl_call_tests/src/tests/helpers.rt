//! A call over objects in memory, which fail at given calls.

use dl_streams::{MemSink, MemSource};
use dl_top::{Status, run};
use std::alloc::{AllocError, Global};

/// A die, as a text.
pub const DIE: &[u8] = b"agg D dfreq [1] dsev [1:6]\n";

/// The objects of a call: what they give or take at once, the room of the sinks, and the call of
/// each at which it fails, counted from 0.
#[derive(Clone, Copy)]
pub struct Objects {
    /// The most bytes that the source gives at once.
    pub given: usize,
    /// The most bytes that a sink takes at once.
    pub taken: usize,
    /// The bytes that a sink has room for.
    pub room: usize,
    /// The failing call of the source.
    pub read: u64,
    /// The failing call of the sink for reports.
    pub write: u64,
    /// The failing call of the sink for messages.
    pub tell: u64,
}

/// Objects that do not fail.
pub const STEADY: Objects = Objects {
    given: 8,
    taken: 7,
    room: 8192,
    read: u64::MAX,
    write: u64::MAX,
    tell: u64::MAX,
};

/// How a call ended, and what its two sinks hold.
#[derive(Drop)]
pub struct Ended {
    /// The status.
    pub status: Status,
    /// What the sink for reports holds.
    pub report: Vec<u8>,
    /// What the sink for messages holds.
    pub message: Vec<u8>,
}

impl Ended {
    /// Whether the call ended so, and its two sinks hold this.
    pub fn is(&self, status: Status, report: &[u8], message: &[u8]) -> bool {
        self.status == status
            && self.report.as_slice() == report
            && self.message.as_slice() == message
    }
}

/// The words of a line.
pub fn words_of(alloc: Global, line: &str) -> Result<Vec<String>, AllocError> {
    let mut words = Vec::new(alloc);
    for word in line.split(' ') {
        words.push(String::from_str(alloc, word)?)?;
    }
    Ok(words)
}

/// The source of a call, which gives this input.
fn source(alloc: Global, input: &[u8], with: Objects) -> Result<MemSource, AllocError> {
    let fails = [with.read].to_vec(alloc)?;
    Ok(MemSource::new(input.to_vec(alloc)?, with.given.max(1), fails))
}

/// A sink of a call, which fails at this call of it.
fn sink(alloc: Global, with: Objects, call: u64) -> Result<MemSink, AllocError> {
    let fails = [call].to_vec(alloc)?;
    MemSink::new(alloc, with.room, with.taken.max(1), fails)
}

/// How a call ended whose sinks hold this.
fn ended_with(
    alloc: Global,
    status: Status,
    report: &[u8],
    message: &[u8],
) -> Result<Ended, AllocError> {
    let report = report.to_vec(alloc)?;
    let message = message.to_vec(alloc)?;
    Ok(Ended {
        status,
        report,
        message,
    })
}

/// A call over a source.
fn call_on(
    alloc: Global,
    words: &[String],
    src: &mut MemSource,
    with: Objects,
) -> Result<Ended, AllocError> {
    let mut out = sink(alloc, with, with.write)?;
    let mut err = sink(alloc, with, with.tell)?;
    let status = run(alloc, words, src, &mut out, &mut err);
    ended_with(alloc, status, out.held(), err.held())
}

/// A call over these objects.
pub fn call(alloc: Global, words: &str, input: &[u8], with: Objects) -> Result<Ended, AllocError> {
    let owned = words_of(alloc, words)?;
    let mut src = source(alloc, input, with)?;
    call_on(alloc, owned.as_slice(), &mut src, with)
}
