//! The edge to std's readers and writers.

ghost use Rattle.std.specs.Prelude.{◌≡◌, ℕ, ◌≤◌, List, [], None, Option, OnErr, MatchResult};
ghost use Rattle.std.specs.Io.{ReadsAtMost, WritesAtMost};
ghost use Rattle.std.specs.Io.KnownBytes.{ReadConsumes, WriteAppends};
ghost use Rattle.dl_streams.specs.Faults.{Rose, next_count};

use crate::{ReadFailed, Sink, Source, WriteFailed};
use std::io::{Read, Write};

/// Any reader of std: one `read` a call, and a fault for each error. Its bytes are unknown.
///
/// All that std's `Read` says of a call is which bytes it took, where they are known, and that one
/// that failed took none. So no clause separates one read from two of which the first failed, or
/// gave less: tests count them.
#[derive(Drop)]
pub struct StdSource<R> {
    inner: R,
    faults: u64,
}

impl<R: Read> StdSource<R> {
    ghost use Rattle.dl_streams.specs.System.{source_reader, source_faults};

    /// A source over `inner`, with no fault so far.
    pub fn new(inner: R) -> Self
        ensures reader { source_reader result ≡ inner }
        ensures faults { source_faults result ≡ 0 }
    {
        StdSource { inner, faults: 0 }
    }

    /// How many reads have failed.
    pub fn faults(&self) -> u64
        ensures { result ≡ source_faults self.now }
    {
        self.faults
    }
}

impl<R: Read> Source for StdSource<R> {
    ghost use Rattle.dl_streams.specs.System.{source_reader, source_faults};

    ghost left = { λ _. None };

    ghost faults = { source_faults };

    ghost read_step = { λ old result buf new. ReadConsumes (R.remaining (source_reader old))
        (R.remaining (source_reader new)) result buf };

    fn read(&mut self, buf: &mut [u8]) -> Result<usize, ReadFailed>
        ensures bound { ReadsAtMost result buf.new }
        ensures bytes { ReadConsumes None None result buf.new }
        ensures later { source_faults self.old ≤ source_faults self.new }
        ensures cause { OnErr result (Rose (source_faults self.old) (source_faults self.new)) }

        // The reader gave these bytes, and a read that fails is one fault more.
        ensures reader { ReadConsumes (R.remaining (source_reader self.old))
            (R.remaining (source_reader self.new)) result buf.new }
        ensures faults { MatchResult result
            (λ _. source_faults self.new ≡ source_faults self.old)
            (λ _. source_faults self.new ≡ next_count (source_faults self.old)) }
    {
        match self.inner.read(buf) {
            Ok(count) => Ok(count),
            Err(_) => {
                self.faults = self.faults.saturating_add(1);
                Err(ReadFailed)
            }
        }
    }
}

/// Any writer of std: one `write` a call, and a fault for each error and for each piece of which
/// nothing is taken. Its bytes are unknown.
///
/// All that std's `Write` says of a call is which bytes it appended, where they are known, and that
/// one that failed appended none. So no clause separates one write from two of which the first
/// failed, or took less: tests count them.
#[derive(Drop)]
pub struct StdSink<W> {
    inner: W,
    faults: u64,
}

impl<W: Write> StdSink<W> {
    ghost use Rattle.dl_streams.specs.System.{sink_writer, sink_faults};

    /// A sink over `inner`, with no fault so far.
    pub fn new(inner: W) -> Self
        ensures writer { sink_writer result ≡ inner }
        ensures faults { sink_faults result ≡ 0 }
    {
        StdSink { inner, faults: 0 }
    }

    /// How many writes have failed.
    pub fn faults(&self) -> u64
        ensures { result ≡ sink_faults self.now }
    {
        self.faults
    }

    /// The writer.
    pub fn into_inner(self) -> W
        ensures { result ≡ sink_writer self }
    {
        self.inner
    }
}

impl<W: Write> Sink for StdSink<W> {
    ghost use Rattle.dl_streams.specs.System.{sink_writer, sink_faults};

    ghost held = { λ _. None };

    ghost faults = { sink_faults };

    ghost write_step = { λ old result piece new. WriteAppends (W.contents (sink_writer old))
        (W.contents (sink_writer new)) result piece };

    fn write(&mut self, piece: &[u8]) -> Result<usize, WriteFailed>
        ensures bound { WritesAtMost result piece.now }
        ensures progress { result ≡ Ok 0 → piece.now ≡ [] }
        ensures bytes { WriteAppends None None result piece.now }
        ensures later { sink_faults self.old ≤ sink_faults self.new }
        ensures cause { OnErr result (Rose (sink_faults self.old) (sink_faults self.new)) }

        // The writer took these bytes, and a write that fails is one fault more.
        ensures writer { WriteAppends (W.contents (sink_writer self.old))
            (W.contents (sink_writer self.new)) result piece.now }
        ensures faults { MatchResult result
            (λ _. sink_faults self.new ≡ sink_faults self.old)
            (λ _. sink_faults self.new ≡ next_count (sink_faults self.old)) }
    {
        match self.inner.write(piece) {
            Ok(count) if count > 0 || piece.is_empty() => Ok(count),
            _ => {
                self.faults = self.faults.saturating_add(1);
                Err(WriteFailed)
            }
        }
    }
}
