//! Sources and a sink over memory, which fail at chosen calls or never.

ghost use Rattle.std.specs.Prelude.{◌≡◌, ℕ, ◌+◌, ◌<◌, ◌≤◌, ◌⊎◌, ◌↔◌, List, [], Option, Some};
ghost use Rattle.std.specs.Prelude.{length, min, IsOk, IsErr, IfOk, OnErr, MatchResult};
ghost use Rattle.std.specs.Io.{ReadsAtMost, WritesAtMost};
ghost use Rattle.std.specs.Io.KnownBytes.{ReadConsumes, WriteAppends};
ghost use Rattle.dl_streams.specs.Faults.{Rose, no_calls, FailsNext, after_success, after_failure, IsCounted};

use crate::schedule::Schedule;
use crate::{ReadFailed, Sink, Source, WriteFailed};
use std::alloc::{AllocError, Global};
use std::marker::Model;

/// Bytes in memory, at most `piece` of them a read. It never fails.
#[derive(Drop)]
pub struct SteadySource {
    bytes: Vec<u8>,
    at: usize,
    piece: usize,
}

impl Model for SteadySource {
    ghost use Rattle.std.specs.Prelude.{◌<◌, ◌≤◌, drop, vec_len};
    ghost use Rattle.dl_streams.specs.Memory.{SteadyView};

    ghost Value = { SteadyView };

    ghost view = { λ s. record { left = drop s.at s.bytes.items; piece = s.piece } };

    ghost invariant = { λ s. (s.at ≤ vec_len s.bytes) × (0 < s.piece) };
}

impl SteadySource {
    /// A source of all of `bytes`.
    pub fn new(bytes: Vec<u8>, piece: usize) -> Self
        requires { 0 < piece }
        ensures left { result.left ≡ bytes.items }
        ensures piece { result.piece ≡ piece }
    {
        SteadySource {
            bytes,
            at: 0,
            piece,
        }
    }
}

impl Source for SteadySource {
    ghost left = { λ s. Some s.left };

    ghost faults = { λ _. 0 };

    ghost read_step = { λ old result buf new.
        ReadConsumes (Some old.left) (Some new.left) result buf };

    fn read(&mut self, buf: &mut [u8]) -> Result<usize, ReadFailed>
        ensures bound { ReadsAtMost result buf.new }
        ensures bytes { ReadConsumes (Some self.old.left) (Some self.new.left) result buf.new }

        // It never fails, and gives as much as a piece, the buffer and the bytes left allow.
        ensures ok { IsOk result }
        ensures count { IfOk result (λ n.
            n ≡ min (min self.old.piece (length buf.old)) (length self.old.left)) }
        ensures piece { self.new.piece ≡ self.old.piece }
    {
        let count = self.piece.min(buf.len()).min(self.bytes.len() - self.at);
        buf[..count].copy_from_slice(&self.bytes[self.at..self.at + count]);
        self.at += count;
        Ok(count)
    }
}

/// Bytes in memory, at most `piece` of them a read. It fails at chosen calls.
#[derive(Drop)]
pub struct MemSource {
    source: SteadySource,
    schedule: Schedule,
}

impl Model for MemSource {
    ghost use Rattle.dl_streams.specs.Memory.{SourceView};

    ghost Value = { SourceView };

    ghost view = { λ s.
        record { left = s.source.left; piece = s.source.piece; calls = s.schedule } };
}

impl MemSource {
    /// A source of all of `bytes`. The reads whose numbers, counted from 0, are in `fails` fail.
    pub fn new(bytes: Vec<u8>, piece: usize, fails: Vec<u64>) -> Self
        requires { 0 < piece }
        ensures left { result.left ≡ bytes.items }
        ensures piece { result.piece ≡ piece }
        ensures calls { result.calls ≡ no_calls fails.items }
    {
        MemSource {
            source: SteadySource::new(bytes, piece),
            schedule: Schedule::new(fails),
        }
    }
}

impl Source for MemSource {
    ghost left = { λ s. Some s.left };

    ghost faults = { λ s. s.calls.faults };

    ghost read_step = { λ old result buf new. ReadConsumes (Some old.left) (Some new.left)
        result buf × IsCounted result old.calls new.calls };

    fn read(&mut self, buf: &mut [u8]) -> Result<usize, ReadFailed>
        ensures bound { ReadsAtMost result buf.new }
        ensures bytes { ReadConsumes (Some self.old.left) (Some self.new.left) result buf.new }
        ensures later { self.old.calls.faults ≤ self.new.calls.faults }
        ensures cause { OnErr result (Rose self.old.calls.faults self.new.calls.faults) }

        // It fails exactly at the chosen calls, and else gives as much as a piece, the buffer and
        // the bytes left allow.
        ensures fails { IsErr result ↔ FailsNext self.old.calls }
        ensures count { IfOk result (λ n.
            n ≡ min (min self.old.piece (length buf.old)) (length self.old.left)) }
        ensures calls { MatchResult result
            (λ _. self.new.calls ≡ after_success self.old.calls)
            (λ _. self.new.calls ≡ after_failure self.old.calls) }
        ensures piece { self.new.piece ≡ self.old.piece }
    {
        if self.schedule.fails_next() {
            self.schedule.fail();
            return Err(ReadFailed);
        }
        self.schedule.succeed();
        self.source.read(buf)
    }
}

/// Bytes in memory that grow up to a given length, by at most `piece` of them a write. It fails at
/// chosen calls, and where it is full.
#[derive(Drop)]
pub struct MemSink {
    bytes: Vec<u8>,
    room: usize,
    piece: usize,
    schedule: Schedule,
}

impl Model for MemSink {
    ghost use Rattle.std.specs.Prelude.{◌-◌, ◌<◌, ◌≤◌, vec_len, vec_capacity};
    ghost use Rattle.dl_streams.specs.Memory.{SinkView};

    ghost Value = { SinkView };

    ghost view = { λ s. record {
      held = s.bytes.items;
      room = s.room - vec_len s.bytes;
      piece = s.piece;
      calls = s.schedule;
    } };

    ghost invariant = { λ s.
        (vec_len s.bytes ≤ s.room) × (s.room ≤ vec_capacity s.bytes) × (0 < s.piece) };
}

impl MemSink {
    /// An empty sink with room for `room` bytes. The writes whose numbers, counted from 0, are in
    /// `fails` fail.
    pub fn new(
        alloc: Global,
        room: usize,
        piece: usize,
        fails: Vec<u64>,
    ) -> Result<Self, AllocError>
        requires { 0 < piece }
        ensures held { IfOk result (λ sink. sink.held ≡ []) }
        ensures room { IfOk result (λ sink. sink.room ≡ room) }
        ensures piece { IfOk result (λ sink. sink.piece ≡ piece) }
        ensures calls { IfOk result (λ sink. sink.calls ≡ no_calls fails.items) }
    {
        let bytes = Vec::with_capacity(alloc, room)?;
        Ok(MemSink {
            bytes,
            room,
            piece,
            schedule: Schedule::new(fails),
        })
    }

    /// The bytes held.
    pub fn held(&self) -> &[u8]
        ensures { result.now ≡ self.now.held }
    {
        self.bytes.as_slice()
    }

    /// How many bytes of a piece one write takes: none only of an empty one, or where it is full.
    fn taken_of(&self, piece: &[u8]) -> usize
        ensures { result ≡ min (min self.now.piece (length piece.now)) self.now.room }
    {
        let room = self.room - self.bytes.len();
        self.piece.min(piece.len()).min(room)
    }
}

impl Sink for MemSink {
    ghost held = { λ s. Some s.held };

    ghost faults = { λ s. s.calls.faults };

    ghost write_step = { λ old result piece new. WriteAppends (Some old.held) (Some new.held)
        result piece × IsCounted result old.calls new.calls };

    fn write(&mut self, piece: &[u8]) -> Result<usize, WriteFailed>
        ensures bound { WritesAtMost result piece.now }
        ensures progress { result ≡ Ok 0 → piece.now ≡ [] }
        ensures bytes { WriteAppends (Some self.old.held) (Some self.new.held) result piece.now }
        ensures later { self.old.calls.faults ≤ self.new.calls.faults }
        ensures cause { OnErr result (Rose self.old.calls.faults self.new.calls.faults) }

        // It fails exactly at the chosen calls and where it is full, and else takes as much as a
        // piece and the room left allow.
        ensures fails { IsErr result
            ↔ (FailsNext self.old.calls ⊎ ((self.old.room ≡ 0) × (0 < length piece.now))) }
        ensures count { IfOk result (λ n.
            n ≡ min (min self.old.piece (length piece.now)) self.old.room) }
        ensures calls { MatchResult result
            (λ _. self.new.calls ≡ after_success self.old.calls)
            (λ _. self.new.calls ≡ after_failure self.old.calls) }
        ensures room { length self.new.held + self.new.room ≡ length self.old.held + self.old.room }
        ensures piece { self.new.piece ≡ self.old.piece }
    {
        let count = self.taken_of(piece);
        if self.schedule.fails_next() || (count == 0 && !piece.is_empty()) {
            self.schedule.fail();
            return Err(WriteFailed);
        }
        self.schedule.succeed();
        self.bytes.extend_from_slice(&piece[..count]).unwrap();
        Ok(count)
    }
}
