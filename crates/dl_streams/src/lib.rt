//! Where bytes come from and where they go to.
//!
//! A [`Source`] is read and a [`Sink`] is written, a piece at a time, and either may fail. Each has
//! a count of faults, which shows that a failure had its cause, and its bytes where they are known.
//! [`read_all`] and [`write_all`] are all that the rest of the program uses. [`MemSource`],
//! [`SteadySource`] and [`MemSink`] are over memory, for callers without an operating system and
//! for tests; [`StdSource`] and [`StdSink`] are over std's readers and writers.
//!
//! `read_all` gives exactly the bytes that were left, or says that there were too many, or that a
//! read failed, which has its cause. It asks for no more than it may take, and each of its reads
//! but the last gave some bytes, so that none follows the end of the input or a read that failed
//! (`reading`). `write_all` appends all bytes, or a proper prefix of them where a write failed, and
//! each write offers all that is left. Where nothing failed the counts of faults are as they were
//! (`steady`). The sources and sinks over memory fail exactly at the calls at which they are told
//! to. `StdSource` and `StdSink` move the bytes that std's reader and writer move, and count a
//! fault for each call that fails; that they make one call of these for each of their own is
//! tested.
#![tactic(auto)]

mod drop_sink;
mod memory;
mod schedule;
mod system;
mod whole;

ghost use Rattle.std.specs.Prelude.{◌≡◌, ℕ, ◌≤◌, List, [], Option, Result, OnErr, OnOk};
ghost use Rattle.std.specs.Io.{ReadsAtMost, WritesAtMost};
ghost use Rattle.std.specs.Io.KnownBytes.{ReadConsumes, WriteAppends};
ghost use Rattle.dl_streams.specs.Faults.{Rose};

pub use drop_sink::DropSink;
pub use memory::{MemSink, MemSource, SteadySource};
pub use system::{StdSink, StdSource};
use thiserror::Error;
pub use whole::{ReadEnd, WriteFault, read_all, write_all};

/// A failed read.
#[derive(Clone, Copy, Debug, PartialEq, Eq, Error)]
#[error("the read failed")]
pub struct ReadFailed;

/// A failed write.
#[derive(Clone, Copy, Debug, PartialEq, Eq, Error)]
#[error("the write failed")]
pub struct WriteFailed;

/// Where bytes come from.
pub trait Source {
    ghost use Rattle.dl_streams.specs.declared.ReadFailed.{ReadFailed};

    /// The bytes that are left, where they are known.
    ghost left: { Self → Option (List ℕ) };

    /// How many reads have failed: no other read changes it. It clings to the greatest `u64`.
    ghost faults: { Self → ℕ };

    /// What one read may do: the state before it, its result, the buffer after it, and the state
    /// after it.
    ghost read_step: { Self → Result ℕ ReadFailed → List ℕ → Self → Type 0 };

    /// Puts the next bytes at the front of `buf`, and says how many.
    ///
    /// `Ok(0)` for a buffer with room is the end of the input. After an `Err` the bytes left are
    /// what they were.
    fn read(&mut self, buf: &mut [u8]) -> Result<usize, ReadFailed>
        ensures bound { ReadsAtMost result buf.new }
        ensures bytes { ReadConsumes (left self.old) (left self.new) result buf.new }
        ensures step { read_step self.old result buf.new self.new }
        ensures later { faults self.old ≤ faults self.new }
        ensures steady { OnOk result (faults self.new ≡ faults self.old) }
        ensures cause { OnErr result (Rose (faults self.old) (faults self.new)) };
}

/// Where bytes go to.
pub trait Sink {
    ghost use Rattle.dl_streams.specs.declared.WriteFailed.{WriteFailed};

    /// The bytes that it holds, where they are known.
    ghost held: { Self → Option (List ℕ) };

    /// How many writes have failed: no other write changes it. It clings to the greatest `u64`.
    ghost faults: { Self → ℕ };

    /// What one write may do: the state before it, its result, the piece, and the state after it.
    ghost write_step: { Self → Result ℕ WriteFailed → List ℕ → Self → Type 0 };

    /// Appends the first bytes of `piece`, and says how many: none only of an empty piece.
    ///
    /// After an `Err` nothing was appended.
    fn write(&mut self, piece: &[u8]) -> Result<usize, WriteFailed>
        ensures bound { WritesAtMost result piece.now }
        ensures progress { result ≡ Ok 0 → piece.now ≡ [] }
        ensures bytes { WriteAppends (held self.old) (held self.new) result piece.now }
        ensures step { write_step self.old result piece.now self.new }
        ensures later { faults self.old ≤ faults self.new }
        ensures steady { OnOk result (faults self.new ≡ faults self.old) }
        ensures cause { OnErr result (Rose (faults self.old) (faults self.new)) };
}
