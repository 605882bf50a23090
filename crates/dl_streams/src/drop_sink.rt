//! A sink that keeps nothing.

ghost use Rattle.std.specs.Prelude.{◌≡◌, ℕ, ◌≤◌, List, [], None, Option, length, Ok, OnErr};
ghost use Rattle.std.specs.Io.{WritesAtMost};
ghost use Rattle.std.specs.Io.KnownBytes.{WriteAppends};

use crate::{Sink, WriteFailed};

/// Takes all bytes and keeps none. It never fails.
#[derive(Clone, Copy, Debug, Default, PartialEq, Eq)]
pub struct DropSink;

impl DropSink {
    /// A sink that keeps nothing.
    pub fn new() -> Self {
        DropSink
    }
}

impl Sink for DropSink {
    ghost held = { λ _. None };

    ghost faults = { λ _. 0 };

    ghost write_step = { λ old result piece new. result ≡ Ok (length piece) };

    fn write(&mut self, piece: &[u8]) -> Result<usize, WriteFailed>
        ensures bound { WritesAtMost result piece.now }
        ensures progress { result ≡ Ok 0 → piece.now ≡ [] }
        ensures bytes { WriteAppends None None result piece.now }
        ensures all { result ≡ Ok (length piece.now) }
    {
        Ok(piece.len())
    }
}
