//! An input that never ends.

ghost use Rattle.std.specs.Prelude.{◌≡◌, None, Ok, length};
ghost use Rattle.std.specs.Io.{ReadsAtMost};
ghost use Rattle.std.specs.Io.KnownBytes.{ReadConsumes};

use dl_streams::{ReadEnd, ReadFailed, Source, read_all};
use std::test::Fail;

/// Blanks without end.
#[derive(Drop)]
struct Endless;

impl Source for Endless {
    ghost left = { λ _. None };

    ghost faults = { λ _. 0 };

    ghost read_step = { λ old result buf new. result ≡ Ok (length buf) };

    fn read(&mut self, buf: &mut [u8]) -> Result<usize, ReadFailed>
        ensures bound { ReadsAtMost result buf.new }
        ensures bytes { ReadConsumes None None result buf.new }
        ensures all { result ≡ Ok (length buf.new) }
    {
        buf.fill(b' ');
        Ok(buf.len())
    }
}

#[test]
fn stops_past_the_limit(rt: HostRuntime) -> Result<(), Fail> {
    let read = read_all(rt.alloc(), &mut Endless, 1_048_576);
    assert!(rt; matches!(read, Err(ReadEnd::TooLong)));
    Ok(())
}
