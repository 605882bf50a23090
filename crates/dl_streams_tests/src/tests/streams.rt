//! Whole reads and whole writes over memory and over std's readers and writers, worked by hand.

use dl_streams::{
    DropSink, MemSink, MemSource, ReadEnd, Sink, Source, StdSink, StdSource, SteadySource,
    read_all, write_all,
};
use std::alloc::Global;
use std::io::{self, Read, Write};
use std::test::Fail;

/// A whole read: the bytes, the piece, the call that fails, the limit, the result as a text,
/// and the bytes that are left then.
type ReadCase = (&'static [u8], usize, u64, u16, &'static [u8], &'static [u8]);

const READS: [ReadCase; 10] = [
    (b"", 1, 9, 4, b"", b""),
    (b"abcd", 1, 9, 4, b"abcd", b""),
    (b"abcd", 9, 9, 4, b"abcd", b""),
    (b"abcde", 2, 5, 9, b"abcde", b""),
    (b"abcde", 1, 9, 4, b"too long", b""),
    (b"abcdefg", 3, 9, 4, b"too long", b"fg"),
    (b"a", 3, 9, 0, b"too long", b""),
    (b"abcde", 2, 0, 9, b"fault", b"abcde"),
    (b"abcde", 2, 1, 9, b"fault", b"cde"),
    (b"abcde", 2, 3, 9, b"fault", b""),
];

/// A whole write: the room, the piece, the call that fails, the bytes, whether all are written, and
/// what is held then.
type WriteCase = (usize, usize, u64, &'static [u8], bool, &'static [u8]);

const WRITES: [WriteCase; 9] = [
    (0, 1, 9, b"", true, b""),
    (10, 1, 10, b"abcdefghij", true, b"abcdefghij"),
    (64, 99, 1, b"abcdefghij", true, b"abcdefghij"),
    (64, 7, 2, b"abcdefghij", true, b"abcdefghij"),
    (64, 7, 1, b"abcdefghij", false, b"abcdefg"),
    (64, 7, 0, b"abcdefghij", false, b""),
    (64, 7, 0, b"", true, b""),
    (9, 4, 9, b"abcdefghij", false, b"abcdefghi"),
    (0, 4, 9, b"a", false, b""),
];

/// The bytes that a read gave, or in words why there are none.
fn bytes_of(read: &Result<Vec<u8>, ReadEnd>) -> &[u8] {
    match read {
        Ok(bytes) => bytes.as_slice(),
        Err(ReadEnd::Fault) => b"fault",
        Err(ReadEnd::TooLong) => b"too long",
        Err(ReadEnd::OutOfMemory) => b"out of memory",
    }
}

/// The source of a case.
fn source_of(alloc: Global, case: &ReadCase) -> Result<MemSource, Fail> {
    let fails = [case.2].to_vec(alloc)?;
    Ok(MemSource::new(case.0.to_vec(alloc)?, case.1.max(1), fails))
}

/// Whether the read of a case gives its result, and leaves what it should.
fn is_read(alloc: Global, mut source: MemSource, case: &ReadCase) -> bool {
    let &(_, _, _, limit, wanted, left) = case;
    let first = read_all(alloc, &mut source, limit as usize);
    bytes_of(&first) == wanted && bytes_of(&read_all(alloc, &mut source, 9)) == left
}

/// The sink of a case.
fn sink_of(alloc: Global, case: &WriteCase) -> Result<MemSink, Fail> {
    let fails = [case.2].to_vec(alloc)?;
    Ok(MemSink::new(alloc, case.0, case.1.max(1), fails)?)
}

/// Whether the write of a case ends as it should, and its sink holds what it should.
fn is_written(mut sink: MemSink, case: &WriteCase) -> bool {
    let &(_, _, _, bytes, all, held) = case;
    write_all(&mut sink, bytes).is_ok() == all && sink.held() == held
}

#[test]
fn reads_whole_inputs(rt: HostRuntime) -> Result<(), Fail> {
    for case in &READS {
        let source = source_of(rt.alloc(), case)?;
        assert!(rt; is_read(rt.alloc(), source, case));
    }
    Ok(())
}

#[test]
fn reads_a_steady_input(rt: HostRuntime) -> Result<(), Fail> {
    let mut steady = SteadySource::new(b"abcde".to_vec(rt.alloc())?, 2);
    assert!(rt; bytes_of(&read_all(rt.alloc(), &mut steady, 5)) == b"abcde".as_slice());
    Ok(())
}

#[test]
fn writes_whole_texts(rt: HostRuntime) -> Result<(), Fail> {
    for case in &WRITES {
        let sink = sink_of(rt.alloc(), case)?;
        assert!(rt; is_written(sink, case));
    }
    Ok(())
}

#[test]
fn writes_to_no_one(rt: HostRuntime) {
    assert!(rt; write_all(&mut DropSink::new(), b"abc").is_ok());
}

/// A reader that fails and a writer that is full.
#[derive(Drop)]
struct Broken;

impl Read for Broken {
    fn read(&mut self, _buf: &mut [u8]) -> io::Result<usize> {
        Err(io::Error::from(io::ErrorKind::BrokenPipe))
    }
}

impl Write for Broken {
    fn write(&mut self, _buf: &[u8]) -> io::Result<usize> {
        Ok(0)
    }

    fn flush(&mut self) -> io::Result<()> {
        Ok(())
    }
}

#[test]
fn sources_stand_over_std(rt: HostRuntime) {
    let mut source = StdSource::new(b"abc".as_slice());
    assert!(rt; bytes_of(&read_all(rt.alloc(), &mut source, 3)) == b"abc".as_slice());
    assert!(rt; source.faults() == 0);
}

#[test]
fn broken_sources_fail(rt: HostRuntime) {
    let mut broken = StdSource::new(Broken);
    assert!(rt; bytes_of(&read_all(rt.alloc(), &mut broken, 3)) == b"fault".as_slice());
    assert!(rt; broken.faults() == 1);
}

#[test]
fn sinks_stand_over_std(rt: HostRuntime) {
    let mut sink = StdSink::new(Vec::new(rt.alloc()));
    assert!(rt; write_all(&mut sink, b"abc").is_ok());
    assert!(rt; write_all(&mut sink, b"de").is_ok());
    assert!(rt; sink.faults() == 0);
    assert!(rt; sink.into_inner().as_slice() == b"abcde".as_slice());
}

#[test]
fn full_sinks_fail(rt: HostRuntime) {
    let mut full = StdSink::new(Broken);
    assert!(rt; full.write(b"") == Ok(0));
    assert!(rt; write_all(&mut full, b"a").is_err());
    assert!(rt; full.faults() == 1);
}

/// A reader and a writer whose first call fails, whose second moves nothing, and which work from
/// the third on: a read gives the number of its call, and a write takes all.
#[derive(Drop)]
struct Faltering {
    calls: u8,
}

impl Faltering {
    /// The number of the call that begins, counted from 1, or the error of the first.
    fn call(&mut self) -> io::Result<u8> {
        self.calls = self.calls.saturating_add(1);
        if self.calls == 1 {
            return Err(io::Error::from(io::ErrorKind::Interrupted));
        }
        Ok(self.calls)
    }
}

impl Read for Faltering {
    fn read(&mut self, buf: &mut [u8]) -> io::Result<usize> {
        let number = self.call()?;
        if number == 2 || buf.is_empty() {
            return Ok(0);
        }
        buf[0] = number;
        Ok(1)
    }
}

impl Write for Faltering {
    fn write(&mut self, buf: &[u8]) -> io::Result<usize> {
        let number = self.call()?;
        Ok(if number == 2 { 0 } else { buf.len() })
    }

    fn flush(&mut self) -> io::Result<()> {
        Ok(())
    }
}

#[test]
fn a_source_reads_once_a_call(rt: HostRuntime) {
    let mut source = StdSource::new(Faltering { calls: 0 });
    let mut buf = [0u8; 4];
    assert!(rt; source.read(&mut buf).is_err());
    assert!(rt; source.faults() == 1);
    assert!(rt; source.read(&mut buf) == Ok(0));
    assert!(rt; source.read(&mut buf) == Ok(1));
    assert!(rt; buf == [3, 0, 0, 0]);
    assert!(rt; source.faults() == 1);
}

#[test]
fn a_sink_writes_once_a_call(rt: HostRuntime) {
    let mut sink = StdSink::new(Faltering { calls: 0 });
    assert!(rt; sink.write(b"ab").is_err());
    assert!(rt; sink.faults() == 1);
    assert!(rt; sink.write(b"ab").is_err());
    assert!(rt; sink.faults() == 2);
    assert!(rt; sink.write(b"ab") == Ok(2));
    assert!(rt; sink.faults() == 2);
    assert!(rt; sink.into_inner().calls == 3);
}
