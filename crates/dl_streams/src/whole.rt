//! A whole input read, and a whole text written.

ghost use Rattle.std.specs.Prelude.{◌≡◌, ◌≢◌, ℕ, ◌+◌, ◌^◌, ◌≤◌, ◌<◌, List, [], ◌++◌, take, Option};
ghost use Rattle.std.specs.Prelude.{Some, Result, length, vec_len, Ok, Err, OnErr, OnOk, IfOk};
ghost use Rattle.std.specs.Prelude.{IfSome, IsErrOf};
ghost use Rattle.std.specs.Io.KnownBytes.{Consumes, IsAtEnd, Appends, Keeps};
ghost use Rattle.dl_streams.specs.Faults.{Rose};
ghost use Rattle.dl_streams.specs.Bytes.{Takes, TakesAtMost, AppendsPartOf};
ghost use Rattle.dl_streams.specs.Steps.{FailedWrite, LastRead, Reading, Reads, Writes};
ghost use Rattle.dl_streams.specs.declared.ReadFailed.{ReadFailed};

use crate::{Sink, Source};
use std::alloc::Global;
use thiserror::Error;

/// Why an input was not read to its end.
#[derive(Clone, Copy, Debug, PartialEq, Eq, Error)]
pub enum ReadEnd {
    /// A read failed.
    #[error("the input could not be read")]
    Fault,
    /// The input has more bytes than the limit.
    #[error("the input is too long")]
    TooLong,
    /// There was no memory for the bytes.
    #[error("out of memory")]
    OutOfMemory,
}

/// A write failed before all bytes were written.
#[derive(Clone, Copy, Debug, PartialEq, Eq, Error)]
#[error("the output could not be written")]
pub struct WriteFault;

/// The most bytes that one read asks for.
const CHUNK: usize = 4096;

/// Reads once into `chunk`, and appends what came.
fn read_more<R: Source>(
    src: &mut R,
    bytes: &mut Vec<u8>,
    chunk: &mut [u8],
) -> Result<usize, ReadEnd>
    ensures count { IfOk result (λ n. vec_len bytes.new ≡ vec_len bytes.old + n) }
    ensures bound { IfOk result (λ n. n ≤ length chunk.old) }
    ensures bytes { OnOk result ((all : Option (List ℕ)) →
        Consumes all (R.left src.old) bytes.old.items
        → Consumes all (R.left src.new) bytes.new.items) }
    ensures end { IfOk result (λ n. n ≡ 0 → 0 < length chunk.old → IsAtEnd (R.left src.new)) }
    ensures kept { IsErrOf result ReadEnd.Fault → Keeps (R.left src.old) (R.left src.new) }
    ensures taken { TakesAtMost (R.left src.old) (R.left src.new) (length chunk.old) }
    ensures later { R.faults src.old ≤ R.faults src.new }
    ensures fault { IsErrOf result ReadEnd.Fault → Rose (R.faults src.old) (R.faults src.new) }
    ensures steady { result ≢ Err ReadEnd.Fault → R.faults src.new ≡ R.faults src.old }
    ensures room { length chunk.new ≡ length chunk.old }
    ensures called { (answer : Result ℕ ReadFailed)
        × R.read_step src.old answer chunk.new src.new }
    ensures step { IfOk result (λ n. R.read_step src.old (Ok n) chunk.new src.new) }
    ensures given { IfOk result (λ n. bytes.new.items ≡ bytes.old.items ++ take n chunk.new) }
    ensures failed { IsErrOf result ReadEnd.Fault
        → R.read_step src.old (Err (record {})) chunk.new src.new }
    ensures no_other { result ≢ Err ReadEnd.TooLong }
{
    let count = match src.read(chunk) {
        Ok(count) => count,
        Err(_) => return Err(ReadEnd::Fault),
    };
    match bytes.extend_from_slice(&chunk[..count]) {
        Ok(()) => Ok(count),
        Err(_) => Err(ReadEnd::OutOfMemory),
    }
}

/// Reads until the end of the input, or until `limit + 1` bytes were taken.
///
/// Bytes that were taken before an error are lost. `OutOfMemory` may come at any read.
pub fn read_all<R: Source>(alloc: Global, src: &mut R, limit: usize) -> Result<Vec<u8>, ReadEnd>
    requires { limit < 2 ^ 31 }

    // `Ok` comes only at the end, with all that was left.
    ensures whole { IfOk result (λ bytes. IfSome (R.left src.old) (λ left. bytes.items ≡ left)) }
    ensures within { IfOk result (λ bytes. vec_len bytes ≤ limit) }
    ensures end { OnOk result (IsAtEnd (R.left src.new)) }

    // `TooLong` comes where `limit + 1` bytes were taken, and `Fault` before.
    ensures too_long { IsErrOf result ReadEnd.TooLong
        → Takes (R.left src.old) (R.left src.new) (limit + 1) }
    ensures before { IsErrOf result ReadEnd.Fault
        → TakesAtMost (R.left src.old) (R.left src.new) limit }
    ensures taken { TakesAtMost (R.left src.old) (R.left src.new) (limit + 1) }

    // No read follows one that gave nothing or failed, and none has room for more than is wanted,
    // whatever the result is. `record {}` is the one error that a read has.
    ensures reading { Reading R.read_step src.old (limit + 1) src.new }
    ensures ended { IfOk result (λ bytes.
        LastRead R.read_step src.old (limit + 1) bytes.items (Ok 0) src.new) }
    ensures full { IsErrOf result ReadEnd.TooLong → ((bytes : List ℕ)
        × (length bytes ≡ limit + 1) × Reads R.read_step src.old (limit + 1) bytes src.new) }
    ensures failed { IsErrOf result ReadEnd.Fault → ((bytes : List ℕ)
        × LastRead R.read_step src.old (limit + 1) bytes (Err (record {})) src.new) }

    // A fault has its cause, and a read that failed gives a fault: no other result hides one.
    ensures later { R.faults src.old ≤ R.faults src.new }
    ensures fault { IsErrOf result ReadEnd.Fault → Rose (R.faults src.old) (R.faults src.new) }
    ensures steady { result ≢ Err ReadEnd.Fault → R.faults src.new ≡ R.faults src.old }
{
    let mut bytes = Vec::new(alloc);
    let mut chunk = [0u8; CHUNK];
    'reading: while bytes.len() <= limit {
        let room = (limit + 1 - bytes.len()).min(CHUNK);
        if read_more(src, &mut bytes, &mut chunk[..room])? == 0 {
            return Ok(bytes);
        }
    }
    Err(ReadEnd::TooLong)
}

/// Appends all of `bytes`. Each write offers all that are left, at least one.
pub fn write_all<K: Sink>(sink: &mut K, bytes: &[u8]) -> Result<(), WriteFault>
    ensures whole { OnOk result (Appends (K.held sink.old) (K.held sink.new) bytes.now) }
    ensures part { OnErr result (AppendsPartOf (K.held sink.old) (K.held sink.new) bytes.now) }
    ensures offered { OnOk result
        (Writes K.write_step sink.old bytes.now (length bytes.now) sink.new) }
    ensures failed { OnErr result (FailedWrite K.write_step sink.old bytes.now sink.new) }
    ensures unused { bytes.now ≡ [] → sink.new ≡ sink.old }
    ensures later { K.faults sink.old ≤ K.faults sink.new }
    ensures steady { OnOk result (K.faults sink.new ≡ K.faults sink.old) }
    ensures fault { OnErr result (Rose (K.faults sink.old) (K.faults sink.new)) }
{
    let mut done = 0;
    'writing: while done < bytes.len() {
        match sink.write(&bytes[done..]) {
            Ok(count) => done += count,
            Err(_) => return Err(WriteFault),
        }
    }
    Ok(())
}
