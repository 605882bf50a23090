//! A run of the program from its arguments to the number that it ends with.

ghost use Rattle.std.specs.Prelude.{◌≡◌, ◌≢◌, IfOk, IfErr, OnErr, drop, map};
ghost use Rattle.std.specs.Process.{exit_status};
ghost use Rattle.std.specs.IoError.{error_kind};
ghost use Rattle.std.specs.String.{string_bytes};
ghost use Rattle.std.specs.Vec.Iter.{into_iter_items};
ghost use Rattle.dl_top.specs.Statuses.{code_of};
ghost use Rattle.dl_top.specs.Runs.{Ran};

use crate::{Status, run};
use dl_streams::{Sink, Source};
use std::alloc::{AllocError, Global};
use std::env::Args;
use std::io::{self, ErrorKind};
use std::process::ExitCode;

/// The number where the words are no text; `run` never ends with it.
const NO_WORDS: u8 = 1;

/// The number for words that cannot be had: that of want of memory where there was none for them.
fn code_without_words(cause: ErrorKind) -> u8
    ensures memory { cause ≡ ErrorKind.OutOfMemory → result ≡ code_of Status.OutOfMemory }
    ensures other { cause ≢ ErrorKind.OutOfMemory → result ≡ 1 }
{
    match cause {
        ErrorKind::OutOfMemory => Status::OutOfMemory.code(),
        _ => NO_WORDS,
    }
}

/// The words of a call: the arguments behind the first, which is the program's name.
fn words_behind(alloc: Global, args: Args) -> Result<Vec<String>, AllocError>
    ensures { IfOk result (λ words. words.items ≡ drop 1 (into_iter_items args)) }
{
    let mut args = args;
    let _name = args.next();
    let mut words = Vec::new(alloc);
    for word in args {
        words.push(word)?;
    }
    Ok(words)
}

/// Runs the program with these arguments, of which the first is its name: the number that it ends
/// with. Where the system gives no arguments, that is the number of want of memory, or 1.
pub fn run_with_arguments<R: Source, O: Sink, E: Sink>(
    alloc: Global,
    args: io::Result<Args>,
    src: &mut R,
    out: &mut O,
    err: &mut E,
) -> ExitCode
    // The words are the arguments behind the first, the number is that of a status, and all that
    // `run` promises holds of these words and that status.
    ensures ran { IfOk args (λ given. (status : Status) × (exit_status result ≡ code_of status)
        × Ran R.left R.faults R.read_step O.held O.faults E.held E.faults
        (map string_bytes (drop 1 (into_iter_items given)))
        src.old src.new out.old out.new err.old err.new status) }

    // Where the system gives no arguments, nothing is read or written.
    ensures memory { IfErr args (λ error. error_kind error ≡ ErrorKind.OutOfMemory
        → exit_status result ≡ code_of Status.OutOfMemory) }
    ensures no_text { IfErr args (λ error. error_kind error ≢ ErrorKind.OutOfMemory
        → exit_status result ≡ 1) }
    ensures untouched { OnErr args
        ((src.new ≡ src.old) × (out.new ≡ out.old) × (err.new ≡ err.old)) }
{
    let args = match args {
        Ok(args) => args,
        Err(error) => return ExitCode::from(code_without_words(error.kind())),
    };
    let Ok(words) = words_behind(alloc, args) else {
        return ExitCode::from(Status::OutOfMemory.code());
    };
    let status = run(alloc, words.as_slice(), src, out, err);
    ExitCode::from(status.code())
}
