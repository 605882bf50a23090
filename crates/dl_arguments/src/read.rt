//! The words as settings.

ghost use Rattle.std.specs.Prelude.{◌≡◌, IfErr, IfOk, Ok, map};
ghost use Rattle.std.specs.String.{string_bytes};
ghost use Rattle.dl_arguments.specs.Faults.{Explains, IsClapRefusal};
ghost use Rattle.dl_arguments.specs.Words.{words_of};

use crate::command::simple_command;
use crate::fault::{UsageFault, WordsFault};
use crate::judge::judge;
use clap::error::ErrorKind;
use dl_plan::Settings;
use std::alloc::Global;

/// Reads the words, without the program's name. `Usage` has their first fault: `Line` where they do
/// not fit the command, else the first ask that is not spelled as one. Memory aside, the result is
/// the one of the words' definition, in which `clap` does not occur.
pub fn read_words(alloc: Global, words: &[String]) -> Result<Settings, WordsFault>
    ensures settings { IfOk result (λ settings.
        words_of (map string_bytes words.now) ≡ Ok settings) }
    ensures fault { IfErr result (Explains (words_of (map string_bytes words.now))) }
{
    let command = match simple_command(alloc) {
        Ok(command) => command,
        Err(_) => return Err(WordsFault::OutOfMemory),
    };
    match command.try_get_matches_from(words) {
        Ok(matches) => judge(alloc, &matches),
        Err(error) => Err(refusal(error.kind())),
    }
}

/// The fault behind a refusal by `clap`. A misfit of the words is never want of memory.
fn refusal(kind: ErrorKind) -> WordsFault
    ensures { IsClapRefusal kind result }
{
    match kind {
        ErrorKind::OutOfMemory => WordsFault::OutOfMemory,
        _ => WordsFault::Usage(UsageFault::Line),
    }
}
