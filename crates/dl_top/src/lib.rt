//! The top call: from the words and the bytes read to the bytes written.
//!
//! [`run`] writes a report about one program for the asks of its words, or that program in its
//! canonical form, or a certificate of its total, or whether the steps behind it are one. The
//! program is what the source has left, or a generated one ([`made`]). The output is composed in
//! memory first, and goes to one of two sinks: what was asked for to the one, the text of a fault
//! to the other. [`run_with_arguments`] calls it with the words among the program's arguments, and
//! gives the number of its status.
//!
//! Beside `run` and `run_with_arguments`, `fault_text` and `made` are exact, and `Status::code` is
//! the number of a status.
#![tactic(auto)]

mod arguments;
mod evaluation;
mod fault;
mod generator;
mod law;
mod number;
mod parts;
mod reply;
mod status;

ghost use Rattle.std.specs.Prelude.{◌≡◌, ◌≢◌, ◌+◌, ◌⊎◌, ℕ, List, [], Err, IfSome, map};
ghost use Rattle.std.specs.Io.KnownBytes.{Appends};
ghost use Rattle.std.specs.String.{string_bytes};
ghost use Rattle.dl_streams.specs.Prelude.{Rose, TakesAtMost, AppendsPartOf, Reading};
ghost use Rattle.dl_arguments.specs.declared.fault.UsageFault.{UsageFault};
ghost use Rattle.dl_arguments.specs.Words.{words_of};
ghost use Rattle.dl_top.specs.Faults.{fault_line};
ghost use Rattle.dl_top.specs.Statuses.{IsWritten, IsRefusal, IsUsageEnd, IsAnswerEnd};
ghost use Rattle.dl_top.specs.Inputs.{HasFault, MakeText, ReadText, input_of, limit_for};
ghost use Rattle.dl_top.specs.Answers.{IsAccepted, HasForm, IsCertifiable, IsVerifiable};
ghost use Rattle.dl_top.specs.Runs.{Answered, PartOfReport, PartOfMessage};

use crate::reply::{Reply, reply_to};
pub use arguments::run_with_arguments;
use dl_streams::{Sink, Source, write_all};
pub use fault::{Fault, fault_text};
pub use generator::made;
pub use law::{law_rows_determined, law_written_verifies};
pub use status::Status;
use std::alloc::Global;

/// Writes a report, a canonical text, a certificate or `verified`, as the words ask, of the program
/// that they generate or that the source has left. What was asked for goes to `out`, and the text
/// of a fault to `err`.
pub fn run<R: Source, O: Sink, E: Sink>(
    alloc: Global,
    words: &[String],
    src: &mut R,
    out: &mut O,
    err: &mut E,
) -> Status
    // Where the words generate the program or the source's bytes are known, the output follows from
    // words and input: a report in which each interval holds the declared value, each bracket the
    // declared quantile, and each is as narrow as asked; or the canonical text; or a certificate of
    // the total; or that the steps behind the program are one, whose grid encloses the total; or
    // the first fault, with the width that is needed where that is it.
    ensures answer { IfSome (input_of (map string_bytes words.now) (R.left src.old))
        (λ input. IsWritten result →
        Answered (map string_bytes words.now) input result
        (O.held out.old) (O.held out.new) (E.held err.old) (E.held err.new)) }

    // Words that ask, and a program that breaks no rule and admits the asks, end in a report.
    ensures complete { IfSome (input_of (map string_bytes words.now) (R.left src.old)) (λ input.
        IsAccepted (map string_bytes words.now) input → IsAnswerEnd result) }

    // Words that want the canonical form, and a text that spells a program, end in that form.
    ensures formatted { IfSome (input_of (map string_bytes words.now) (R.left src.old)) (λ input.
        HasForm (map string_bytes words.now) input → IsAnswerEnd result) }

    // Words that want a certificate, and a text that spells a covered program that breaks no rule,
    // end in one. Words that want steps checked, such a program, a line `---` and steps that
    // certify it end in `verified`.
    ensures certified { IfSome (input_of (map string_bytes words.now) (R.left src.old)) (λ input.
        IsCertifiable (map string_bytes words.now) input → IsAnswerEnd result) }
    ensures verified { IfSome (input_of (map string_bytes words.now) (R.left src.old)) (λ input.
        IsVerifiable (map string_bytes words.now) input → IsAnswerEnd result) }

    // One sink is written at most, and the other stays as it was.
    ensures done { result ≡ Status.Done → err.new ≡ err.old }
    ensures refused { IsRefusal result → out.new ≡ out.old }
    ensures memory { result ≡ Status.OutOfMemory → (out.new ≡ out.old) × (err.new ≡ err.old) }

    // A fault of the words comes from the words alone, and the source is not read. Its text is
    // written, whole, or in part where the write failed.
    ensures usage { result ≡ Status.Usage → HasFault (map string_bytes words.now) }
    ensures unread { HasFault (map string_bytes words.now)
        → IsUsageEnd result × (src.new ≡ src.old) }
    ensures usage_text { (fault : UsageFault) → words_of (map string_bytes words.now) ≡ Err fault
        → result ≡ Status.Usage
        → Appends (E.held err.old) (E.held err.new) (fault_line (Fault.Usage fault) [] []) }
    ensures usage_part { (fault : UsageFault) → words_of (map string_bytes words.now) ≡ Err fault
        → result ≡ Status.WriteFault → (out.new ≡ out.old)
        × AppendsPartOf (E.held err.old) (E.held err.new) (fault_line (Fault.Usage fault) [] []) }

    // Where the program is generated the source is not read. Of a longer input than an input may
    // be, one byte more is taken. Each read but the last gave some bytes: none follows the end of
    // the input or a read that failed.
    ensures made { MakeText (map string_bytes words.now)
        → (src.new ≡ src.old) × (result ≢ Status.ReadFault) }
    ensures taken { TakesAtMost (R.left src.old) (R.left src.new)
        (limit_for (map string_bytes words.now) + 1) }
    ensures reading { Reading R.read_step src.old
        (limit_for (map string_bytes words.now) + 1) src.new }

    // A failed read has its cause, and its message is written.
    ensures read_cause { result ≡ Status.ReadFault → Rose (R.faults src.old) (R.faults src.new) }
    ensures read_words { result ≡ Status.ReadFault → ReadText (map string_bytes words.now) }
    ensures read_text { result ≡ Status.ReadFault →
        Appends (E.held err.old) (E.held err.new) (fault_line Fault.Read [] []) }

    // A failed write has its cause: one sink holds a part of the output, and the other is as it
    // was.
    ensures write_cause { result ≡ Status.WriteFault →
        (Rose (O.faults out.old) (O.faults out.new) × (err.new ≡ err.old)
        × IfSome (input_of (map string_bytes words.now) (R.left src.old)) (λ input.
        PartOfReport (map string_bytes words.now) input (O.held out.old) (O.held out.new)))
        ⊎ (Rose (E.faults err.old) (E.faults err.new) × (out.new ≡ out.old)
        × IfSome (input_of (map string_bytes words.now) (R.left src.old)) (λ input.
        PartOfMessage (map string_bytes words.now) input
        (Rose (R.faults src.old) (R.faults src.new)) (E.held err.old) (E.held err.new))) }
{
    match reply_to(alloc, words, src) {
        Reply::Answer(text) => match write_all(out, text.as_slice()) {
            Ok(()) => Status::Done,
            Err(_) => Status::WriteFault,
        },
        Reply::Refusal(fault, text) => match write_all(err, text.as_slice()) {
            Ok(()) => fault.status(),
            Err(_) => Status::WriteFault,
        },
        Reply::OutOfMemory => Status::OutOfMemory,
    }
}
