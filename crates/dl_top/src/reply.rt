//! The reply, before any of it is written.

ghost use Rattle.std.specs.Prelude.{◌≡◌, ℕ, ◌+◌, ◌≤◌, List, [], None, Err, codes, IfSome, IfOk, map, length};
ghost use Rattle.dl_top.specs.Replies.{IsReply, IsRefusalOf, IsUsage, IsReadFault, IsOfText, IfAnswer, AreReady, HasParts};
ghost use Rattle.dl_top.specs.Faults.{IsInSource};
ghost use Rattle.std.specs.String.{string_bytes};
ghost use Rattle.dl_arguments.specs.declared.fault.UsageFault.{UsageFault};
ghost use Rattle.dl_lexer.specs.Cutting.{Covers};
ghost use Rattle.dl_plan.specs.declared.settings.Settings.{Settings};
ghost use Rattle.dl_plan.specs.Prelude.{IsOfCert, IsOfPlan, IsValid};
ghost use Rattle.dl_top.specs.Answers.{Asks, Formats, Certifies, Verifies, SpellsProgram, HasPlan};
ghost use Rattle.dl_limits.specs.Limits.{most_digits, most_text, most_cert_cells, most_steps_text};
ghost use Rattle.dl_top.specs.Inputs.{Say, HasFault, MakeText, ReadText, input_of, limit_of, limit_for, steps_of};
ghost use Rattle.dl_streams.specs.Prelude.{Rose, TakesAtMost, Reading};
ghost use Rattle.dl_top.specs.Reports.{written};
ghost use Rattle.dl_top.specs.Made.{made_of};
ghost use Rattle.dl_arguments.specs.Words.{words_of};
ghost use Rattle.dl_ast.specs.WellFormed.{IsWellFormed};
ghost use Rattle.dl_parser.specs.Within.{AllInside};
ghost use Rattle.dl_report.specs.Objects.{AsksAreText};
ghost use Rattle.dl_answers.specs.Answers.{IsAnswered};

use crate::evaluation::evaluate;
use crate::fault::{Fault, fault_text};
use crate::generator::made;
use crate::parts::{limit_of, parts_of};
use dl_answers::EvalFault;
use dl_arguments::{WordsFault, read_words};
use dl_ast::Program;
use dl_cert::{CertFault, VerifyFault, certify, verify};
use dl_lexer::{LexFault, Token, lex};
use dl_limits::MOST_TEXT;
use dl_parser::{ParseFault, parse};
use dl_plan::{Form, Format, Plan, Settings};
use dl_printer::print;
use dl_report::{Report, csv, json, text};
use dl_rules::{CheckFault, check};
use dl_streams::{ReadEnd, Source, read_all};
use std::alloc::{AllocError, Global};

/// What is to be written.
#[derive(Drop)]
pub enum Reply {
    /// What was asked for, for the output: a report, a canonical text, a certificate, or that one
    /// is verified.
    Answer(Vec<u8>),
    /// The text of a fault, for the output of faults.
    Refusal(Fault, Vec<u8>),
    /// Nothing: there was no memory for it.
    OutOfMemory,
}

/// The refusal with the text of a fault.
fn refusal(alloc: Global, fault: Fault, source: &[u8], tokens: &[Token]) -> Reply
    requires short { length source.now ≤ most_text }
    requires in_source { IsInSource fault source.now }
    requires inside { AllInside source.now tokens.now }
    ensures { IsRefusalOf result fault source.now tokens.now }
{
    match fault_text(alloc, &fault, source, tokens) {
        Ok(text) => Reply::Refusal(fault, text),
        Err(_) => Reply::OutOfMemory,
    }
}

/// The report in the form that the settings name.
fn in_form(
    alloc: Global,
    report: &Report,
    plan: &Plan,
    settings: &Settings,
) -> Result<Vec<u8>, AllocError>
    requires digits { report.now.digits ≤ most_digits }
    requires asks { AsksAreText report.now }
    ensures { IfOk result (λ text. text.items ≡ written settings.now.format plan.now report.now) }
{
    match settings.format {
        Format::Plain => text(alloc, report),
        Format::Csv => csv(alloc, report),
        Format::Json => json(alloc, report, plan.bs, plan.cells),
    }
}

/// A report in the form that the settings name.
fn reported(alloc: Global, report: &Report, plan: &Plan, settings: &Settings) -> Reply
    requires settings { AreReady settings.now }
    requires answered { IsAnswered plan.now settings.now report.now }
    ensures reply { (words : List (List ℕ)) (input : List ℕ) → Asks words settings.now
        → HasPlan input settings.now plan.now → IsReply words input result }
    ensures of_text { IsOfText result }
{
    match in_form(alloc, report, plan, settings) {
        Ok(text) => Reply::Answer(text),
        Err(_) => Reply::OutOfMemory,
    }
}

/// The reply to the asks about a plan: its report.
fn reply_to_asks(alloc: Global, settings: &Settings, plan: &Plan) -> Reply
    requires settings { AreReady settings.now }
    requires valid { IsValid plan.now }
    ensures reply { (words : List (List ℕ)) (input : List ℕ) → Asks words settings.now
        → HasPlan input settings.now plan.now → IsReply words input result }
    ensures of_text { IsOfText result }
{
    match evaluate(alloc, plan, settings) {
        Ok(report) => reported(alloc, &report, plan, settings),
        Err(EvalFault::AskBeyond(ask)) => refusal(alloc, Fault::AskBeyond(ask), &[], &[]),
        Err(EvalFault::UnknownUnit(ask)) => refusal(alloc, Fault::UnknownUnit(ask), &[], &[]),
        Err(EvalFault::NoShare(ask)) => refusal(alloc, Fault::NoShare(ask), &[], &[]),
        Err(EvalFault::TooWide(ask, width)) => {
            refusal(alloc, Fault::TooWide(ask, width), &[], &[])
        }
        Err(EvalFault::OutOfMemory) => Reply::OutOfMemory,
    }
}

/// A certificate of the total of a plan.
fn certified(alloc: Global, plan: &Plan) -> Reply
    requires valid { IsValid plan.now }
    requires few { plan.now.cells ≤ most_cert_cells }
    ensures reply { (words : List (List ℕ)) (input : List ℕ) (settings : Settings)
        → Certifies words settings → HasPlan input settings plan.now
        → IsReply words input result }
    ensures of_text { IsOfText result }
{
    match certify(alloc, plan) {
        Ok(steps) => Reply::Answer(steps),
        Err(CertFault::NotCovered(unit)) => refusal(alloc, Fault::NotCovered(unit), &[], &[]),
        Err(CertFault::OutOfMemory) => Reply::OutOfMemory,
    }
}

/// The word that says that steps are verified.
fn verified_word(alloc: Global) -> Reply
    ensures { IfAnswer result (codes "verified\n") }
{
    match b"verified\n".to_vec(alloc) {
        Ok(word) => Reply::Answer(word),
        Err(_) => Reply::OutOfMemory,
    }
}

/// Whether these steps certify the total of a plan.
fn verified(alloc: Global, plan: &Plan, steps: &[u8]) -> Reply
    requires valid { IsValid plan.now }
    requires few { plan.now.cells ≤ most_cert_cells }
    requires short { length steps.now ≤ most_steps_text }
    ensures reply { (words : List (List ℕ)) (input : List ℕ) (settings : Settings)
        → Verifies words settings → HasPlan input settings plan.now
        → steps_of settings.form input ≡ steps.now → IsReply words input result }
    ensures of_text { IsOfText result }
{
    match verify(alloc, plan, steps) {
        Ok(_grid) => verified_word(alloc),
        Err(VerifyFault::NotCovered(unit)) => refusal(alloc, Fault::NotCovered(unit), &[], &[]),
        Err(VerifyFault::BadStep(step)) => refusal(alloc, Fault::BadStep(step), &[], &[]),
        Err(VerifyFault::OutOfMemory) => Reply::OutOfMemory,
    }
}

/// The reply by a plan: a report, or about a certificate. The steps are those behind the program.
fn reply_to_plan(alloc: Global, settings: &Settings, plan: &Plan, steps: &[u8]) -> Reply
    requires settings { AreReady settings.now }
    requires form { IsOfPlan settings.now.form }
    requires valid { IsValid plan.now }
    requires few { IsOfCert settings.now.form → plan.now.cells ≤ most_cert_cells }
    requires short { length steps.now ≤ most_steps_text }
    ensures reply { (words : List (List ℕ)) (input : List ℕ) → Say words settings.now
        → HasPlan input settings.now plan.now → steps_of settings.now.form input ≡ steps.now
        → IsReply words input result }
    ensures of_text { IsOfText result }
{
    match settings.form {
        Form::Run => reply_to_asks(alloc, settings, plan),
        Form::Cert => certified(alloc, plan),
        Form::Verify => verified(alloc, plan, steps),
        Form::Fmt => unreachable!(),
    }
}

/// The canonical text of a program. The rules are not asked.
fn formatted(alloc: Global, settings: &Settings, program: &Program) -> Reply
    requires formed { IsWellFormed program.now }
    ensures reply { (words : List (List ℕ)) (input : List ℕ) → Formats words settings.now
        → SpellsProgram settings.now.form input program.now → IsReply words input result }
    ensures of_text { IsOfText result }
{
    match print(alloc, program) {
        Ok(canonical) => Reply::Answer(canonical),
        Err(_) => Reply::OutOfMemory,
    }
}

/// The reply to a program: its canonical text, or the reply by its plan, where it breaks no rule.
fn reply_to_program(
    alloc: Global,
    settings: &Settings,
    program: &Program,
    source: &[u8],
    steps: &[u8],
) -> Reply
    requires settings { AreReady settings.now }
    requires formed { IsWellFormed program.now }
    requires short { length source.now ≤ most_text }
    requires short_steps { length steps.now ≤ most_steps_text }
    ensures reply { (words : List (List ℕ)) (input : List ℕ) → Say words settings.now
        → HasParts settings.now.form input source.now steps.now
        → SpellsProgram settings.now.form input program.now → IsReply words input result }
    ensures of_text { IsOfText result }
{
    match settings.form {
        Form::Fmt => formatted(alloc, settings, program),
        Form::Run | Form::Cert | Form::Verify => match check(alloc, program, settings) {
            Ok(plan) => reply_to_plan(alloc, settings, &plan, steps),
            Err(CheckFault::Typing(fault)) => refusal(alloc, Fault::Typing(fault), source, &[]),
            Err(CheckFault::OutOfMemory) => Reply::OutOfMemory,
        },
    }
}

/// The reply to a program with these tokens, and to the steps behind it.
fn reply_to_tokens(
    alloc: Global,
    settings: &Settings,
    source: &[u8],
    steps: &[u8],
    tokens: &[Token],
) -> Reply
    requires settings { AreReady settings.now }
    requires short { length source.now ≤ most_text }
    requires short_steps { length steps.now ≤ most_steps_text }
    requires tokens { Covers source.now (length source.now) tokens.now }
    ensures reply { (words : List (List ℕ)) (input : List ℕ) → Say words settings.now
        → HasParts settings.now.form input source.now steps.now → IsReply words input result }
    ensures of_text { IsOfText result }
{
    match parse(alloc, source, tokens) {
        Ok(program) => reply_to_program(alloc, settings, &program, source, steps),
        Err(ParseFault::Syntax(k)) => refusal(alloc, Fault::Syntax(k), source, tokens),
        Err(ParseFault::Continuous(k)) => refusal(alloc, Fault::Continuous(k), source, tokens),
        Err(ParseFault::OutOfMemory) => Reply::OutOfMemory,
    }
}

/// The reply to a program that is not too long, and to the steps behind it.
fn reply_to_parts(alloc: Global, settings: &Settings, source: &[u8], steps: &[u8]) -> Reply
    requires settings { AreReady settings.now }
    requires short { length source.now ≤ most_text }
    requires short_steps { length steps.now ≤ most_steps_text }
    ensures reply { (words : List (List ℕ)) (input : List ℕ) → Say words settings.now
        → HasParts settings.now.form input source.now steps.now → IsReply words input result }
    ensures of_text { IsOfText result }
{
    match lex(alloc, source) {
        Ok(tokens) => reply_to_tokens(alloc, settings, source, steps, tokens.as_slice()),
        Err(LexFault::BadByte(at)) => refusal(alloc, Fault::BadByte(at), source, &[]),
        Err(LexFault::OutOfMemory) => Reply::OutOfMemory,
    }
}

/// The reply to an input.
fn reply_to_text(alloc: Global, settings: &Settings, input: &[u8]) -> Reply
    requires settings { AreReady settings.now }
    ensures reply { (words : List (List ℕ)) → Say words settings.now
        → IsReply words input.now result }
    ensures of_text { IsOfText result }
{
    if input.len() > limit_of(settings.form) {
        return refusal(alloc, Fault::TooLong, &[], &[]);
    }
    let (source, steps) = parts_of(settings.form, input);
    if source.len() > MOST_TEXT {
        return refusal(alloc, Fault::TooLong, &[], &[]);
    }
    reply_to_parts(alloc, settings, source, steps)
}

/// The reply to a program from a seed.
fn reply_to_made(alloc: Global, settings: &Settings, seed: u32) -> Reply
    requires settings { AreReady settings.now }
    ensures reply { (words : List (List ℕ)) → Say words settings.now
        → IsReply words (made_of seed) result }
    ensures of_text { IsOfText result }
{
    match made(alloc, seed) {
        Ok(text) => reply_to_text(alloc, settings, text.as_slice()),
        Err(_) => Reply::OutOfMemory,
    }
}

/// The reply to what is left of the input, where the words name no seed.
fn reply_to_source<R: Source>(alloc: Global, settings: &Settings, src: &mut R) -> Reply
    requires settings { AreReady settings.now }
    requires seedless { settings.now.make ≡ None }
    ensures reply { IfSome (R.left src.old) (λ input. (words : List (List ℕ))
        → Say words settings.now → IsReply words input result) }
    ensures read_cause { IsReadFault result → Rose (R.faults src.old) (R.faults src.new) }
    ensures read_text { IsReadFault result → IsRefusalOf result Fault.Read [] [] }
    ensures not_usage { ¬ IsUsage result }
    ensures taken { TakesAtMost (R.left src.old) (R.left src.new)
        (limit_of settings.now.form + 1) }
    ensures reading { Reading R.read_step src.old (limit_of settings.now.form + 1) src.new }
{
    match read_all(alloc, src, limit_of(settings.form)) {
        Ok(input) => reply_to_text(alloc, settings, input.as_slice()),
        Err(ReadEnd::Fault) => refusal(alloc, Fault::Read, &[], &[]),
        Err(ReadEnd::TooLong) => refusal(alloc, Fault::TooLong, &[], &[]),
        Err(ReadEnd::OutOfMemory) => Reply::OutOfMemory,
    }
}

/// The reply to the words, over the program of their seed or what is left of the input.
pub fn reply_to<R: Source>(alloc: Global, words: &[String], src: &mut R) -> Reply
    ensures reply { IfSome (input_of (map string_bytes words.now) (R.left src.old))
        (λ input. IsReply (map string_bytes words.now) input result) }

    // A fault of the words comes from them alone, and is returned; the source is not read.
    ensures usage { IsUsage result → HasFault (map string_bytes words.now) }
    ensures unread { (fault : UsageFault) → words_of (map string_bytes words.now) ≡ Err fault
        → IsRefusalOf result (Fault.Usage fault) [] [] × (src.new ≡ src.old) }

    // With a seed the source is not read.
    ensures made { MakeText (map string_bytes words.now)
        → (src.new ≡ src.old) × ¬ IsReadFault result }
    ensures taken { TakesAtMost (R.left src.old) (R.left src.new)
        (limit_for (map string_bytes words.now) + 1) }
    ensures reading { Reading R.read_step src.old
        (limit_for (map string_bytes words.now) + 1) src.new }

    // A failed read has its cause.
    ensures read_cause { IsReadFault result → Rose (R.faults src.old) (R.faults src.new) }
    ensures read_words { IsReadFault result → ReadText (map string_bytes words.now) }
    ensures read_text { IsReadFault result → IsRefusalOf result Fault.Read [] [] }
{
    match read_words(alloc, words) {
        Ok(settings) => match settings.make {
            Some(seed) => reply_to_made(alloc, &settings, seed),
            None => reply_to_source(alloc, &settings, src),
        },
        Err(WordsFault::Usage(fault)) => refusal(alloc, Fault::Usage(fault), &[], &[]),
        Err(WordsFault::OutOfMemory) => Reply::OutOfMemory,
    }
}
