//! The settings of what `clap` found, or the first fault.

ghost use Rattle.std.specs.Prelude.{◌≡◌, Err, IfErr, IfOk, Ok, map};
ghost use Rattle.std.specs.List.{list_all};
ghost use Rattle.clap.specs.Matches.{found_of};
ghost use Rattle.dl_arguments.specs.Faults.{Explains};
ghost use Rattle.dl_arguments.specs.Found.{answer_in, asks_in, form_in, values_in};
ghost use Rattle.dl_arguments.specs.Spelling.{begins_plainly};
ghost use Rattle.dl_arguments.specs.declared.fault.UsageFault.TheVariants.{Line};
ghost use Rattle.dl_arguments.specs.declared.fault.WordsFault.TheVariants.{Usage};
ghost use Rattle.dl_arguments.specs.Words.{admits};

use crate::asks::read_asks;
use crate::fault::{UsageFault, WordsFault};
use crate::options::{are_of_cert, are_of_verify, form_named, is_make_alone, settings_of};
use crate::spelling::begins_plainly;
use clap::ArgMatches;
use dl_limits::MOST_ASKS;
use dl_plan::{Form, Items, Settings};
use std::alloc::Global;

/// The words do not fit the command.
const LINE: WordsFault = WordsFault::Usage(UsageFault::Line);

/// The settings of the values that `clap` found, or the first fault. Where these do not fit the
/// command, the fault is `Line`, and never want of memory.
pub(crate) fn judge(alloc: Global, matches: &ArgMatches<'_>) -> Result<Settings, WordsFault>
    ensures settings { IfOk result (λ settings. answer_in (found_of matches.now) ≡ Ok settings) }
    ensures fault { IfErr result (Explains (answer_in (found_of matches.now))) }
    ensures line { answer_in (found_of matches.now) ≡ Err Line → result ≡ Err (Usage Line) }
{
    let Some(form) = form_of(matches) else {
        return Err(LINE);
    };
    let texts = matches.get_strs("asks").unwrap_or(&[]);
    if !begin_plainly(texts) || !admits(form, matches, texts) {
        return Err(LINE);
    }
    let Some(settings) = settings_of(alloc, form, matches) else {
        return Err(LINE);
    };
    match read_asks(alloc, settings.rules, texts) {
        Ok(asks) => Ok(Settings {
            asks: Items::from_vec(asks),
            ..settings
        }),
        Err(fault) => Err(fault),
    }
}

/// The form, where it has a name.
fn form_of(matches: &ArgMatches<'_>) -> Option<Form>
    ensures { result ≡ form_in (found_of matches.now) }
{
    form_named(matches.get_str("form")?)
}

/// Whether a hyphen begins none of these texts.
fn begin_plainly(texts: &[&str]) -> bool
    ensures { result ≡ list_all (λ text. begins_plainly text.now) texts.now }
{
    texts.iter().all(|text| begins_plainly(text.as_bytes()))
}

/// Whether the form takes this number of asks, and the options that are given.
fn admits(form: Form, matches: &ArgMatches<'_>, texts: &[&str]) -> bool
    ensures { result ≡ admits form (values_in (found_of matches.now))
        (map (λ text. text.now) texts.now) }
{
    match form {
        Form::Run => !texts.is_empty() && texts.len() <= MOST_ASKS,
        Form::Fmt => texts.is_empty() && is_make_alone(matches),
        Form::Cert => texts.is_empty() && are_of_cert(matches),
        Form::Verify => texts.is_empty() && are_of_verify(matches),
    }
}
