//! The values of the options, and the settings that they make.

ghost use Rattle.std.specs.Prelude.{◌≡◌, ◌≤◌, ◌==◌, IfNone, IfSome, None, Some, true, false, codes, if◌then◌else◌, length, drop, []};
ghost use Rattle.std.specs.List.{list_all};
ghost use Rattle.clap.specs.Matches.{found_of, first_value};
ghost use Rattle.dl_exact.specs.Fraction.{whole};
ghost use Rattle.dl_frac.specs.Numerals.{numeral_value};
ghost use Rattle.dl_limits.specs.declared.rules.Rules.TheVariants.{Standard};
ghost use Rattle.dl_plan.specs.declared.settings.Format.TheVariants.{Plain};
ghost use Rattle.dl_arguments.specs.Found.{TakesOption, values_in};
ghost use Rattle.dl_arguments.specs.Options.{are_of_cert, are_of_verify, are_taken, form_named, format_named, format_of, is_format, is_make_alone, is_report_plain, is_rules, is_taken, no_seed, options, rules_named, rules_of, seed_of, settings_of};
ghost use Rattle.dl_bytes.specs.Prelude.{number};
ghost use Rattle.dl_arguments.specs.Spelling.{is_bucket, is_number_within};

use crate::spelling::{bucket, whole};
use clap::ArgMatches;
use dl_frac::Frac;
use dl_limits::{MOST_DIGITS, MOST_LOG2, MOST_MEAN_WIDTH, MOST_WIDTH, Rules};
use dl_plan::{Form, Format, Items, Settings};
use std::alloc::Global;

/// A plan that has a certificate has 2 to at most this power cells.
const MOST_CERT_LOG2: u64 = 10;

/// The settings of a form with no asks yet, where each option takes its value.
pub(crate) fn settings_of(alloc: Global, form: Form, matches: &ArgMatches<'_>) -> Option<Settings>
    ensures some { IfSome result (λ settings. (are_taken (values_in (found_of matches.now)) ≡ true)
        × (settings ≡ settings_of form (values_in (found_of matches.now)) [])) }
    ensures none { IfNone result (are_taken (values_in (found_of matches.now)) ≡ false) }
{
    let make = seed(matches)?;
    let bs = bucket_size(matches)?;
    settings_with(alloc, form, make, bs, matches)
}

/// The settings of a form with no asks yet, with this seed and bucket size, where each of the other
/// options takes its value.
fn settings_with(
    alloc: Global,
    form: Form,
    make: Option<u32>,
    bs: Frac,
    matches: &ArgMatches<'_>,
) -> Option<Settings>
    ensures some { IfSome result (λ settings.
        (list_all (λ row. is_taken row.1 (values_in (found_of matches.now) row.0)) (drop 2 options) ≡ true)
        × (settings ≡ record (settings_of form (values_in (found_of matches.now)) []) {
          make = make;
          bs = bs;
        })) }
    ensures none { IfNone result
        (list_all (λ row. is_taken row.1 (values_in (found_of matches.now) row.0)) (drop 2 options) ≡ false) }
{
    let log2 = number_of(matches, "log2", MOST_LOG2 as u64, 10)? as u32;
    let digits = number_of(matches, "digits", MOST_DIGITS as u64, 6)? as u32;
    let width = number_of(matches, "width", MOST_WIDTH, 10)?;
    let mwidth = number_of(matches, "mwidth", MOST_MEAN_WIDTH, 1_000_000)?;
    let format = format_of(matches)?;
    let rules = rules_of(matches)?;
    Some(Settings {
        form,
        make,
        bs,
        log2,
        digits,
        width,
        mwidth,
        format,
        rules,
        asks: Items::from_vec(Vec::new(alloc)),
    })
}

/// The value of `--make`.
fn seed(matches: &ArgMatches<'_>) -> Option<Option<u32>>
    ensures { TakesOption (is_number_within 0 4294967295) no_seed seed_of
        (values_in (found_of matches.now) (codes "make")) result }
{
    match matches.get_str("make") {
        Some(text) => Some(Some(whole(text, 0, 4_294_967_295)? as u32)),
        None => Some(None),
    }
}

/// The value of `--bs`.
fn bucket_size(matches: &ArgMatches<'_>) -> Option<Frac>
    ensures { TakesOption is_bucket (whole 1) numeral_value
        (values_in (found_of matches.now) (codes "bs")) result }
{
    match matches.get_str("bs") {
        Some(text) => bucket(text),
        None => Some(Frac::whole(1)),
    }
}

/// The value of an option that takes whole numbers from 1 to `high`.
fn number_of(matches: &ArgMatches<'_>, name: &str, high: u64, default: u64) -> Option<u64>
    requires { default ≤ high }
    ensures value { TakesOption (is_number_within 1 high) default number
        (values_in (found_of matches.now) name.now) result }
    ensures within { IfSome result (λ value. value ≤ high) }
{
    match matches.get_str(name) {
        Some(text) => whole(text, 1, high),
        None => Some(default),
    }
}

/// The value of `--format`.
fn format_of(matches: &ArgMatches<'_>) -> Option<Format>
    ensures { TakesOption is_format Plain format_of
        (values_in (found_of matches.now) (codes "format")) result }
{
    match matches.get_str("format") {
        Some(text) => format_named(text),
        None => Some(Format::Plain),
    }
}

/// The format of this name.
fn format_named(text: &str) -> Option<Format>
    ensures { result ≡ format_named text.now }
{
    match text {
        "text" => Some(Format::Plain),
        "csv" => Some(Format::Csv),
        "json" => Some(Format::Json),
        _ => None,
    }
}

/// The value of `--rules`.
fn rules_of(matches: &ArgMatches<'_>) -> Option<Rules>
    ensures { TakesOption is_rules Standard rules_of
        (values_in (found_of matches.now) (codes "rules")) result }
{
    match matches.get_str("rules") {
        Some(text) => rules_named(text),
        None => Some(Rules::Standard),
    }
}

/// The set of rules of this name.
fn rules_named(text: &str) -> Option<Rules>
    ensures { result ≡ rules_named text.now }
{
    match text {
        "standard" => Some(Rules::Standard),
        "extended" => Some(Rules::Extended),
        _ => None,
    }
}

/// The form of this name.
pub(crate) fn form_named(text: &str) -> Option<Form>
    ensures { result ≡ form_named text.now }
{
    match text {
        "run" => Some(Form::Run),
        "fmt" => Some(Form::Fmt),
        "cert" => Some(Form::Cert),
        "verify" => Some(Form::Verify),
        _ => None,
    }
}

/// Whether no option is given but `--make`.
pub(crate) fn is_make_alone(matches: &ArgMatches<'_>) -> bool
    ensures { result ≡ is_make_alone (values_in (found_of matches.now)) }
{
    is_absent(matches, "bs") && is_absent(matches, "log2") && is_report_plain(matches)
}

/// Whether no option of a report is given, and no `--rules`.
fn is_report_plain(matches: &ArgMatches<'_>) -> bool
    ensures { result ≡ is_report_plain (values_in (found_of matches.now)) }
{
    is_absent(matches, "digits")
        && is_absent(matches, "width")
        && is_absent(matches, "mwidth")
        && is_absent(matches, "format")
        && is_absent(matches, "rules")
}

/// Whether no option is given but `--make`, `--bs` and `--log2`, and a plan with the cells of the
/// last one can have a certificate.
pub(crate) fn are_of_cert(matches: &ArgMatches<'_>) -> bool
    ensures { result ≡ are_of_cert (values_in (found_of matches.now)) }
{
    number_of(matches, "log2", MOST_CERT_LOG2, MOST_CERT_LOG2).is_some() && is_report_plain(matches)
}

/// The same, and no `--make`.
pub(crate) fn are_of_verify(matches: &ArgMatches<'_>) -> bool
    ensures { result ≡ are_of_verify (values_in (found_of matches.now)) }
{
    is_absent(matches, "make") && are_of_cert(matches)
}

/// Whether an option is missing in the words.
fn is_absent(matches: &ArgMatches<'_>, name: &str) -> bool
    ensures { result ≡ (length (values_in (found_of matches.now) name.now) == 0) }
{
    matches.get_str(name).is_none()
}
