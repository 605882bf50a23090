//! The command that `clap` reads the words by.

ghost use Rattle.std.specs.Prelude.{◌≡◌, IfOk, codes, false};
ghost use Rattle.clap.specs.Words.{App, app_of, rule_of, with_rule};
ghost use Rattle.dl_arguments.specs.Command.{bare_command, command, positionals, with_option};

use clap::{Arg, ArgAction, Command};
use std::alloc::{AllocError, Global};

/// A form and asks, mixed with options of one value each. Ranges and defaults are not `clap`'s.
pub(crate) fn simple_command<'a>(alloc: Global) -> Result<Command<'a>, AllocError>
    ensures { IfOk result (λ c. app_of c ≡ command) }
{
    let command = with_first_options(alloc, with_positionals(alloc));
    let command = with_option(alloc, command, "digits");
    let command = with_option(alloc, command, "width");
    let command = with_option(alloc, command, "mwidth");
    let command = with_option(alloc, command, "format");
    with_option(alloc, command, "rules")
}

/// The command with the options that say what is computed.
fn with_first_options<'a>(
    alloc: Global,
    command: Result<Command<'a>, AllocError>,
) -> Result<Command<'a>, AllocError>
    ensures { (app : App) → IfOk command.entry (λ c. app_of c ≡ app)
        → IfOk result (λ c. app_of c ≡ with_option (with_option (with_option app (codes "make"))
        (codes "bs")) (codes "log2")) }
{
    let command = with_option(alloc, command, "make");
    let command = with_option(alloc, command, "bs");
    with_option(alloc, command, "log2")
}

/// The command with its positionals.
fn with_positionals<'a>(alloc: Global) -> Result<Command<'a>, AllocError>
    ensures { IfOk result (λ c. app_of c ≡ positionals) }
{
    let command = with_arg(
        Ok(bare_command(alloc)),
        Arg::new(alloc, "form").required(true),
    );
    with_arg(command, Arg::new(alloc, "asks").action(ArgAction::Append))
}

/// The command before it takes a word.
fn bare_command<'a>(alloc: Global) -> Command<'a>
    ensures { app_of result ≡ bare_command }
{
    Command::new(alloc, "decl").no_binary_name(true)
}

/// The command with one more option, where there was room for the command.
fn with_option<'a>(
    alloc: Global,
    command: Result<Command<'a>, AllocError>,
    name: &'a str,
) -> Result<Command<'a>, AllocError>
    ensures { (app : App) → IfOk command.entry (λ c. app_of c ≡ app)
        → IfOk result (λ c. app_of c ≡ with_option app name.entry.now) }
{
    with_arg(command, Arg::new(alloc, name).long(name))
}

/// The command with one more argument of its own, where there was room for the command.
fn with_arg<'a>(
    command: Result<Command<'a>, AllocError>,
    arg: Arg<'a>,
) -> Result<Command<'a>, AllocError>
    requires { arg.global ≡ false }
    ensures { (app : App) → IfOk command.entry (λ c. app_of c ≡ app)
        → IfOk result (λ c. app_of c ≡ with_rule app (rule_of arg.entry)) }
{
    match command {
        Ok(command) => command.arg(arg),
        Err(error) => Err(error),
    }
}
