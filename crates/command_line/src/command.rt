//! The command that has these options.
ghost use Rattle.std.specs.Prelude.{◌≡◌, IfOk, false, map};
ghost use Rattle.clap.specs.Words.{app_of, rule_of};
ghost use Rattle.command_line.specs.Command.{app_with, option_rule, rule_with_value, with_option, with_options};

use clap::builder::ValueParser;
use clap::{Arg, ArgAction, Command};
use std::alloc::{AllocError, Global};

/// The id of the positional. No option has it: a name isn't empty.
pub(crate) const POSITIONAL: &str = "";

/// An argument that has one value, which isn't empty.
fn with_value<'a>(alloc: Global, id: &'a str) -> Arg<'a>
    ensures rule { rule_of result ≡ rule_with_value id.now }
    ensures local { result.global ≡ false }
{
    Arg::new(alloc, id)
        .action(ArgAction::Set)
        .value_parser(ValueParser::NonEmptyString)
}

/// The option of this name.
fn option_of<'a>(alloc: Global, name: &'a str) -> Arg<'a>
    ensures rule { rule_of result ≡ option_rule name.now }
    ensures local { result.global ≡ false }
{
    with_value(alloc, name).long(name)
}

/// A command with one more option. A name that is empty names none.
fn with_option<'a>(
    alloc: Global,
    command: Command<'a>,
    name: &'a str,
) -> Result<Command<'a>, AllocError>
    ensures { IfOk result (λ c. app_of c ≡ with_option name.now (app_of command.entry)) }
{
    if name.is_empty() {
        return Ok(command);
    }
    command.arg(option_of(alloc, name))
}

/// A command with these options too.
fn with_options<'a>(
    alloc: Global,
    command: Command<'a>,
    names: &[&'a str],
) -> Result<Command<'a>, AllocError>
    ensures { IfOk result (λ c. app_of c ≡ with_options (map (λ name. name.now) names.now) (app_of command.entry)) }
{
    match names {
        [] => Ok(command),
        [name, more @ ..] => with_options(alloc, with_option(alloc, command, name)?, more),
    }
}

/// The command that has these options and one positional.
pub(crate) fn command_of<'a>(alloc: Global, names: &[&'a str]) -> Result<Command<'a>, AllocError>
    ensures { IfOk result (λ c. app_of c ≡ app_with (map (λ name. name.now) names.now)) }
{
    let command = Command::new(alloc, "")
        .no_binary_name(true)
        .disable_help_flag(true)
        .arg(with_value(alloc, POSITIONAL))?;
    with_options(alloc, command, names)
}
