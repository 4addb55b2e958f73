//! What clap's matches give.
ghost use Rattle.std.specs.Prelude.{◌≡◌, ◌++◌, IfOk, OnOk, map, option_map};
ghost use Rattle.clap.specs.Words.{found_of, rows_of};
ghost use Rattle.command_line.specs.Given.{given_of};
ghost use Rattle.command_line.specs.Command.{given_in, value_with, values_in};

use crate::command::POSITIONAL;
use crate::matches::Matches;
use clap::ArgMatches;
use std::alloc::{AllocError, Global};

/// One more value, where the id is an option's.
fn put<'a>(
    values: &mut Vec<(&'a str, &'a str)>,
    id: &'a str,
    value: Option<&'a str>,
) -> Result<(), AllocError>
    ensures { OnOk result (map (λ p. (p.0.now, p.1.now)) values.new.items
        ≡ map (λ p. (p.0.now, p.1.now)) values.old.items ++ value_with id.entry.now (option_map (λ v. v.now) value.entry)) }
{
    match value {
        Some(value) if !id.is_empty() => Ok(values.push((id, value))?),
        _ => Ok(()),
    }
}

/// The options that were found, each with its value.
fn values_in<'a>(
    alloc: Global,
    found: &ArgMatches<'a>,
) -> Result<Vec<(&'a str, &'a str)>, AllocError>
    ensures { IfOk result (λ v. map (λ p. (p.0.now, p.1.now)) v.items ≡ values_in (rows_of (found_of found.now))) }
{
    let mut values = Vec::new(alloc);
    for id in found.ids() {
        put(&mut values, id, found.get_str(id))?;
    }
    Ok(values)
}

/// What was found.
pub(crate) fn given_in<'a>(alloc: Global, found: &ArgMatches<'a>) -> Result<Matches<'a>, AllocError>
    ensures { IfOk result (λ m. given_of m ≡ given_in (rows_of (found_of found.now))) }
{
    Ok(Matches {
        values: values_in(alloc, found)?,
        positional: found.get_str(POSITIONAL),
    })
}
