//! What a path has for the variables of a command's pattern.

ghost use Rattle.std.specs.Prelude.{◌≡◌, Some, IfOk, IfErr, IfSome, OnOk, slice_get};
ghost use Rattle.std.specs.List.{position};
ghost use Rattle.std.specs.Option.{option_map};
ghost use Rattle.std.specs.Str.{encode_utf8_all, IsUtf8};
ghost use Rattle.percent_encoding.specs.Percent.{percent_decode};
ghost use Rattle.endpoints.specs.Path.{segments, same_text, value_of};
ghost use Rattle.endpoints.specs.Route.{IsNoText, IsRead, IsUnread};

use crate::command::Command;
use crate::route::{Route, RouteFault};
use crate::table::pattern_of;
use percent_encoding::DecodeError;
use std::alloc::Global;
use wd_errors::Code;
use wd_json::WdText;

// The route to a command whose pattern a path fits.
pub fn route_at(alloc: Global, command: Command, path: &str) -> Result<Route, RouteFault>
    ensures ok { IfOk result (IsRead command (segments path.now)) }
    ensures cause { IfErr result (IsUnread command (segments path.now)) }
{
    let pattern = pattern_of(command);
    Ok(Route {
        command,
        session: value(alloc, "{session}", pattern, path)?,
        item: value(alloc, "{item}", pattern, path)?,
        name: value(alloc, "{name}", pattern, path)?,
    })
}

// The place of a segment in a pattern.
fn place_of(pattern: &str, variable: &str) -> Option<usize>
    ensures { result ≡ position (λ part. same_text part variable.now) (segments pattern.now) }
{
    pattern.split('/').position(|part| part == variable)
}

// The segment at a place.
pub(crate) fn segment_at(path: &str, place: usize) -> Option<&str>
    ensures { option_map (λ s. s.now) result ≡ slice_get (segments path.now) place }
{
    path.split('/').nth(place)
}

// What a segment stands for.
fn decoded(alloc: Global, segment: &str) -> Result<WdText, RouteFault>
    ensures ok { IfOk result (λ text. encode_utf8_all text ≡ percent_decode segment.now) }
    ensures utf8 { OnOk result (IsUtf8 (percent_decode segment.now)) }
    ensures cause { IfErr result (IsNoText (Some (percent_decode segment.now))) }
{
    match percent_encoding::percent_decode(segment.as_bytes()).decode_utf8(alloc) {
        Ok(text) => Ok(WdText::of(alloc, text.as_str())?),
        Err(DecodeError::OutOfMemory) => Err(RouteFault::Memory),
        Err(DecodeError::Utf8(_)) => Err(RouteFault::Refused(Code::UnknownCommand)),
    }
}

// What a path has for a variable of a pattern.
fn value(
    alloc: Global,
    variable: &str,
    pattern: &str,
    path: &str,
) -> Result<Option<WdText>, RouteFault>
    ensures ok { IfOk result (λ text. option_map encode_utf8_all text ≡ value_of variable.now (segments pattern.now) (segments path.now)) }
    ensures utf8 { OnOk result (IfSome (value_of variable.now (segments pattern.now) (segments path.now)) IsUtf8) }
    ensures cause { IfErr result (IsNoText (value_of variable.now (segments pattern.now) (segments path.now))) }
{
    let Some(place) = place_of(pattern, variable) else {
        return Ok(None);
    };
    match segment_at(path, place) {
        Some(segment) => Ok(Some(decoded(alloc, segment)?)),
        None => Ok(None),
    }
}
