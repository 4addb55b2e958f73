//! The three timeouts of a session, read from an object and written as one.

ghost use Rattle.std.specs.Prelude.{◌≡◌, ◌<◌, ◌^◌, pos, true, IfOk};
ghost use Rattle.std.specs.Option.{ok_or};
ghost use Rattle.std.specs.Str.{IsAscii};
ghost use Rattle.wd_json.specs.Json.{data_of};
ghost use Rattle.wd_json.specs.Whole.{is_whole};
ghost use Rattle.wd_json.specs.declared.value.Json.TheVariants.{Int};
ghost use Rattle.capabilities.specs.Timeouts.{AreInRange, span_of as span_value, span_at as span_value_at, timeouts_in as timeouts_value, timeouts_object as object_value};

use crate::values::{Member, as_object, find_value};
use std::alloc::Global;
use wd_errors::Code;
use wd_json::{Json, JsonMap, MAX_WHOLE, Memory, WdText};

/// A session's timeouts in milliseconds (W3C WebDriver, section 8.5).
#[derive(Clone, Copy, Debug, PartialEq, Eq)]
pub struct Timeouts {
    /// How long a script may run.
    pub script: u64,
    /// How long a navigation waits for the page.
    pub page_load: u64,
    /// How long a find waits for an element.
    pub implicit: u64,
}

/// What a session has that asks for nothing else.
pub const DEFAULT: Timeouts = Timeouts {
    script: 30_000,
    page_load: 300_000,
    implicit: 0,
};

// A whole number of 0 to 2^53 - 1.
fn as_span(value: &Json) -> Option<u64>
    ensures { result ≡ span_value value.now }
{
    match value {
        Json::Int(n) if 0 <= *n && *n <= MAX_WHOLE => Some(*n as u64),
        _ => None,
    }
}

// The number at a name, or the base where the name is absent.
fn span_at(members: &[Member], name: &str, base: u64) -> Option<u64>
    ensures { result ≡ span_value_at name.now base members.now }
{
    match find_value(members, name) {
        Some(value) => as_span(value),
        None => Some(base),
    }
}

/// The base with what the value gives; `None` as `read_timeouts` has an error.
pub fn as_timeouts(value: &Json, base: Timeouts) -> Option<Timeouts>
    ensures { result ≡ timeouts_value value.now base }
{
    let members = as_object(value)?;
    let script = span_at(members, "script", base.script)?;
    let page_load = span_at(members, "pageLoad", base.page_load)?;
    let implicit = span_at(members, "implicit", base.implicit)?;
    Some(Timeouts {
        script,
        page_load,
        implicit,
    })
}

/// The base with those of its timeouts changed that the object gives (W3C WebDriver, section 8.5,
/// Set Timeouts). It takes no memory.
///
/// `InvalidArgument` exactly where the value isn't an object, or where `script`, `pageLoad` or
/// `implicit` is there and isn't a whole number of 0 to 2^53 - 1: null isn't. Other names are
/// ignored.
pub fn read_timeouts(value: &Json, base: Timeouts) -> Result<Timeouts, Code>
    ensures value { result ≡ ok_or (timeouts_value value.now base) Code.InvalidArgument }
    ensures range { AreInRange base → IfOk result AreInRange }
{
    as_timeouts(value, base).ok_or(Code::InvalidArgument)
}

// A member with a whole number.
fn member(alloc: Global, name: &str, span: u64) -> Result<Member, Memory>
    requires ascii { IsAscii name.now }
    requires range { span < 2 ^ 53 }
    ensures { IfOk result (λ m. m ≡ (name.now, Int (pos span))) }
{
    Ok((WdText::of(alloc, name)?, Json::Int(span as i64)))
}

/// The object with the three timeouts, as Get Timeouts answers it (W3C WebDriver, section
/// 8.4). Each is at most 2^53 - 1. `Memory` where there is no memory for it.
pub fn timeouts_object(alloc: Global, timeouts: Timeouts) -> Result<Json, Memory>
    requires { AreInRange timeouts }
    ensures members { IfOk result (λ value. value ≡ object_value timeouts) }
    ensures whole { IfOk result (λ value. is_whole (data_of value) ≡ true) }
{
    let mut members = Vec::with_capacity(alloc, 3)?;
    members.push(member(alloc, "implicit", timeouts.implicit)?)?;
    members.push(member(alloc, "pageLoad", timeouts.page_load)?)?;
    members.push(member(alloc, "script", timeouts.script)?)?;
    Ok(Json::Object(JsonMap::from_sorted(members)))
}
