//! The first parameter for which a command refuses an object, and with which code.

ghost use Rattle.std.specs.Prelude.{◌≡◌, IfOk};
ghost use Rattle.parameters.specs.Kinds.{invalid_unless as unless, is_strategy as strategy, using_refusal as refusal_of_using, is_address as address, is_address_text as address_text, may_lack as lack, refusal_of as refusal_of_value};
ghost use Rattle.parameters.specs.Refusals.{refusal_by as refusal_of_parameter, first_refusal as first_of, refusal_in as first_in};

use crate::kind::Kind;
use crate::parameter::{Parameter, kind, name};
use crate::row::{is_unsupported, row};
use crate::values::{as_text, is_frame, is_list, is_place, is_size, is_span, is_text};
use endpoints::Command;
use std::alloc::Global;
use url::{ParseError, Url};
use wd_errors::Code;
use wd_json::{Json, JsonMap, Memory};

fn invalid_unless(good: bool) -> Option<Code>
    ensures { result ≡ unless good }
{
    if good {
        None
    } else {
        Some(Code::InvalidArgument)
    }
}

fn is_strategy(text: &str) -> bool
    ensures { result ≡ strategy text.now }
{
    text == "css selector"
        || text == "link text"
        || text == "partial link text"
        || text == "tag name"
}

fn using_refusal(value: &Json) -> Option<Code>
    ensures { result ≡ refusal_of_using value.now }
{
    match as_text(value) {
        Some(text) => {
            if text == "xpath" {
                Some(Code::UnsupportedOperation)
            } else {
                invalid_unless(is_strategy(text))
            }
        }
        None => Some(Code::InvalidArgument),
    }
}

fn is_address_text(alloc: Global, text: &str) -> Result<bool, Memory>
    ensures { IfOk result (λ good. good ≡ address_text text.now) }
{
    match Url::parse(alloc, text) {
        Ok(_) => Ok(true),
        Err(ParseError::OutOfMemory) => Err(Memory),
        Err(ParseError::Overflow) => Err(Memory),
        Err(_) => Ok(false),
    }
}

fn is_address(alloc: Global, value: &Json) -> Result<bool, Memory>
    ensures { IfOk result (λ good. good ≡ address value.now) }
{
    match as_text(value) {
        Some(text) => is_address_text(alloc, text),
        None => Ok(false),
    }
}

fn may_lack(kind: Kind) -> bool
    ensures { result ≡ lack kind }
{
    matches!(kind, Kind::Place | Kind::Size | Kind::Span)
}

// The refusal of a value that is there.
fn refusal_of(alloc: Global, kind: Kind, value: &Json) -> Result<Option<Code>, Memory>
    ensures { IfOk result (λ refusal. refusal ≡ refusal_of_value kind value.now) }
{
    match kind {
        Kind::Text => Ok(invalid_unless(is_text(value))),
        Kind::Using => Ok(using_refusal(value)),
        Kind::List => Ok(invalid_unless(is_list(value))),
        Kind::Address => Ok(invalid_unless(is_address(alloc, value)?)),
        Kind::Frame => Ok(invalid_unless(is_frame(value))),
        Kind::Place => Ok(invalid_unless(is_place(value))),
        Kind::Size => Ok(invalid_unless(is_size(value))),
        Kind::Span => Ok(invalid_unless(is_span(value))),
    }
}

fn refusal_by(
    alloc: Global,
    parameter: Parameter,
    members: &JsonMap,
) -> Result<Option<Code>, Memory>
    ensures { IfOk result (λ refusal. refusal ≡ refusal_of_parameter members.now parameter) }
{
    match members.get(name(parameter)) {
        Some(value) => refusal_of(alloc, kind(parameter), value),
        None => Ok(invalid_unless(may_lack(kind(parameter)))),
    }
}

// The first refusal of these parameters.
fn first_refusal(
    alloc: Global,
    parameters: &[Parameter],
    members: &JsonMap,
) -> Result<Option<Code>, Memory>
    ensures { IfOk result (λ refusal. refusal ≡ first_of members.now parameters.now) }
{
    for parameter in parameters {
        if let Some(code) = refusal_by(alloc, *parameter, members)? {
            return Ok(Some(code));
        }
    }
    Ok(None)
}

/// Why a command refuses an object, if it does.
pub fn refusal(alloc: Global, command: Command, members: &JsonMap) -> Result<Option<Code>, Memory>
    ensures { IfOk result (λ refusal. refusal ≡ first_in command members.now) }
{
    if is_unsupported(command) {
        return Ok(Some(Code::UnsupportedOperation));
    }
    first_refusal(alloc, row(command), members)
}
