//! Which JSON values the kinds of parameters take.

ghost use Rattle.std.specs.Prelude.{◌≡◌};
ghost use Rattle.std.specs.Option.{option_map};
ghost use Rattle.capabilities.specs.Values.{text_of};
ghost use Rattle.parameters.specs.Kinds.{is_text as text_value, is_list as list_value, is_reference as reference, is_frame as frame, is_place as place, is_size as size, is_span as span};

use references::element_key;
use wd_json::{Json, JsonMap, MAX_WHOLE};

const MAX_FRAME: i64 = 65_535;

const MIN_PLACE: i64 = -2_147_483_648;

const MAX_PLACE: i64 = 2_147_483_647;

pub fn as_text(value: &Json) -> Option<&str>
    ensures { option_map (λ t. t.now) result ≡ text_of value.now }
{
    match value {
        Json::Text(text) => Some(text.as_str()),
        _ => None,
    }
}

pub fn is_text(value: &Json) -> bool
    ensures { result ≡ text_value value.now }
{
    matches!(value, Json::Text(_))
}

pub fn is_list(value: &Json) -> bool
    ensures { result ≡ list_value value.now }
{
    matches!(value, Json::List(_))
}

// Whether the object refers to an element: a text stands at the element key.
fn is_reference(members: &JsonMap) -> bool
    ensures { result ≡ reference members.now }
{
    match members.get(element_key()) {
        Some(value) => is_text(value),
        None => false,
    }
}

pub fn is_frame(value: &Json) -> bool
    ensures { result ≡ frame value.now }
{
    match value {
        Json::Null => true,
        Json::Int(n) => 0 <= *n && *n <= MAX_FRAME,
        Json::Object(members) => is_reference(members),
        _ => false,
    }
}

pub fn is_place(value: &Json) -> bool
    ensures { result ≡ place value.now }
{
    match value {
        Json::Null => true,
        Json::Int(n) => MIN_PLACE <= *n && *n <= MAX_PLACE,
        _ => false,
    }
}

pub fn is_size(value: &Json) -> bool
    ensures { result ≡ size value.now }
{
    match value {
        Json::Null => true,
        Json::Int(n) => 0 <= *n && *n <= MAX_PLACE,
        _ => false,
    }
}

pub fn is_span(value: &Json) -> bool
    ensures { result ≡ span value.now }
{
    match value {
        Json::Int(n) => 0 <= *n && *n <= MAX_WHOLE,
        _ => false,
    }
}
