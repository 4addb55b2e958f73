//! JSON values looked at as flags, texts, lists and objects, and the members of an object.

ghost use Rattle.std.specs.Prelude.{◌≡◌};
ghost use Rattle.std.specs.Option.{option_copied, option_map};
ghost use Rattle.capabilities.specs.Values.{is_null as null_value, bool_of, text_of, list_of, object_of, is_object as object_value, members_of, value_of};

use wd_json::{Json, WdText};

/// A member of an object.
pub type Member = (WdText, Json);

pub fn is_null(value: &Json) -> bool
    ensures { result ≡ null_value value.now }
{
    matches!(value, Json::Null)
}

pub fn as_bool(value: &Json) -> Option<bool>
    ensures { result ≡ bool_of value.now }
{
    match value {
        Json::Bool(b) => Some(*b),
        _ => None,
    }
}

pub fn as_text(value: &Json) -> Option<&str>
    ensures { option_map (λ t. t.now) result ≡ text_of value.now }
{
    match value {
        Json::Text(text) => Some(text.as_str()),
        _ => None,
    }
}

pub fn as_list(value: &Json) -> Option<&[Json]>
    ensures { option_map (λ t. t.now) result ≡ list_of value.now }
{
    match value {
        Json::List(list) => Some(list.as_slice()),
        _ => None,
    }
}

pub fn as_object(value: &Json) -> Option<&[Member]>
    ensures { option_map (λ t. t.now) result ≡ object_of value.now }
{
    match value {
        Json::Object(map) => Some(map.as_slice()),
        _ => None,
    }
}

pub fn is_object(value: &Json) -> bool
    ensures { result ≡ object_value value.now }
{
    matches!(value, Json::Object(_))
}

/// The members of an object, and none of anything else.
pub fn members(value: &Json) -> &[Member]
    ensures { result.now ≡ members_of value.now }
{
    match value {
        Json::Object(map) => map.as_slice(),
        _ => &[],
    }
}

/// The value of a member, by its name.
pub fn find_value<'a>(members: &'a [Member], name: &str) -> Option<&'a Json>
    ensures { option_copied result ≡ value_of name.now members.now }
{
    match members.iter().find(|member| member.0.as_str() == name) {
        Some(member) => Some(&member.1),
        None => None,
    }
}
