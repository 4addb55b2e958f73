//! The text of a parameter, by its name.

ghost use Rattle.std.specs.Prelude.{◌≡◌};
ghost use Rattle.std.specs.Option.{option_copied, option_map};
ghost use Rattle.capabilities.specs.Values.{text_of, members_of, value_of};
ghost use Rattle.remote_end.specs.Finds.{text_at};

use wd_json::{Json, WdText};

/// The text of a value that is one.
fn as_text(value: &Json) -> Option<&str>
    ensures { option_map (λ t. t.now) result ≡ text_of value.now }
{
    match value {
        Json::Text(text) => Some(text.as_str()),
        _ => None,
    }
}

/// The members of an object, and none of anything else.
fn members(value: &Json) -> &[(WdText, Json)]
    ensures { result.now ≡ members_of value.now }
{
    match value {
        Json::Object(map) => map.as_slice(),
        _ => &[],
    }
}

/// The value of a member, by its name.
fn find_value<'a>(members: &'a [(WdText, Json)], name: &str) -> Option<&'a Json>
    ensures { option_copied result ≡ value_of name.now members.now }
{
    match members.iter().find(|member| member.0.as_str() == name) {
        Some(member) => Some(&member.1),
        None => None,
    }
}

/// The text of a parameter; `None` where there is none of that name, or it is no text.
pub(crate) fn text_at<'a>(parameters: &'a Json, name: &str) -> Option<&'a str>
    ensures { option_copied result ≡ text_at name.now parameters.now }
{
    match find_value(members(parameters), name) {
        Some(value) => as_text(value),
        None => None,
    }
}
