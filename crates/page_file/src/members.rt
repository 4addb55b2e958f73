//! The names of an object's members, and its version.

ghost use Rattle.std.specs.Prelude.{◌≡◌};
ghost use Rattle.std.specs.List.{list_all, list_any};
ghost use Rattle.std.specs.Str.{bytes_eq, encode_utf8_all};
ghost use Rattle.page_file.specs.Members.{is_one, is_version};
ghost use Rattle.wd_json.specs.Keys.{get};

use wd_json::{Json, JsonMap};

// Whether the name is one of these.
fn is_one_of(names: &[&str], name: &str) -> bool
    ensures { result ≡ list_any (λ n. bytes_eq name.now n.now) names.now }
{
    names.iter().any(|known| name == *known)
}

/// Whether no member has another name than these.
pub fn has_only(names: &[&str], members: &JsonMap) -> bool
    ensures { result ≡ list_all (λ m. list_any (λ n. bytes_eq (encode_utf8_all m.0) n.now) names.now) members.now }
{
    for member in members.as_slice() {
        if !is_one_of(names, member.0.as_str()) {
            return false;
        }
    }
    true
}

fn is_one(value: &Json) -> bool
    ensures { result ≡ is_one value.now }
{
    matches!(value, Json::Int(1))
}

/// Whether the member of that name is the number 1.
pub fn is_version(name: &str, members: &JsonMap) -> bool
    ensures { result ≡ is_version (get name.now members.now) }
{
    match members.get(name) {
        Some(value) => is_one(value),
        None => false,
    }
}
