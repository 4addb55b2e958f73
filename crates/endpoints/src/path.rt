//! The path that is written from a route.

ghost use Rattle.std.specs.Prelude.{◌≡◌, ◌==◌, ◌<◌, ◌++◌, ◌∷◌, [], IfOk, OnOk, if◌then◌else◌, codes, string_bytes};
ghost use Rattle.std.specs.List.{All};
ghost use Rattle.std.specs.Option.{option_map, unwrap_or};
ghost use Rattle.std.specs.Str.{encode_utf8_all};
ghost use Rattle.endpoints.specs.Table.{row_of};
ghost use Rattle.endpoints.specs.Path.{same_text, is_variable as starts_variable};
ghost use Rattle.endpoints.specs.Route.{IsRouteOf};
ghost use Rattle.endpoints.specs.Spelling.{HasVariables, spelling, written};

use crate::route::Route;
use crate::table::pattern_of;
use percent_encoding::{AsciiSet, NON_ALPHANUMERIC, ascii_set, utf8_percent_encode};
use std::alloc::{AllocError, Global};
use wd_json::{Memory, WdText};

/// The bytes that are escaped in a variable of a path: all but the unreserved ones of RFC 3986,
/// section 2.3, which are letters, digits, `-`, `.`, `_` and `~`.
pub const SEGMENT: AsciiSet = ascii_set!(
    NON_ALPHANUMERIC
        .remove(b'-')
        .remove(b'.')
        .remove(b'_')
        .remove(b'~')
);

/// The path of a route: the pattern of its command, with the texts of the route for the variables,
/// percent-encoded. Read with the command's method, it is this route.
///
/// Exactly the variables of the pattern have to be there, and none empty. `Memory` where there is
/// no memory for the path.
pub fn path_of(alloc: Global, route: &Route) -> Result<WdText, Memory>
    requires { HasVariables route.now }
    ensures spelled { IfOk result (λ path. encode_utf8_all path ≡ spelling SEGMENT route.now) }
    ensures read { IfOk result (λ path. IsRouteOf (row_of route.now.command).method (encode_utf8_all path) route.now) }
{
    let session = text_of(&route.session);
    let item = text_of(&route.item);
    let name = text_of(&route.name);
    let parts: Vec<&str> = pattern_of(route.command).split('/').collect(alloc)?;
    let mut path = String::new(alloc);
    for i in 0..parts.len() {
        put_slash(&mut path, i)?;
        let part = parts[i];
        put_part(&mut path, part, text_for(part, session, item, name))?;
    }
    WdText::of(alloc, path.as_str())
}

fn is_variable(part: &str) -> bool
    ensures { result ≡ starts_variable part.now }
{
    match part.as_bytes() {
        [first, ..] => *first == b'{',
        [] => false,
    }
}

// A variable's text in UTF-8, which is empty where there is none.
fn text_of(text: &Option<WdText>) -> &str
    ensures is { result.now ≡ unwrap_or (option_map encode_utf8_all text.now) [] }
    ensures bytes { All (λ b. b < 256) result.now }
{
    match text {
        Some(text) => of_bytes(text.as_str()),
        None => "",
    }
}

// The text as it is, which is of bytes.
fn of_bytes(text: &str) -> &str
    ensures is { result.now ≡ text.now }
    ensures bytes { All (λ b. b < 256) result.now }
{
    text
}

// The text for a variable of a pattern.
fn text_for<'a>(part: &str, session: &'a str, item: &'a str, name: &'a str) -> &'a str
    ensures { result.now ≡
        (if same_text part.now (codes "{session}") then session.now else if same_text part.now (codes "{item}") then item.now else name.now) }
{
    if part == "{session}" {
        session
    } else if part == "{item}" {
        item
    } else {
        name
    }
}

// Writes a part of a pattern, or the text that stands for it.
fn put_part(path: &mut String, part: &str, text: &str) -> Result<(), AllocError>
    ensures { OnOk result (string_bytes path.new ≡ string_bytes path.old ++ written SEGMENT part.now text.now) }
{
    if is_variable(part) {
        utf8_percent_encode(text, SEGMENT).append_to(path)
    } else {
        path.push_str(part)
    }
}

// Writes a slash before each part but the first.
fn put_slash(path: &mut String, i: usize) -> Result<(), AllocError>
    ensures { OnOk result (string_bytes path.new ≡ (if i == 0 then string_bytes path.old else string_bytes path.old ++ 47 ∷ [])) }
{
    if i == 0 {
        return Ok(());
    }
    path.push('/')
}
