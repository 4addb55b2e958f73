//! Whether a route has what its path needs.

ghost use Rattle.std.specs.Prelude.{◌≡◌, ◌↔◌, IsTrue, codes};
ghost use Rattle.std.specs.List.{list_any};
ghost use Rattle.std.specs.Option.{option_map};
ghost use Rattle.std.specs.Str.{encode_utf8_all};
ghost use Rattle.endpoints.specs.Path.{segments, same_text};
ghost use Rattle.endpoints.specs.Spelling.{HasVariable, HasVariables};

use crate::route::Route;
use crate::table::pattern_of;
use wd_json::WdText;

/// Whether a path can be written for the route: exactly the variables of its command's pattern are
/// there, and none is empty. It takes no memory.
pub fn has_variables(route: &Route) -> bool
    ensures { IsTrue result ↔ HasVariables route.now }
{
    let pattern = pattern_of(route.command);
    is_filled(pattern, "{session}", &route.session)
        && is_filled(pattern, "{item}", &route.item)
        && is_filled(pattern, "{name}", &route.name)
}

// Whether the text is there exactly where the pattern has the variable, and not empty.
fn is_filled(pattern: &str, variable: &str, text: &Option<WdText>) -> bool
    ensures { IsTrue result ↔ HasVariable (segments pattern.now) variable.now (option_map encode_utf8_all text.now) }
{
    let there = has_part(pattern, variable);
    match text {
        Some(text) => there && !text.as_str().is_empty(),
        None => !there,
    }
}

fn has_part(pattern: &str, variable: &str) -> bool
    ensures { result ≡ list_any (λ part. same_text part variable.now) (segments pattern.now) }
{
    pattern.split('/').any(|part| part == variable)
}
