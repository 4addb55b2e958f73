//! What a prompt is asked with.

ghost use Rattle.std.specs.Prelude.{◌≡◌};
ghost use Rattle.std.specs.Option.{option_map};
ghost use Rattle.page_file.specs.Spelled.{asked_in};

use crate::values::as_text;
use crate::word::as_kind;
use page_engine::PromptKind;
use wd_json::{Json, WdText};

// What a prompt is asked with: its kind, its text, its default answer, and what accepting and
// dismissing it does.
type Asked<'a> = (PromptKind, &'a WdText, &'a WdText, &'a Json, &'a Json);

pub fn asked(values: &[Json]) -> Option<Asked<'_>>
    ensures { option_map (λ p. (p.0, p.1.now, p.2.now, p.3.now, p.4.now)) result ≡ asked_in values.now }
{
    let [kind, text, answer, accepted, dismissed] = values else {
        return None;
    };
    Some((
        as_kind(kind)?,
        as_text(text)?,
        as_text(answer)?,
        accepted,
        dismissed,
    ))
}
