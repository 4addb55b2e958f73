//! The texts that were seen as keys.

ghost use Rattle.std.specs.Prelude.{◌≡◌, ℕ, ◌||◌, not, List, IfOk, OnOk};
ghost use Rattle.std.specs.BTreeSet.{contains_text};
ghost use Rattle.std.specs.Str.{bytes_eq, chars, encode_utf8_all};

use std::alloc::Global;
use std::collections::BTreeSet;
use wd_json::{Memory, WdText};

/// Whether the text is new to the set, which has it from then on.
pub fn note(alloc: Global, seen: &mut BTreeSet<String>, text: &WdText) -> Result<bool, Memory>
    ensures new { IfOk result (λ new. new ≡ not (contains_text seen.old (encode_utf8_all text.now))) }
    ensures has { OnOk result ((cs : List ℕ) → contains_text seen.new cs ≡ (bytes_eq (encode_utf8_all text.now) cs || contains_text seen.old cs)) }
    ensures text { OnOk result (chars (encode_utf8_all text.now) ≡ text.now) }
{
    let key = String::from_str(alloc, text.as_str())?;
    Ok(seen.insert(key)?)
}
