ghost use Rattle.std.specs.Prelude.{◌≡◌, ◌==◌, ◌||◌, ◌++◌, List, ℕ, IfOk, OnOk, MatchOption};
ghost use Rattle.std.specs.Option.{option_map, option_to_list};
ghost use Rattle.selectors.specs.Names.{StringIs};
ghost use Rattle.selectors.specs.Reading.{string_escape_at, string_piece_at, string_at};

use crate::escapes::{escape, is_line_break, without_one};
use std::alloc::Global;
use wd_json::{Memory, WdText};

/// Whether this opens and closes a string.
fn is_quote(c: char) -> bool
    ensures { result ≡ ((c == 34) || (c == 39)) }
{
    c == '"' || c == '\''
}

/// Reads what stands behind a backslash in a string, and the text behind it: a character, or a line
/// break, which is nothing.
fn string_escape(text: &[char]) -> Option<(Option<char>, &[char])>
    ensures { option_map (λ x. (option_to_list x.0, x.1.now)) result ≡ string_escape_at text.now }
{
    let (first, after) = text.split_first()?;
    if is_line_break(*first) {
        return Some((None, without_one(*first, after)));
    }
    let (c, rest) = escape(text)?;
    Some((Some(c), rest))
}

/// Reads one piece of a string in these quotes, and the text behind it.
fn string_piece(quote: char, text: &[char]) -> Option<(Option<char>, &[char])>
    ensures { option_map (λ x. (option_to_list x.0, x.1.now)) result ≡ string_piece_at quote text.now }
{
    let (first, after) = text.split_first()?;
    if *first == quote {
        None
    } else if *first == '\\' {
        string_escape(after)
    } else if is_line_break(*first) {
        None
    } else {
        Some((Some(*first), after))
    }
}

/// Adds the character, where there is one.
fn push_part(value: &mut WdText, part: Option<char>) -> Result<(), Memory>
    ensures { OnOk result (value.new ≡ value.old ++ option_to_list part) }
{
    match part {
        Some(c) => value.push(c),
        None => Ok(()),
    }
}

/// Reads a string in `"` or `'` (CSS Syntax, "consume a string token"): what it means, and the text
/// behind it. None exactly where the text doesn't begin with one. `Memory` where there is no memory
/// for it.
pub fn string(alloc: Global, text: &[char]) -> Result<Option<(WdText, &[char])>, Memory>
    ensures exact { IfOk result (λ read. MatchOption read ((value rest : List ℕ) → StringIs text.now value rest → ⊥) (λ x. StringIs text.now x.0 x.1.now)) }
    ensures reads { IfOk result (λ read. option_map (λ x. (x.0, x.1.now)) read ≡ string_at text.now) }
{
    let Some((quote, after)) = text.split_first() else {
        return Ok(None);
    };
    if !is_quote(*quote) {
        return Ok(None);
    }
    let mut value = WdText::new(alloc);
    let mut rest = after;
    while let Some((part, behind)) = string_piece(*quote, rest) {
        push_part(&mut value, part)?;
        rest = behind;
    }
    let Some((last, behind)) = rest.split_first() else {
        return Ok(None);
    };
    if *last != *quote {
        return Ok(None);
    }
    Ok(Some((value, behind)))
}
