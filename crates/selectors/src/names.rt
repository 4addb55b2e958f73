ghost use Rattle.std.specs.Prelude.{◌≡◌, [], ◌∷◌, List, ℕ, IfOk, MatchOption};
ghost use Rattle.std.specs.Option.{option_map};
ghost use Rattle.std.specs.Char.{is_ascii_digit};
ghost use Rattle.selectors.specs.Characters.{is_name_character, begins};
ghost use Rattle.selectors.specs.Names.{IdentifierIs, begins_name};
ghost use Rattle.selectors.specs.Reading.{name_piece_at, starts_identifier, identifier_at};

use crate::escapes::{escape, is_line_break};
use std::alloc::Global;
use wd_json::{Memory, WdText};

/// Whether this is a letter, a digit, `_`, `-` or a character from U+0080 on.
pub fn is_of_name(c: char) -> bool
    ensures { result ≡ is_name_character c }
{
    c.is_ascii_alphanumeric() || c == '_' || c == '-' || c >= '\u{80}'
}

/// Reads one character of a name, which may be written as an escape, and the text behind it.
fn name_piece(text: &[char]) -> Option<(char, &[char])>
    ensures { option_map (λ x. (x.0 ∷ [], x.1.now)) result ≡ name_piece_at text.now }
{
    let (first, after) = text.split_first()?;
    if is_of_name(*first) {
        Some((*first, after))
    } else if *first == '\\' {
        escape(after)
    } else {
        None
    }
}

/// Whether one more character of a name stands there.
fn is_name_next(text: &[char]) -> bool
    ensures { result ≡ begins_name text.now }
{
    match text {
        ['\\', second, ..] => !is_line_break(*second),
        [first, ..] => is_of_name(*first),
        [] => false,
    }
}

/// Whether the text begins with a digit.
fn is_digit_next(text: &[char]) -> bool
    ensures { result ≡ begins is_ascii_digit text.now }
{
    match text {
        [first, ..] => first.is_ascii_digit(),
        [] => false,
    }
}

/// Whether an identifier stands there: a name that begins neither with a digit nor with `-` and a
/// digit, and isn't `-` alone.
fn is_identifier_next(text: &[char]) -> bool
    ensures { result ≡ starts_identifier text.now }
{
    let Some((first, rest)) = text.split_first() else {
        return false;
    };
    if *first == '-' {
        is_name_next(rest) && !is_digit_next(rest)
    } else {
        is_name_next(text) && !first.is_ascii_digit()
    }
}

/// Reads an identifier: what it means, and the text behind it. None exactly where the text doesn't
/// begin with one. `Memory` where there is no memory for it.
pub fn identifier(alloc: Global, text: &[char]) -> Result<Option<(WdText, &[char])>, Memory>
    ensures exact { IfOk result (λ read. MatchOption read ((value rest : List ℕ) → IdentifierIs text.now value rest → ⊥) (λ x. IdentifierIs text.now x.0 x.1.now)) }
    ensures reads { IfOk result (λ read. option_map (λ x. (x.0, x.1.now)) read ≡ identifier_at text.now) }
{
    if !is_identifier_next(text) {
        return Ok(None);
    }
    let mut value = WdText::new(alloc);
    let mut rest = text;
    while let Some((c, after)) = name_piece(rest) {
        value.push(c)?;
        rest = after;
    }
    Ok(Some((value, rest)))
}
