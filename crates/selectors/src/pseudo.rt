ghost use Rattle.std.specs.Prelude.{◌≡◌, ◌+◌, length};
ghost use Rattle.std.specs.Option.{option_map};
ghost use Rattle.std.specs.Str.{bytes_eq, str_to_ascii_lowercase};
ghost use Rattle.selectors.specs.Characters.{is_name_character};
ghost use Rattle.selectors.specs.ReadingSimples.{passing, past, behind_character, word_simple};

use crate::names::is_of_name;
use crate::selector::Simple;

/// The text behind this character, where it stands in front.
pub fn behind(c: char, text: &[char]) -> Option<&[char]>
    ensures { option_map (λ rest. rest.now) result ≡ behind_character c text.now }
{
    let (first, rest) = text.split_first()?;
    if *first == c { Some(rest) } else { None }
}

/// The text behind the characters of a word at the front.
fn past_word(text: &[char]) -> &[char]
    ensures { result.now ≡ past is_name_character text.now }
{
    let mut rest = text;
    while let Some((first, after)) = rest.split_first() {
        if !is_of_name(*first) {
            break;
        }
        rest = after;
    }
    rest
}

/// The characters of a word at the front, and the text behind them.
pub fn split_word(text: &[char]) -> (&[char], &[char])
    ensures word { result.0.now ≡ passing is_name_character text.now }
    ensures rest { result.1.now ≡ past is_name_character text.now }
{
    let rest = past_word(text);
    (&text[..text.len() - rest.len()], rest)
}

/// Whether this is a word of ASCII, which is given in lower case, without regard to ASCII case.
pub fn is_word(written: &[char], word: &str) -> bool
    ensures { result ≡ bytes_eq (str_to_ascii_lowercase written.now) word.now }
{
    let mut rest = written;
    for byte in word.as_bytes() {
        match rest.split_first() {
            Some((first, after)) if first.to_ascii_lowercase() == char::from(*byte) => rest = after,
            _ => return false,
        }
    }
    rest.is_empty()
}

/// The pseudo-class of a word that stands alone.
pub fn pseudo_class(written: &[char]) -> Option<Simple>
    ensures { result ≡ word_simple (str_to_ascii_lowercase written.now) }
{
    if is_word(written, "first-child") {
        Some(Simple::FirstChild)
    } else if is_word(written, "last-child") {
        Some(Simple::LastChild)
    } else if is_word(written, "empty") {
        Some(Simple::Empty)
    } else if is_word(written, "root") {
        Some(Simple::Root)
    } else if is_word(written, "checked") {
        Some(Simple::Checked)
    } else if is_word(written, "enabled") {
        Some(Simple::Enabled)
    } else if is_word(written, "disabled") {
        Some(Simple::Disabled)
    } else {
        None
    }
}
