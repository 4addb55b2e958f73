//! The names of tags and of attributes.

ghost use Rattle.std.specs.Prelude.{◌≡◌};
ghost use Rattle.page_engine.specs.Names.{is_lower, is_digit, is_tag_character, is_name_character, is_tag, is_attribute_name};
ghost use Rattle.std.specs.List.{list_all};
ghost use Rattle.std.specs.Str.{chars};
ghost use Rattle.page_file.specs.NodeValues.{begins_lower};

use wd_json::WdText;

fn is_lower(c: char) -> bool
    ensures { result ≡ is_lower c }
{
    'a' <= c && c <= 'z'
}

fn is_digit(c: char) -> bool
    ensures { result ≡ is_digit c }
{
    '0' <= c && c <= '9'
}

fn is_tag_character(c: char) -> bool
    ensures { result ≡ is_tag_character c }
{
    is_lower(c) || is_digit(c) || c == '-'
}

fn is_name_character(c: char) -> bool
    ensures { result ≡ is_name_character c }
{
    is_tag_character(c) || c == '_' || c == ':'
}

// Whether the first character is a lower-case letter.
fn begins_lower(text: &WdText) -> bool
    ensures { result ≡ begins_lower text.now }
{
    match text.as_str().chars().next() {
        Some(first) => is_lower(first),
        None => false,
    }
}

fn are_tag_characters(text: &str) -> bool
    ensures { result ≡ list_all is_tag_character (chars text.now) }
{
    text.chars().all(|c| is_tag_character(c))
}

fn are_name_characters(text: &str) -> bool
    ensures { result ≡ list_all is_name_character (chars text.now) }
{
    text.chars().all(|c| is_name_character(c))
}

/// Whether the text is the tag of an element: a lower-case letter, then lower-case letters, digits
/// or `-`.
#[tactic(auto, using(crate::proofs::NameTests::tag_is))]
pub fn is_tag(text: &WdText) -> bool
    ensures { result ≡ is_tag text.now }
{
    begins_lower(text) && are_tag_characters(text.as_str())
}

/// Whether the text is the name of an attribute: a lower-case letter, then lower-case letters,
/// digits, `_`, `:` or `-`.
#[tactic(auto, using(crate::proofs::NameTests::name_is))]
pub fn is_attribute_name(text: &WdText) -> bool
    ensures { result ≡ is_attribute_name text.now }
{
    begins_lower(text) && are_name_characters(text.as_str())
}
