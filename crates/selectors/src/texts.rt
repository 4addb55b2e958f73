ghost use Rattle.std.specs.Prelude.{◌≡◌, ◌<◌, false, not, ◌==◌, length};
ghost use Rattle.std.specs.Str.{chars, bytes_eq, encode_utf8_all, str_eq_ignore_ascii_case};
ghost use Rattle.page_tree.specs.Rows.{count, tag_of, attribute_of};
ghost use Rattle.selectors.specs.Texts.{is_space, parts_have, has_word, has_text, is_tag, names_word, fits_tag};

use page_tree::Document;
use wd_json::{NodeId, WdText, is_same};

/// Whether the node is an element with exactly this tag.
#[tactic(auto, unfolding(crate::specs::Texts::is_tag))]
pub fn is_tag(document: &Document, node: NodeId, tag: &str) -> bool
    requires alive { document.now.spent ≡ false }
    requires node_in { node < count document.now.rows }
    ensures { result ≡ is_tag document.now.rows node tag.now }
{
    match document.tag(node) {
        Some(own) => spells(own, tag),
        None => false,
    }
}

/// Whether the node is an element with this tag, without regard to ASCII case.
pub fn fits_tag(document: &Document, node: NodeId, text: &WdText) -> bool
    requires alive { document.now.spent ≡ false }
    requires node_in { node < count document.now.rows }
    ensures { result ≡ fits_tag text.now (tag_of document.now.rows node) }
{
    match document.tag(node) {
        Some(tag) => is_same_ignoring_case(tag, text),
        None => false,
    }
}

/// Whether the node's attribute is this text.
pub fn attribute_is(document: &Document, node: NodeId, name: &str, text: &WdText) -> bool
    requires alive { document.now.spent ≡ false }
    requires node_in { node < count document.now.rows }
    ensures { result ≡ has_text text.now (attribute_of document.now.rows node (chars name.now)) }
{
    match document.attr(node, name) {
        Some(value) => is_same(value, text.as_str()),
        None => false,
    }
}

/// Whether the node's attribute is this literal text.
pub fn attribute_spells(document: &Document, node: NodeId, name: &str, text: &str) -> bool
    requires alive { document.now.spent ≡ false }
    requires node_in { node < count document.now.rows }
    ensures { result ≡ has_text (chars text.now) (attribute_of document.now.rows node (chars name.now)) }
{
    match document.attr(node, name) {
        Some(value) => is_same(value, text),
        None => false,
    }
}

/// Whether this is a word of the node's attribute.
pub fn attribute_names(document: &Document, node: NodeId, name: &str, word: &WdText) -> bool
    requires alive { document.now.spent ≡ false }
    requires node_in { node < count document.now.rows }
    ensures { result ≡ names_word word.now (attribute_of document.now.rows node (chars name.now)) }
{
    match document.attr(node, name) {
        Some(value) => text_has_word(value, word),
        None => false,
    }
}

/// Whether the text has a character.
pub fn has_characters(text: &str) -> bool
    ensures { result ≡ not (length (chars text.now) == 0) }
{
    !text.is_empty()
}

fn is_same_ignoring_case(tag: &str, text: &WdText) -> bool
    ensures { result ≡ str_eq_ignore_ascii_case (encode_utf8_all (chars tag.now)) (encode_utf8_all text.now) }
{
    tag.eq_ignore_ascii_case(text.as_str())
}

fn spells(own: &str, tag: &str) -> bool
    ensures { result ≡ bytes_eq (encode_utf8_all (chars own.now)) tag.now }
{
    own == tag
}

fn text_has_word(value: &str, word: &WdText) -> bool
    ensures { result ≡ has_word (encode_utf8_all word.now) (encode_utf8_all (chars value.now)) }
{
    has_word(value.as_bytes(), word.as_str().as_bytes())
}

/// Whether the word is one of those between the white space of the value.
pub fn has_word(value: &[u8], word: &[u8]) -> bool
    ensures { result ≡ has_word word.now value.now }
{
    !word.is_empty() && parts_have(value, word)
}

fn parts_have(value: &[u8], word: &[u8]) -> bool
    ensures { result ≡ parts_have word.now value.now }
{
    value.split(|byte| is_space(*byte)).any(|part| part == word)
}

// White space is space, tab, LF, FF and CR.
fn is_space(byte: u8) -> bool
    ensures { result ≡ is_space byte }
{
    byte == b' ' || byte == b'\t' || byte == b'\n' || byte == 12 || byte == b'\r'
}
