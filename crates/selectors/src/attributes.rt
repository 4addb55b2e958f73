ghost use Rattle.std.specs.Prelude.{◌≡◌, ◌<◌, false, nat_eq};
ghost use Rattle.std.specs.Str.{bytes_eq};
ghost use Rattle.page_tree.specs.Rows.{count};
ghost use Rattle.selectors.specs.Passes.{holds, is_dashed, passes, is_named_like, value_passes, has_attribute, attribute_passes};

use crate::selector::Test;
use crate::texts::has_word;
use page_tree::Document;
use wd_json::{NodeId, WdText};

/// Whether the node has an attribute of this name, without regard to ASCII case.
pub fn has_attribute(document: &Document, node: NodeId, name: &WdText) -> bool
    requires alive { document.now.spent ≡ false }
    requires node_in { node < count document.now.rows }
    ensures { result ≡ has_attribute document.now.rows node name.now }
{
    document
        .attributes(node)
        .iter()
        .any(|attribute| is_named_like(attribute, name))
}

/// Whether some attribute of this name, without regard to ASCII case, passes the test.
pub fn attribute_passes(
    document: &Document,
    node: NodeId,
    name: &WdText,
    test: Test,
    text: &WdText,
) -> bool
    requires alive { document.now.spent ≡ false }
    requires node_in { node < count document.now.rows }
    ensures { result ≡ attribute_passes document.now.rows node name.now test text.now }
{
    document.attributes(node).iter().any(|attribute| is_named_like(attribute, name)
        && value_passes(attribute, test, text))
}

fn is_named_like(attribute: &(WdText, WdText), name: &WdText) -> bool
    ensures { result ≡ is_named_like name.now attribute.now }
{
    attribute.0.as_str().eq_ignore_ascii_case(name.as_str())
}

fn value_passes(attribute: &(WdText, WdText), test: Test, text: &WdText) -> bool
    ensures { result ≡ value_passes test text.now attribute.now }
{
    passes(test, text.as_str(), attribute.1.as_str())
}

fn passes(test: Test, text: &str, value: &str) -> bool
    ensures { result ≡ passes test text.now value.now }
{
    match test {
        Test::Equal => value == text,
        Test::Word => has_word(value.as_bytes(), text.as_bytes()),
        Test::Dash => is_dashed(text.as_bytes(), value.as_bytes()),
        Test::Starts => !text.is_empty() && value.as_bytes().starts_with(text.as_bytes()),
        Test::Ends => !text.is_empty() && value.as_bytes().ends_with(text.as_bytes()),
        Test::Holds => !text.is_empty() && holds(text, value),
    }
}

fn is_dashed(text: &[u8], value: &[u8]) -> bool
    ensures { result ≡ is_dashed text.now value.now }
{
    value == text || (value.starts_with(text) && value.get(text.len()) == Some(&b'-'))
}

fn holds(text: &str, value: &str) -> bool
    ensures { result ≡ holds text.now value.now }
{
    value.contains(text)
}
