//! Changes of a document that leave it as it is where they don't apply.

ghost use Rattle.std.specs.Prelude.{◌≡◌, ◌<◌, true, false, OnOk};
ghost use Rattle.std.specs.Str.{chars};
ghost use Rattle.std.specs.Option.{option_copied, option_map};
ghost use Rattle.page_tree.specs.Rows.{count, is_element, is_text, is_shadow, with_attribute, with_text, with_value, with_pixels, with_layer, with_hidden, with_checked};
ghost use Rattle.page_engine.specs.Effects.{is_movable, is_holder, removed, inserted, of_element, of_text};

use page_tree::{Document, PixelBox, TreeFault};
use wd_json::{Memory, NodeId, WdText};

/// Whether the node is there, and is neither the root nor a shadow root.
fn is_movable(document: &Document, node: NodeId) -> bool
    requires { document.now.spent ≡ false }
    ensures value { result ≡ is_movable document.now.rows node }
    ensures node_in { result ≡ true → node < count document.now.rows }
    ensures not_root { result ≡ true → 0 < node }
    ensures not_shadow { result ≡ true → is_shadow document.now.rows node ≡ false }
{
    0 < node.number() && node.number() < document.count() && !document.is_shadow(node)
}

/// Whether the node is there and is no text.
fn is_holder(document: &Document, node: NodeId) -> bool
    requires { document.now.spent ≡ false }
    ensures value { result ≡ is_holder document.now.rows node }
    ensures node_in { result ≡ true → node < count document.now.rows }
    ensures not_text { result ≡ true → is_text document.now.rows node ≡ false }
{
    node.number() < document.count() && document.text(node).is_none()
}

/// Whether the node is there and is an element.
fn is_element(document: &Document, node: NodeId) -> bool
    requires { document.now.spent ≡ false }
    ensures value { result ≡ is_element document.now.rows node }
    ensures node_in { result ≡ true → node < count document.now.rows }
{
    document.law();
    node.number() < document.count() && document.tag(node).is_some()
}

/// Whether the node is there and is a text.
fn is_text(document: &Document, node: NodeId) -> bool
    requires { document.now.spent ≡ false }
    ensures value { result ≡ is_text document.now.rows node }
    ensures node_in { result ≡ true → node < count document.now.rows }
{
    document.law();
    node.number() < document.count() && document.text(node).is_some()
}

/// The node loses its parent.
pub fn remove(document: &mut Document, node: NodeId)
    requires { document.old.spent ≡ false }
    ensures { document.new ≡ record document.old { rows = removed document.old.rows node } }
{
    if is_movable(document, node) {
        document.remove(node);
    }
}

/// The node goes to that place among the parent's children, where that is not refused.
pub fn insert(
    document: &mut Document,
    node: NodeId,
    parent: NodeId,
    place: u32,
) -> Result<(), Memory>
    requires { document.old.spent ≡ false }
    ensures { OnOk result (document.new ≡ record document.old { rows = inserted document.old.rows node parent place }) }
{
    if !is_movable(document, node) || !is_holder(document, parent) {
        return Ok(());
    }
    match document.insert(node, parent, place) {
        Ok(()) => Ok(()),
        Err(TreeFault::Memory) => Err(Memory),
        Err(_) => Ok(()),
    }
}

/// The attribute of an element gets that value, or is taken away.
pub fn set_attribute(
    document: &mut Document,
    node: NodeId,
    name: &WdText,
    value: &Option<WdText>,
) -> Result<(), Memory>
    requires { document.old.spent ≡ false }
    ensures { OnOk result (document.new ≡ record document.old { rows = of_element document.old.rows node (with_attribute document.old.rows node name.now value.now) }) }
{
    if !is_element(document, node) {
        return Ok(());
    }
    match value {
        Some(value) => document.set_attr(node, name.as_str(), Some(value.as_str())),
        None => document.set_attr(node, name.as_str(), None),
    }
}

/// The characters of a text.
pub fn set_text(document: &mut Document, node: NodeId, text: &WdText) -> Result<(), Memory>
    requires { document.old.spent ≡ false }
    ensures { OnOk result (document.new ≡ record document.old { rows = of_text document.old.rows node (with_text document.old.rows node text.now) }) }
{
    if !is_text(document, node) {
        return Ok(());
    }
    document.set_text(node, text.as_str())
}

/// The value of an element.
pub fn set_value(document: &mut Document, node: NodeId, text: &WdText) -> Result<(), Memory>
    requires { document.old.spent ≡ false }
    ensures { OnOk result (document.new ≡ record document.old { rows = of_element document.old.rows node (with_value document.old.rows node text.now) }) }
{
    if !is_element(document, node) {
        return Ok(());
    }
    document.set_value(node, text.as_str())
}

/// The box of an element.
pub fn set_box(document: &mut Document, node: NodeId, pixels: Option<PixelBox>)
    requires { document.old.spent ≡ false }
    ensures { document.new ≡ record document.old { rows = of_element document.old.rows node (with_pixels document.old.rows node pixels) } }
{
    if is_element(document, node) {
        document.set_box(node, pixels);
    }
}

/// The layer of an element.
pub fn set_layer(document: &mut Document, node: NodeId, layer: i32)
    requires { document.old.spent ≡ false }
    ensures { document.new ≡ record document.old { rows = of_element document.old.rows node (with_layer document.old.rows node layer) } }
{
    if is_element(document, node) {
        document.set_layer(node, layer);
    }
}

/// Whether an element is hidden.
pub fn set_hidden(document: &mut Document, node: NodeId, hidden: bool)
    requires { document.old.spent ≡ false }
    ensures { document.new ≡ record document.old { rows = of_element document.old.rows node (with_hidden document.old.rows node hidden) } }
{
    if is_element(document, node) {
        document.set_hidden(node, hidden);
    }
}

/// The checked state of an element.
pub fn set_checked(document: &mut Document, node: NodeId, checked: bool)
    requires { document.old.spent ≡ false }
    ensures { document.new ≡ record document.old { rows = of_element document.old.rows node (with_checked document.old.rows node checked) } }
{
    if is_element(document, node) {
        document.set_checked(node, checked);
    }
}
