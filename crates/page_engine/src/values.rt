//! The first value and checked state of each node.

ghost use Rattle.std.specs.Prelude.{◌≡◌, ◌<◌, false, is_some, IfOk, OnOk};
ghost use Rattle.std.specs.Str.{IsAscii};
ghost use Rattle.page_tree.specs.Rows.{count, attribute_of, tag_of, with_content};
ghost use Rattle.page_tree.specs.Texts.{or_nothing};
ghost use Rattle.page_engine.specs.FirstValues.{first_at, first_value, first_checked, firsts_of, has_text, is_editable_content, started, with_firsts};

use crate::first::First;
use page_tree::Document;
use std::alloc::Global;
use wd_json::{Memory, NodeId, WdText, is_same};

/// The first value and checked state of each node.
pub fn firsts(alloc: Global, document: &Document) -> Result<Vec<First>, Memory>
    requires { document.now.spent ≡ false }
    ensures { IfOk result (λ firsts. firsts.items ≡ firsts_of document.now.rows) }
{
    document.law();
    let mut firsts = Vec::new(alloc);
    for number in 0..document.count() {
        firsts.push(first(alloc, document, NodeId::of(number))?)?;
    }
    Ok(firsts)
}

/// The first value and checked state of a node.
fn first(alloc: Global, document: &Document, node: NodeId) -> Result<First, Memory>
    requires alive { document.now.spent ≡ false }
    requires node_in { node < count document.now.rows }
    ensures { IfOk result (λ first. first ≡ first_at document.now.rows node) }
{
    if document.tag(node).is_none() {
        return Ok(First {
            value: WdText::new(alloc),
            checked: false,
        });
    }
    Ok(First {
        value: value(alloc, document, node)?,
        checked: is_checked(document, node),
    })
}

/// The attribute `value` of an input; the texts below a textarea or editable content.
fn value(alloc: Global, document: &Document, node: NodeId) -> Result<WdText, Memory>
    requires alive { document.now.spent ≡ false }
    requires node_in { node < count document.now.rows }
    ensures { IfOk result (λ value. value ≡ first_value document.now.rows node) }
{
    if has_tag(document, node, "input") {
        return attribute_text(alloc, document, node, "value");
    }
    if has_tag(document, node, "textarea") || is_editable(document, node) {
        return document.texts_below(node);
    }
    Ok(WdText::new(alloc))
}

/// Whether the attribute `checked` or `selected` stands.
fn is_checked(document: &Document, node: NodeId) -> bool
    requires alive { document.now.spent ≡ false }
    requires node_in { node < count document.now.rows }
    ensures { result ≡ first_checked document.now.rows node }
{
    has_attribute(document, node, "checked") || has_attribute(document, node, "selected")
}

/// Whether the node has editable content.
fn is_editable(document: &Document, node: NodeId) -> bool
    requires alive { document.now.spent ≡ false }
    requires node_in { node < count document.now.rows }
    ensures { result ≡ is_editable_content document.now.rows node }
{
    attribute_is(document, node, "contenteditable", "")
        || attribute_is(document, node, "contenteditable", "true")
}

/// The text of an attribute, and no text where there is none.
fn attribute_text(
    alloc: Global,
    document: &Document,
    node: NodeId,
    name: &str,
) -> Result<WdText, Memory>
    requires alive { document.now.spent ≡ false }
    requires node_in { node < count document.now.rows }
    requires ascii { IsAscii name.now }
    ensures { IfOk result (λ text. text ≡ or_nothing (attribute_of document.now.rows node name.now)) }
{
    match document.attr(node, name) {
        Some(text) => WdText::of(alloc, text),
        None => Ok(WdText::new(alloc)),
    }
}

/// Whether the attribute stands.
fn has_attribute(document: &Document, node: NodeId, name: &str) -> bool
    requires alive { document.now.spent ≡ false }
    requires node_in { node < count document.now.rows }
    requires ascii { IsAscii name.now }
    ensures { result ≡ is_some (attribute_of document.now.rows node name.now) }
{
    document.attr(node, name).is_some()
}

/// Whether the attribute is this text.
fn attribute_is(document: &Document, node: NodeId, name: &str, text: &str) -> bool
    requires alive { document.now.spent ≡ false }
    requires node_in { node < count document.now.rows }
    requires name { IsAscii name.now }
    requires text { IsAscii text.now }
    ensures { result ≡ has_text text.now (attribute_of document.now.rows node name.now) }
{
    match document.attr(node, name) {
        Some(found) => is_same(found, text),
        None => false,
    }
}

/// Whether the node is an element with exactly this tag.
fn has_tag(document: &Document, node: NodeId, tag: &str) -> bool
    requires alive { document.now.spent ≡ false }
    requires node_in { node < count document.now.rows }
    requires ascii { IsAscii tag.now }
    ensures { result ≡ has_text tag.now (tag_of document.now.rows node) }
{
    match document.tag(node) {
        Some(found) => is_same(found, tag),
        None => false,
    }
}

/// Gives each element its first value and checked state.
pub fn start(document: &mut Document, firsts: &[First]) -> Result<(), Memory>
    requires alive { document.old.spent ≡ false }
    requires values { firsts.now ≡ firsts_of document.old.rows }
    ensures { OnOk result (document.new ≡ record document.old { rows = with_firsts document.old.rows }) }
{
    document.law();
    for number in 0..firsts.len() {
        start_node(document, NodeId::of(number as u32), &firsts[number])?;
    }
    Ok(())
}

/// Gives a node its first value and checked state, if it is an element.
fn start_node(document: &mut Document, node: NodeId, first: &First) -> Result<(), Memory>
    requires alive { document.old.spent ≡ false }
    requires node_in { node < count document.old.rows }
    ensures { OnOk result (document.new ≡ record document.old { rows = with_content document.old.rows node (started first.now) }) }
{
    if document.tag(node).is_some() {
        document.set_value(node, first.value.as_str())?;
        document.set_checked(node, first.checked);
    }
    Ok(())
}
