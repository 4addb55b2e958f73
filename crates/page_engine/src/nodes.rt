//! The document that the nodes of a definition spell, before they have their first values.

ghost use Rattle.std.specs.Prelude.{◌≡◌, ◌<◌, ◌++◌, ◌∷◌, [], ◌^◌, ◌-◌, true, false, Some, None, length, IfSome, IfOk, OnOk};
ghost use Rattle.page_tree.specs.Rows.{count, is_element, is_shadow, is_text, with_content, with_attribute, grown, hosting, max_nodes};
ghost use Rattle.page_engine.specs.Nodes.{AreNodes, is_node, is_root_def};
ghost use Rattle.page_engine.specs.Opening.{bare_rows, content_of, filled, placed, attributed, shown};
ghost use Rattle.page_engine.specs.declared.page_def.NodeKind.TheVariants.{Element};
ghost use Rattle.page_tree.specs.Places.{shadow_of};
ghost use Rattle.std.specs.Str.{chars};

use crate::page_def::{AttrList, NodeDef, NodeDefList, NodeKind};
use page_tree::{Document, PixelBox};
use std::alloc::Global;
use wd_json::{Memory, NodeId, WdText};

/// The document of a page's nodes, before they have their first values.
pub fn document_of(alloc: Global, nodes: &NodeDefList) -> Result<Document, Memory>
    requires { AreNodes nodes.now }
    ensures { IfOk result (λ document. document ≡ record { rows = bare_rows nodes.now; spent = false }) }
{
    let nodes = nodes.as_slice();
    let mut document = root(alloc, &nodes[0])?;
    for i in 1..nodes.len() {
        add_node(&mut document, &nodes[..i], &nodes[i])?;
    }
    Ok(document)
}

/// A document of the first node alone, which is an element.
fn root(alloc: Global, def: &NodeDef) -> Result<Document, Memory>
    requires { is_root_def (Some def.now) ≡ true }
    ensures { IfOk result (λ document. document ≡ record { rows = bare_rows (def.now ∷ []); spent = false }) }
{
    match &def.kind {
        NodeKind::Element(tag) => {
            let mut document = Document::new(alloc, tag.as_str())?;
            fill(&mut document, NodeId::of(0), def)?;
            Ok(document)
        }
        // No page starts with another node.
        _ => Err(Memory),
    }
}

/// Gives an element its fields.
fn fill(document: &mut Document, node: NodeId, def: &NodeDef) -> Result<(), Memory>
    requires alive { document.old.spent ≡ false }
    requires node_in { node < count document.old.rows }
    requires an_element { is_element document.old.rows node ≡ true }
    ensures { OnOk result (document.new ≡ record document.old { rows = with_content document.old.rows node (filled def.now) }) }
{
    set_attributes(document, node, &def.attrs)?;
    show(document, node, def.pixels, def.layer, def.hidden);
    Ok(())
}

/// Gives an element its attributes, one after another.
fn set_attributes(document: &mut Document, node: NodeId, attrs: &AttrList) -> Result<(), Memory>
    requires alive { document.old.spent ≡ false }
    requires node_in { node < count document.old.rows }
    requires an_element { is_element document.old.rows node ≡ true }
    ensures { OnOk result (document.new ≡ record document.old { rows = attributed document.old.rows node attrs.now }) }
{
    for attribute in attrs.as_slice() {
        set_attribute(document, node, attribute)?;
    }
    Ok(())
}

/// Gives an element an attribute.
fn set_attribute(
    document: &mut Document,
    node: NodeId,
    attribute: &(WdText, WdText),
) -> Result<(), Memory>
    requires alive { document.old.spent ≡ false }
    requires node_in { node < count document.old.rows }
    requires an_element { is_element document.old.rows node ≡ true }
    ensures { OnOk result (document.new ≡ record document.old { rows = with_attribute document.old.rows node attribute.now.0 (Some attribute.now.1) }) }
{
    document.set_attr(node, attribute.0.as_str(), Some(attribute.1.as_str()))
}

/// Gives an element its box, its layer and whether it is hidden.
fn show(document: &mut Document, node: NodeId, pixels: Option<PixelBox>, layer: i32, hidden: bool)
    requires alive { document.old.spent ≡ false }
    requires node_in { node < count document.old.rows }
    requires an_element { is_element document.old.rows node ≡ true }
    ensures { document.new ≡ record document.old { rows = shown document.old.rows node pixels layer hidden } }
{
    document.set_box(node, pixels);
    document.set_layer(node, layer);
    document.set_hidden(node, hidden);
}

/// Adds an element that stands alone, with its fields.
fn add_element(document: &mut Document, tag: &str, def: &NodeDef) -> Result<NodeId, Memory>
    requires alive { document.old.spent ≡ false }
    requires kind { def.now.kind ≡ Element (chars tag.now) }
    ensures number { IfOk result (λ node. node ≡ count document.old.rows) }
    ensures ok { OnOk result (document.new ≡ record document.old { rows = grown document.old.rows None (content_of def.now) }) }
{
    document.law();
    match document.add_element(tag) {
        Ok(node) => {
            fill(document, node, def)?;
            Ok(node)
        }
        Err(_) => Err(Memory),
    }
}

/// Adds a node to the document of those before it.
fn add_node(document: &mut Document, earlier: &[NodeDef], def: &NodeDef) -> Result<(), Memory>
    requires before { document.old ≡ record { rows = bare_rows earlier.now; spent = false } }
    requires node { is_node earlier.now def.now ≡ true }
    requires few { length earlier.now < max_nodes }
    ensures { OnOk result (document.new ≡ record { rows = bare_rows (earlier.now ++ def.now ∷ []); spent = false }) }
{
    document.law();
    match &def.kind {
        NodeKind::Element(tag) => {
            let node = add_element(document, tag.as_str(), def)?;
            place(document, node, def.up)
        }
        NodeKind::Chars(text) => match document.add_text(text.as_str()) {
            Ok(node) => place(document, node, def.up),
            Err(_) => Err(Memory),
        },
        NodeKind::Shadow => match def.up {
            Some(host) => host_shadow(document, NodeId::of(host)),
            // A shadow root has a host.
            None => Err(Memory),
        },
    }
}

/// Puts a node last among the children of its parent, if it has one. The document of a page that
/// keeps the rules refuses none.
fn place(document: &mut Document, node: NodeId, up: Option<u32>) -> Result<(), Memory>
    requires alive { document.old.spent ≡ false }
    requires node_in { node < count document.old.rows }
    requires not_root { 0 < node }
    requires not_shadow { is_shadow document.old.rows node ≡ false }
    requires parent { IfSome up (λ p. (p < count document.old.rows) × (is_text document.old.rows p ≡ false)) }
    ensures { OnOk result (document.new ≡ record document.old { rows = placed (2 ^ 32 - 1) document.old.rows node up }) }
{
    match up {
        Some(up) => match document.insert(node, NodeId::of(up), u32::MAX) {
            Ok(()) => Ok(()),
            Err(_) => Err(Memory),
        },
        None => Ok(()),
    }
}

/// Adds a shadow root under its host.
fn host_shadow(document: &mut Document, host: NodeId) -> Result<(), Memory>
    requires alive { document.old.spent ≡ false }
    requires host_in { host < count document.old.rows }
    requires an_element { is_element document.old.rows host ≡ true }
    requires no_host { shadow_of document.old.rows.shadows host ≡ None }
    ensures { OnOk result (document.new ≡ record document.old { rows = hosting document.old.rows host }) }
{
    match document.add_shadow(host) {
        Ok(_) => Ok(()),
        Err(_) => Err(Memory),
    }
}
