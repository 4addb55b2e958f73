//! Which nodes are shown: connected, with nothing hidden at or above them.

ghost use Rattle.std.specs.Prelude.{◌≡◌, slice_get};
ghost use Rattle.std.specs.List.{list_any};
ghost use Rattle.std.specs.Option.{option_copied};
ghost use Rattle.std.specs.Str.{chars, bytes_eq};
ghost use Rattle.page_tree.specs.Attributes.{value_of};
ghost use Rattle.page_tree.specs.Places.{lineage};
ghost use Rattle.page_tree.specs.Inside.{rows_of, ups_of, contents_of};
ghost use Rattle.page_tree.specs.Display.{has_tag, has_text, is_unseen, is_hidden_input, is_concealed, hides as hides_in, is_shown as shown_in};

use crate::ancestors::{MAX_DEPTH, is_above};
use crate::content::{Content, Kind};
use crate::node::{Node, parent};
use wd_json::{NodeId, is_same};

/// Whether the node is connected, and neither it nor what is above it, through hosts, is hidden.
pub fn is_shown(nodes: &[Node], node: NodeId) -> bool
    ensures { result ≡ shown_in (rows_of nodes.now) node }
{
    is_above(nodes, NodeId::of(0), node) && !is_under_hidden(nodes, node)
}

// Whether the node or one above it, through hosts, is hidden.
#[tactic(auto, using(crate::proofs::Chains::chain_steps))]
fn is_under_hidden(nodes: &[Node], node: NodeId) -> bool
    ensures { result ≡ list_any (hides_in (rows_of nodes.now)) (lineage (ups_of nodes.now) node) }
{
    let mut at = node;
    for _i in 0..MAX_DEPTH {
        if hides(nodes, at) {
            return true;
        }
        match parent(nodes, at) {
            Some(up) => at = up,
            None => return false,
        }
    }
    hides(nodes, at)
}

/// Whether the node itself is hidden, with all that stands under it.
pub fn hides(nodes: &[Node], node: NodeId) -> bool
    ensures { result ≡ hides_in (rows_of nodes.now) node }
{
    match content(nodes, node) {
        Some(content) => is_concealed(content),
        None => false,
    }
}

/// What a node is.
pub fn content(nodes: &[Node], node: NodeId) -> Option<&Content>
    ensures { option_copied result ≡ slice_get (contents_of nodes.now) node }
{
    match nodes.get(node.index()) {
        Some(n) => Some(&n.content),
        None => None,
    }
}

/// Whether it is an element with exactly this tag.
pub fn has_tag(content: &Content, tag: &str) -> bool
    ensures { result ≡ has_tag tag.now content.now }
{
    match &content.kind {
        Kind::Element(own) => own.is(tag),
        Kind::Text(_) => false,
        Kind::Shadow => false,
    }
}

fn is_concealed(content: &Content) -> bool
    ensures { result ≡ is_concealed content.now }
{
    content.hidden
        || content.attributes.value("hidden").is_some()
        || is_hidden_input(content)
        || is_unseen(content)
}

fn is_hidden_input(content: &Content) -> bool
    ensures { result ≡ is_hidden_input content.now }
{
    has_tag(content, "input") && has_value(content, "type", "hidden")
}

fn has_value(content: &Content, name: &str, text: &str) -> bool
    ensures { result ≡ has_text (chars text.now) (value_of (chars name.now) content.now.attributes) }
{
    match content.attributes.value(name) {
        Some(value) => is_same(value, text),
        None => false,
    }
}

fn is_unseen(content: &Content) -> bool
    ensures { result ≡ is_unseen content.now }
{
    has_tag(content, "head")
        || has_tag(content, "title")
        || has_tag(content, "script")
        || has_tag(content, "style")
        || has_tag(content, "meta")
        || has_tag(content, "link")
        || has_tag(content, "template")
        || has_tag(content, "noscript")
}
