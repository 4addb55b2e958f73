//! A row of a document: a node with its parent, its children and its shadow root.

ghost use Rattle.std.specs.Prelude.{◌≡◌};
ghost use Rattle.std.specs.Option.{option_copied, option_map};
ghost use Rattle.std.specs.Str.{chars};
ghost use Rattle.page_tree.specs.Places.{up_of, kids_of, shadow_of};
ghost use Rattle.page_tree.specs.Inside.{rows_of, ups_of, kids_lists, shadows_of};
ghost use Rattle.page_tree.specs.Rows.{text_of};

use crate::content::{Content, Kind};
use wd_json::NodeId;

/// A node with its parent, its children and its shadow root.
#[derive(Drop)]
pub struct Node {
    pub up: Option<NodeId>,
    pub kids: Vec<NodeId>,
    pub shadow: Option<NodeId>,
    pub content: Content,
}

/// The parent of a node; that of a shadow root is its host.
pub fn parent(nodes: &[Node], node: NodeId) -> Option<NodeId>
    ensures { result ≡ up_of (ups_of nodes.now) node }
{
    match nodes.get(node.index()) {
        Some(n) => n.up,
        None => None,
    }
}

/// The children of a node, in order.
pub fn kids(nodes: &[Node], node: NodeId) -> &[NodeId]
    ensures { result.now ≡ kids_of (kids_lists nodes.now) node }
{
    match nodes.get(node.index()) {
        Some(n) => n.kids.as_slice(),
        None => &[],
    }
}

/// The shadow root of a node.
pub fn shadow(nodes: &[Node], node: NodeId) -> Option<NodeId>
    ensures { result ≡ shadow_of (shadows_of nodes.now) node }
{
    match nodes.get(node.index()) {
        Some(n) => n.shadow,
        None => None,
    }
}

/// The characters of a text; `None` for an element or a shadow root.
pub fn text(nodes: &[Node], node: NodeId) -> Option<&str>
    ensures { option_map chars (option_copied result) ≡ text_of (rows_of nodes.now) node }
{
    match nodes.get(node.index()) {
        Some(
            Node {
                content: Content {
                    kind: Kind::Text(text),
                    ..
                },
                ..
            },
        ) => Some(text.as_str()),
        _ => None,
    }
}
