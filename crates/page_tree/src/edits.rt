//! Adding nodes to the rows of a document, and moving them from parent to parent.

ghost use Rattle.std.specs.Prelude.{◌≡◌, ◌+◌, ◌<◌, ◌^◌, None, Some, length, IfOk, OnOk, OnErr};
ghost use Rattle.std.specs.Str.{chars};
ghost use Rattle.std.specs.Option.{option_copied, option_map};
ghost use Rattle.page_tree.specs.Places.{kids_of, without, put_among};
ghost use Rattle.page_tree.specs.Inside.{kids_lists, rows_of};
ghost use Rattle.page_tree.specs.Rows.{IsTree, element, text_node, grown, hosting, detached, attached, with_shadow, with_up, with_kids, without_kid, with_attribute};

use crate::content::Content;
use crate::node::{Node, parent};
use std::alloc::{AllocError, Global};
use wd_json::{Memory, NodeId};

/// Adds an element, which stands alone.
pub fn push_element(nodes: &mut Vec<Node>, alloc: Global, tag: &str) -> Result<(), Memory>
    ensures ok { OnOk result (rows_of nodes.new.items ≡ grown (rows_of nodes.old.items) None (element (chars tag.now))) }
    ensures err { OnErr result (nodes.new.items ≡ nodes.old.items) }
{
    let content = Content::element(alloc, tag)?;
    push_node(nodes, alloc, None, content)
}

/// Adds a text, which stands alone.
pub fn push_text(nodes: &mut Vec<Node>, alloc: Global, text: &str) -> Result<(), Memory>
    ensures ok { OnOk result (rows_of nodes.new.items ≡ grown (rows_of nodes.old.items) None (text_node (chars text.now))) }
    ensures err { OnErr result (nodes.new.items ≡ nodes.old.items) }
{
    let content = Content::text(alloc, text)?;
    push_node(nodes, alloc, None, content)
}

/// Adds a shadow root under this host.
pub fn push_shadow(nodes: &mut Vec<Node>, alloc: Global, host: NodeId) -> Result<(), Memory>
    requires room { length nodes.old.items < 2 ^ 32 }
    requires within { host < length nodes.old.items }
    ensures ok { OnOk result (rows_of nodes.new.items ≡ hosting (rows_of nodes.old.items) host) }
    ensures err { OnErr result (nodes.new.items ≡ nodes.old.items) }
{
    let root = NodeId::of(nodes.len() as u32);
    push_node(nodes, alloc, Some(host), Content::shadow(alloc))?;
    set_shadow(nodes, host, Some(root));
    Ok(())
}

fn push_node(
    nodes: &mut Vec<Node>,
    alloc: Global,
    up: Option<NodeId>,
    content: Content,
) -> Result<(), Memory>
    ensures ok { OnOk result (rows_of nodes.new.items ≡ grown (rows_of nodes.old.items) up content) }
    ensures len { OnOk result (length nodes.new.items ≡ length nodes.old.items + 1) }
    ensures err { OnErr result (nodes.new.items ≡ nodes.old.items) }
{
    nodes.push(Node {
        up,
        kids: Vec::new(alloc),
        shadow: None,
        content,
    })?;
    Ok(())
}

/// Takes the node out of its parent's children, so that it stands alone with what is below it.
pub fn detach(nodes: &mut Vec<Node>, node: NodeId)
    requires tree { IsTree (rows_of nodes.old.items) }
    requires within { node < length nodes.old.items }
    ensures { rows_of nodes.new.items ≡ detached (rows_of nodes.old.items) node }
{
    leave_parent(nodes, node);
    set_up(nodes, node, None);
}

/// Puts a node that stands alone at that place among the children of `under`, or last where there
/// are fewer. After want of memory it still stands alone.
pub fn attach(
    nodes: &mut Vec<Node>,
    node: NodeId,
    under: NodeId,
    place: usize,
) -> Result<(), AllocError>
    requires within { node < length nodes.old.items }
    requires under_within { under < length nodes.old.items }
    ensures ok { OnOk result (rows_of nodes.new.items ≡ attached (rows_of nodes.old.items) node under place) }
    ensures err { OnErr result (rows_of nodes.new.items ≡ rows_of nodes.old.items) }
{
    add_kid(nodes, under, node, place)?;
    set_up(nodes, node, Some(under));
    Ok(())
}

/// Sets the node's attribute, or takes it away where there is no value.
pub fn set_attribute(
    nodes: &mut Vec<Node>,
    alloc: Global,
    node: NodeId,
    name: &str,
    value: Option<&str>,
) -> Result<(), Memory>
    requires { node < length nodes.old.items }
    ensures ok { OnOk result (rows_of nodes.new.items ≡ with_attribute (rows_of nodes.old.items) node (chars name.now) (option_map chars (option_copied value.entry))) }
    ensures err { OnErr result (rows_of nodes.new.items ≡ rows_of nodes.old.items) }
{
    nodes[node.index()]
        .content
        .attributes
        .change(alloc, name, value)
}

fn leave_parent(nodes: &mut Vec<Node>, node: NodeId)
    requires tree { IsTree (rows_of nodes.old.items) }
    requires within { node < length nodes.old.items }
    ensures { rows_of nodes.new.items ≡ without_kid (rows_of nodes.old.items) node }
{
    match parent(nodes, node) {
        Some(up) => drop_kid(nodes, up, node),
        None => {}
    }
}

fn set_up(nodes: &mut Vec<Node>, node: NodeId, up: Option<NodeId>)
    requires { node < length nodes.old.items }
    ensures { rows_of nodes.new.items ≡ with_up (rows_of nodes.old.items) node up }
{
    nodes[node.index()].up = up;
}

fn set_shadow(nodes: &mut Vec<Node>, node: NodeId, shadow: Option<NodeId>)
    requires { node < length nodes.old.items }
    ensures { rows_of nodes.new.items ≡ with_shadow (rows_of nodes.old.items) node shadow }
{
    nodes[node.index()].shadow = shadow;
}

fn drop_kid(nodes: &mut Vec<Node>, node: NodeId, kid: NodeId)
    requires { node < length nodes.old.items }
    ensures { rows_of nodes.new.items ≡ with_kids (rows_of nodes.old.items) node (without kid (kids_of (kids_lists nodes.old.items) node)) }
{
    take_out(&mut nodes[node.index()].kids, kid);
}

fn take_out(kids: &mut Vec<NodeId>, node: NodeId)
    ensures { kids.new.items ≡ without node kids.old.items }
{
    kids.retain(|kid| *kid != node);
}

fn add_kid(nodes: &mut Vec<Node>, node: NodeId, kid: NodeId, place: usize) -> Result<(), AllocError>
    requires { node < length nodes.old.items }
    ensures ok { OnOk result (rows_of nodes.new.items ≡ with_kids (rows_of nodes.old.items) node (put_among place kid (kids_of (kids_lists nodes.old.items) node))) }
    ensures err { OnErr result (rows_of nodes.new.items ≡ rows_of nodes.old.items) }
{
    put_in(&mut nodes[node.index()].kids, kid, place)
}

fn put_in(kids: &mut Vec<NodeId>, node: NodeId, place: usize) -> Result<(), AllocError>
    ensures ok { OnOk result (kids.new.items ≡ put_among place node kids.old.items) }
    ensures err { OnErr result (kids.new.items ≡ kids.old.items) }
{
    let place = place.min(kids.len());
    kids.insert(place, node)?;
    Ok(())
}
