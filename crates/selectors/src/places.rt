ghost use Rattle.std.specs.Prelude.{◌≡◌, ◌+◌, ◌<◌, false, IfOk, IfSome};
ghost use Rattle.std.specs.List.{All};
ghost use Rattle.page_tree.specs.Rows.{count, is_element};
ghost use Rattle.selectors.specs.Siblings.{own_parent, own_above, earlier, later, kids_under};

use page_tree::{Document, MAX_DEPTH};
use std::alloc::Global;
use wd_json::{Memory, NodeId, NodeList};

pub fn is_element(document: &Document, node: NodeId) -> bool
    requires alive { document.now.spent ≡ false }
    requires node_in { node < count document.now.rows }
    ensures { result ≡ is_element document.now.rows node }
{
    document.tag(node).is_some()
}

/// The parent within the node's own tree, `None` for its top.
pub fn own_parent(document: &Document, node: NodeId) -> Option<NodeId>
    requires alive { document.now.spent ≡ false }
    requires node_in { node < count document.now.rows }
    ensures row { result ≡ own_parent document.now.rows node }
    ensures within { IfSome result (λ up. up < count document.now.rows) }
{
    document.law();
    if document.is_shadow(node) {
        None
    } else {
        document.parent(node)
    }
}

/// What is above the node within its own tree, the nearest first.
pub fn own_above(alloc: Global, document: &Document, node: NodeId) -> Result<NodeList, Memory>
    requires alive { document.now.spent ≡ false }
    requires node_in { node < count document.now.rows }
    ensures list { IfOk result (λ list. list ≡ own_above document.now.rows node) }
    ensures within { IfOk result (All (λ n. n < count document.now.rows)) }
{
    let mut found = NodeList::new(alloc);
    let mut at = node;
    for _i in 0..MAX_DEPTH {
        match own_parent(document, at) {
            Some(up) => {
                found.push(up)?;
                at = up;
            }
            None => return Ok(found),
        }
    }
    Ok(found)
}

/// The sibling elements before the node, in order. It copies the list of the parent's children.
pub fn earlier(alloc: Global, document: &Document, node: NodeId) -> Result<NodeList, Memory>
    requires alive { document.now.spent ≡ false }
    requires node_in { node < count document.now.rows }
    ensures list { IfOk result (λ list. list ≡ earlier document.now.rows node) }
    ensures within { IfOk result (All (λ n. n < count document.now.rows)) }
{
    let mut found = NodeList::new(alloc);
    let siblings = siblings(alloc, document, node)?;
    for kid in siblings.as_slice() {
        if *kid == node {
            return Ok(found);
        }
        if is_element(document, *kid) {
            found.push(*kid)?;
        }
    }
    Ok(found)
}

/// The sibling elements after the node, in order. It copies the list of the parent's children.
pub fn later(alloc: Global, document: &Document, node: NodeId) -> Result<NodeList, Memory>
    requires alive { document.now.spent ≡ false }
    requires node_in { node < count document.now.rows }
    ensures { IfOk result (λ list. list ≡ later document.now.rows node) }
{
    let mut found = NodeList::new(alloc);
    let siblings = siblings(alloc, document, node)?;
    let mut passed = false;
    for kid in siblings.as_slice() {
        if passed {
            if is_element(document, *kid) {
                found.push(*kid)?;
            }
        } else if *kid == node {
            passed = true;
        }
    }
    Ok(found)
}

// The children of the node's parent, none at the top of a tree.
fn siblings(alloc: Global, document: &Document, node: NodeId) -> Result<NodeList, Memory>
    requires alive { document.now.spent ≡ false }
    requires node_in { node < count document.now.rows }
    ensures list { IfOk result (λ list. list ≡ kids_under document.now.rows (own_parent document.now.rows node)) }
    ensures within { IfOk result (All (λ n. n < count document.now.rows)) }
{
    match own_parent(document, node) {
        Some(up) => document.children(up),
        None => Ok(NodeList::new(alloc)),
    }
}
