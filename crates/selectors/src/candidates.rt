ghost use Rattle.std.specs.Prelude.{◌≡◌, ℕ, ◌++◌, ◌<◌, false, IfOk, OnOk};
ghost use Rattle.std.specs.List.{All};
ghost use Rattle.page_tree.specs.Places.{walk as walk_of, contains, AreInOrder};
ghost use Rattle.page_tree.specs.Rows.{count, paths_of};
ghost use Rattle.selectors.specs.Named.{in_scope};
ghost use Rattle.selectors.specs.Scopes.{IsWithin, is_in};

use crate::selector::Scope;
use page_tree::{Document, MAX_DEPTH};
use std::alloc::Global;
use wd_json::{Memory, NodeId, NodeList};

/// The nodes of a scope, in document order: the document tree with its root, or what is below a node in
/// the node's own tree, the node left out (Selectors Level 4, "scoping root"). `Memory` where there is
/// none for the list. It goes over the scope once.
pub fn in_scope(alloc: Global, document: &Document, scope: Scope) -> Result<NodeList, Memory>
    requires alive { document.now.spent ≡ false }
    requires scope_in { IsWithin document.now.rows scope }
    ensures list { IfOk result (λ list. list ≡ in_scope document.now.rows scope) }

    // each path comes before all later ones, so that no node comes twice
    ensures by_paths { IfOk result (λ list. AreInOrder (paths_of document.now.rows list)) }
    ensures nodes { (n : ℕ) → IfOk result (λ list. contains n list ≡ is_in document.now.rows scope n) }
    ensures within { IfOk result (All (λ n. n < count document.now.rows)) }
{
    match scope {
        Scope::Document => document.in_order(),
        Scope::Under(node) => below(alloc, document, node),
    }
}

fn below(alloc: Global, document: &Document, node: NodeId) -> Result<NodeList, Memory>
    requires alive { document.now.spent ≡ false }
    requires node_in { node < count document.now.rows }
    ensures list { IfOk result (λ list. list ≡ in_scope document.now.rows (Scope.Under node)) }
    ensures by_paths { IfOk result (λ list. AreInOrder (paths_of document.now.rows list)) }
    ensures nodes { (n : ℕ) → IfOk result (λ list. contains n list ≡ is_in document.now.rows (Scope.Under node) n) }
    ensures within { IfOk result (All (λ n. n < count document.now.rows)) }
{
    document.law();
    let mut found = NodeList::new(alloc);
    let kids = document.children(node)?;
    for kid in kids.as_slice() {
        walk(document, *kid, MAX_DEPTH - 1, &mut found)?;
    }
    Ok(found)
}

// Adds the node and what is below it, in document order.
fn walk(document: &Document, node: NodeId, steps: usize, found: &mut NodeList) -> Result<(), Memory>
    requires alive { document.now.spent ≡ false }
    requires node_in { node < count document.now.rows }
    requires found_in { All (λ n. n < count document.now.rows) found.old }
    ensures list { OnOk result (found.new ≡ found.old ++ walk_of steps document.now.rows.kids node) }
    ensures within { OnOk result (All (λ n. n < count document.now.rows) found.new) }
{
    if steps == 0 {
        return Ok(());
    }
    found.push(node)?;
    let kids = document.children(node)?;
    for kid in kids.as_slice() {
        walk(document, *kid, steps - 1, found)?;
    }
    Ok(())
}
