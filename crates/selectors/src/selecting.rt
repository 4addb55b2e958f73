ghost use Rattle.std.specs.Prelude.{◌≡◌, ℕ, ◌<◌, false, IfOk, IfSome};
ghost use Rattle.std.specs.List.{All};
ghost use Rattle.page_tree.specs.Places.{contains, AreInOrder};
ghost use Rattle.page_tree.specs.Rows.{count, paths_of};
ghost use Rattle.selectors.specs.Named.{selected, is_selected, first_of_list};
ghost use Rattle.selectors.specs.Scopes.{IsWithin, IsFirst};

use crate::candidates::in_scope;
use crate::matching::is_named;
use crate::selector::{Scope, Selector};
use page_tree::Document;
use std::alloc::Global;
use wd_json::{Memory, NodeId, NodeList};

/// The nodes of the scope that the selector names, in document order (Selectors Level 4, "matching a
/// selector against a tree"): below a node its proper descendants in its own tree alone. `Memory`
/// where there is none for the lists of nodes that it makes. It goes over the nodes of the scope
/// once; a node costs its ancestors and siblings at most once for each compound that is matched there.
pub fn select(
    alloc: Global,
    document: &Document,
    scope: Scope,
    selector: &Selector,
) -> Result<NodeList, Memory>
    requires alive { document.now.spent ≡ false }
    requires scope_in { IsWithin document.now.rows scope }
    ensures list { IfOk result (λ list. list ≡ selected document.now.rows scope selector.now) }

    // each path comes before all later ones, so that no node comes twice
    ensures by_paths { IfOk result (λ list. AreInOrder (paths_of document.now.rows list)) }
    ensures nodes { (n : ℕ) → IfOk result (λ list. contains n list ≡ is_selected document.now.rows scope selector.now n) }
    ensures within { IfOk result (All (λ node. node < count document.now.rows)) }
{
    let mut found = NodeList::new(alloc);
    let nodes = in_scope(alloc, document, scope)?;
    for node in nodes.as_slice() {
        if is_named(alloc, document, selector, *node)? {
            found.push(*node)?;
        }
    }
    Ok(found)
}

/// The first of the nodes that `select` gives, `None` exactly where it gives none. It stops at the
/// first match. `Memory` as for `select`.
pub fn first(
    alloc: Global,
    document: &Document,
    scope: Scope,
    selector: &Selector,
) -> Result<Option<NodeId>, Memory>
    requires alive { document.now.spent ≡ false }
    requires scope_in { IsWithin document.now.rows scope }
    ensures node { IfOk result (λ node. node ≡ first_of_list (selected document.now.rows scope selector.now)) }
    ensures earliest { IfOk result (IsFirst document.now.rows (is_selected document.now.rows scope selector.now)) }
    ensures within { IfOk result (λ found. IfSome found (λ node. node < count document.now.rows)) }
{
    let nodes = in_scope(alloc, document, scope)?;
    for node in nodes.as_slice() {
        if is_named(alloc, document, selector, *node)? {
            return Ok(Some(*node));
        }
    }
    Ok(None)
}
