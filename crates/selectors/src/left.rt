ghost use Rattle.std.specs.Prelude.{◌≡◌, ◌<◌, false, IfOk};
ghost use Rattle.std.specs.List.{All};
ghost use Rattle.page_tree.specs.Rows.{count};
ghost use Rattle.page_tree.specs.Places.{only};
ghost use Rattle.selectors.specs.Named.{left_of, last_of};

use crate::places::{earlier, own_above, own_parent};
use crate::selector::Combinator;
use page_tree::Document;
use std::alloc::Global;
use wd_json::{Memory, NodeId, NodeList};

/// Where the node on a combinator's left may stand, seen from the one on its right.
pub fn left_of(
    alloc: Global,
    document: &Document,
    combinator: Combinator,
    node: NodeId,
) -> Result<NodeList, Memory>
    requires alive { document.now.spent ≡ false }
    requires node_in { node < count document.now.rows }
    ensures list { IfOk result (λ list. list ≡ left_of combinator document.now.rows node) }
    ensures within { IfOk result (All (λ n. n < count document.now.rows)) }
{
    match combinator {
        Combinator::Descendant => own_above(alloc, document, node),
        Combinator::Child => only(alloc, own_parent(document, node)),
        Combinator::Next => only(alloc, last_of(&earlier(alloc, document, node)?)),
        Combinator::Later => earlier(alloc, document, node),
    }
}

fn only(alloc: Global, node: Option<NodeId>) -> Result<NodeList, Memory>
    ensures { IfOk result (λ list. list ≡ only node) }
{
    let mut list = NodeList::new(alloc);
    if let Some(node) = node {
        list.push(node)?;
    }
    Ok(list)
}

fn last_of(list: &NodeList) -> Option<NodeId>
    ensures { result ≡ last_of list.now }
{
    list.as_slice().last().copied()
}
