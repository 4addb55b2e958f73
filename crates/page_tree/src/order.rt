//! A node and what is below it, in document order.

ghost use Rattle.std.specs.Prelude.{◌≡◌, ◌++◌, OnOk};
ghost use Rattle.page_tree.specs.Places.{walk as walk_of};
ghost use Rattle.page_tree.specs.Inside.{kids_lists};

use crate::node::{Node, kids};
use std::alloc::AllocError;
use wd_json::NodeId;

/// Adds the node and what is below it, in document order.
#[tactic(auto, using(crate::proofs::Orders::walk_steps))]
pub fn walk(
    nodes: &[Node],
    node: NodeId,
    steps: usize,
    found: &mut Vec<NodeId>,
) -> Result<(), AllocError>
    ensures { OnOk result (found.new.items ≡ found.old.items ++ walk_of steps (kids_lists nodes.now) node) }
{
    if steps == 0 {
        return Ok(());
    }
    found.push(node)?;
    let children = kids(nodes, node);
    for place in 0..children.len() {
        walk(nodes, children[place], steps - 1, found)?;
    }
    Ok(())
}
