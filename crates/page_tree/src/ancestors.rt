//! What stands above a node, through hosts, and how deep nodes may stand.

ghost use Rattle.std.specs.Prelude.{◌≡◌, ◌<◌, false, Some, length, slice_set};
ghost use Rattle.page_tree.specs.Places.{lineage, contains, depth as depth_of, all_shallow, below, fits_levels as levels_fit};
ghost use Rattle.page_tree.specs.Inside.{rows_of, ups_of, kids_lists, shadows_of};
ghost use Rattle.page_tree.specs.Rows.{IsTree};

use crate::node::{Node, kids, parent, shadow};
use wd_json::NodeId;

/// The greatest depth at which a node may stand; the top of a tree has depth 1.
pub const MAX_DEPTH: usize = 200;

/// Whether a node is this one or above it, through hosts.
#[tactic(auto, using(crate::proofs::Chains::chain_steps))]
pub fn is_above(nodes: &[Node], above: NodeId, from: NodeId) -> bool
    ensures { result ≡ contains above (lineage (ups_of nodes.now) from) }
{
    let mut at = from;
    for _i in 0..MAX_DEPTH {
        if at == above {
            return true;
        }
        match parent(nodes, at) {
            Some(up) => at = up,
            None => return false,
        }
    }
    at == above
}

/// How deep a node stands, the top of its tree at 1; 201 where the chain of parents is longer.
#[tactic(auto, using(crate::proofs::Chains::chain_steps))]
pub fn depth(nodes: &[Node], node: NodeId) -> usize
    ensures { result ≡ depth_of (ups_of nodes.now) node }
{
    let mut at = node;
    for i in 0..MAX_DEPTH {
        match parent(nodes, at) {
            Some(up) => at = up,
            None => return i + 1,
        }
    }
    MAX_DEPTH + 1
}

/// Whether all nodes stand at depth 200 at most once the node is put under `under`, which isn't
/// below it. It walks up from `under`, and over what stands under the node.
pub fn all_shallow_after(nodes: &[Node], node: NodeId, under: NodeId) -> bool
    requires tree { IsTree (rows_of nodes.now) }
    requires within { node < length nodes.now }
    requires apart { contains node (lineage (ups_of nodes.now) under) ≡ false }
    ensures { result ≡ all_shallow (slice_set (ups_of nodes.now) node (Some under)) }
{
    fits_levels(nodes, node, MAX_DEPTH - depth(nodes, under))
}

// Whether the node and what stands under it, its shadow root included, have at most so many levels.
fn fits_levels(nodes: &[Node], node: NodeId, levels: usize) -> bool
    ensures { result ≡ levels_fit levels (below (shadows_of nodes.now) (kids_lists nodes.now)) node }
{
    if levels == 0 {
        return false;
    }
    for kid in kids(nodes, node) {
        if !fits_levels(nodes, *kid, levels - 1) {
            return false;
        }
    }
    match shadow(nodes, node) {
        Some(root) => fits_levels(nodes, root, levels - 1),
        None => true,
    }
}
