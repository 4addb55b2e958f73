ghost use Rattle.std.specs.Prelude.{◌≡◌, ◌<◌, ◌≤◌, false, length, take, reverse, IfOk};
ghost use Rattle.page_tree.specs.Places.{contains};
ghost use Rattle.page_tree.specs.Rows.{count};
ghost use Rattle.selectors.specs.Meets.{meets_all};
ghost use Rattle.selectors.specs.Named.{matches_from, complex_nodes, is_named};

use crate::left::left_of;
use crate::meets::meets_all;
use crate::selector::{Complex, Selector};
use page_tree::Document;
use std::alloc::Global;
use wd_json::{Memory, NodeId};

/// Whether the selector names the node.
pub fn is_named(
    alloc: Global,
    document: &Document,
    selector: &Selector,
    node: NodeId,
) -> Result<bool, Memory>
    requires alive { document.now.spent ≡ false }
    requires node_in { node < count document.now.rows }
    ensures { IfOk result (λ named. named ≡ is_named document.now.rows selector.now node) }
{
    for complex in selector.as_slice() {
        if matches(alloc, document, complex, node)? {
            return Ok(true);
        }
    }
    Ok(false)
}

// Whether the node is among those that the joined compounds name.
fn matches(
    alloc: Global,
    document: &Document,
    complex: &Complex,
    node: NodeId,
) -> Result<bool, Memory>
    requires alive { document.now.spent ≡ false }
    requires node_in { node < count document.now.rows }
    ensures { IfOk result (λ named. named ≡ contains node (complex_nodes document.now.rows complex.now)) }
{
    match_up_to(alloc, document, complex, complex.rest.len(), node)
}

// Whether the node matches the first joins, from right to left.
fn match_up_to(
    alloc: Global,
    document: &Document,
    complex: &Complex,
    joins: usize,
    node: NodeId,
) -> Result<bool, Memory>
    requires alive { document.now.spent ≡ false }
    requires within { joins ≤ length complex.now.rest }
    requires node_in { node < count document.now.rows }
    ensures { IfOk result (λ named. named ≡ matches_from (meets_all document.now.rows complex.now.first) document.now.rows (reverse (take joins complex.now.rest)) node) }
{
    if joins == 0 {
        return meets_all(alloc, document, &complex.first, node);
    }
    let join = complex.rest.at(joins - 1);
    if !meets_all(alloc, document, &join.1, node)? {
        return Ok(false);
    }
    let left = left_of(alloc, document, join.0, node)?;
    for at in left.as_slice() {
        if match_up_to(alloc, document, complex, joins - 1, *at)? {
            return Ok(true);
        }
    }
    Ok(false)
}
