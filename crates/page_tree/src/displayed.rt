//! Which nodes are displayed: by boxes, by child elements, and choices by their select.

ghost use Rattle.std.specs.Prelude.{◌≡◌, true, not, ◌&&◌, ◌||◌};
ghost use Rattle.std.specs.List.{list_any};
ghost use Rattle.page_tree.specs.Places.{lineage};
ghost use Rattle.page_tree.specs.Rows.{IsTree, is_element as element_in, pixels_at};
ghost use Rattle.page_tree.specs.Inside.{rows_of, ups_of};
ghost use Rattle.page_tree.specs.Display.{hides as hides_in, is_shown as shown_in, is_choice as choice_in, is_select as select_in, select_above as nearest_select, select_of as select_around, has_pixels as pixels_seen, is_seen as seen_in, is_displayed as displayed_in};

use crate::ancestors::MAX_DEPTH;
use crate::content::Kind;
use crate::node::{Node, kids, parent};
use crate::shown::{content, has_tag, hides, is_shown};
use wd_json::NodeId;

/// Whether the node is shown and has a box of at least one pixel, or a child element that is
/// displayed; an option or optgroup inside a select is where the nearest select is.
pub fn is_displayed(nodes: &[Node], node: NodeId) -> bool
    requires tree { IsTree (rows_of nodes.now) }
    ensures { result ≡ displayed_in (rows_of nodes.now) node }
{
    match select_of(nodes, node) {
        Some(select) => is_seen(nodes, select),
        None => is_seen(nodes, node),
    }
}

fn is_seen(nodes: &[Node], node: NodeId) -> bool
    requires tree { IsTree (rows_of nodes.now) }
    ensures { result ≡ seen_in MAX_DEPTH (rows_of nodes.now) node }
{
    if !is_shown(nodes, node) {
        return false;
    }
    has_seen(nodes, node, is_under_select(nodes, node), MAX_DEPTH)
}

// Whether the node, which is shown, has a box with pixels, or a child that counts and is seen, in at
// most so many levels. Each node below is visited at most once.
fn has_seen(nodes: &[Node], node: NodeId, in_select: bool, levels: usize) -> bool
    requires tree { IsTree (rows_of nodes.now) }
    requires shown { shown_in (rows_of nodes.now) node ≡ true }
    requires select { in_select ≡ list_any (select_in (rows_of nodes.now)) (lineage (ups_of nodes.now) node) }
    ensures { result ≡ seen_in levels (rows_of nodes.now) node }
{
    if levels == 0 {
        return false;
    }
    if has_pixels(nodes, node) {
        return true;
    }
    for kid in kids(nodes, node) {
        if is_shown_part(nodes, *kid, in_select) {
            let under_select = is_in_select(nodes, *kid, in_select);
            if has_seen(nodes, *kid, under_select, levels - 1) {
                return true;
            }
        }
    }
    false
}

// Whether a child of a shown node counts and is shown.
fn is_shown_part(nodes: &[Node], kid: NodeId, in_select: bool) -> bool
    ensures { result ≡ ((element_in (rows_of nodes.now) kid && not (choice_in (rows_of nodes.now) kid && in_select)) && not (hides_in (rows_of nodes.now) kid)) }
{
    is_element(nodes, kid) && !(is_choice(nodes, kid) && in_select) && !hides(nodes, kid)
}

// Whether a child or what is above it is a select.
fn is_in_select(nodes: &[Node], kid: NodeId, in_select: bool) -> bool
    ensures { result ≡ (select_in (rows_of nodes.now) kid || in_select) }
{
    is_select(nodes, kid) || in_select
}

// The select that an option or optgroup stands inside.
fn select_of(nodes: &[Node], node: NodeId) -> Option<NodeId>
    ensures { result ≡ select_around (rows_of nodes.now) node }
{
    if is_choice(nodes, node) {
        select_above(nodes, node)
    } else {
        None
    }
}

// The nearest select above a node, through hosts.
fn select_above(nodes: &[Node], node: NodeId) -> Option<NodeId>
    ensures { result ≡ nearest_select (rows_of nodes.now) node }
{
    let mut at = node;
    for _i in 0..MAX_DEPTH {
        match parent(nodes, at) {
            Some(up) => {
                if is_select(nodes, up) {
                    return Some(up);
                }
                at = up;
            }
            None => return None,
        }
    }
    None
}

// Whether the node or one above it, through hosts, is a select.
#[tactic(auto, using(crate::proofs::Chains::chain_steps))]
fn is_under_select(nodes: &[Node], node: NodeId) -> bool
    ensures { result ≡ list_any (select_in (rows_of nodes.now)) (lineage (ups_of nodes.now) node) }
{
    let mut at = node;
    for _i in 0..MAX_DEPTH {
        if is_select(nodes, at) {
            return true;
        }
        match parent(nodes, at) {
            Some(up) => at = up,
            None => return false,
        }
    }
    is_select(nodes, at)
}

fn is_element(nodes: &[Node], node: NodeId) -> bool
    ensures { result ≡ element_in (rows_of nodes.now) node }
{
    match content(nodes, node) {
        Some(content) => matches!(&content.kind, Kind::Element(_)),
        None => false,
    }
}

fn is_choice(nodes: &[Node], node: NodeId) -> bool
    ensures { result ≡ choice_in (rows_of nodes.now) node }
{
    match content(nodes, node) {
        Some(content) => has_tag(content, "option") || has_tag(content, "optgroup"),
        None => false,
    }
}

fn is_select(nodes: &[Node], node: NodeId) -> bool
    ensures { result ≡ select_in (rows_of nodes.now) node }
{
    match content(nodes, node) {
        Some(content) => has_tag(content, "select"),
        None => false,
    }
}

// Whether the node's box is at least one pixel wide and high.
fn has_pixels(nodes: &[Node], node: NodeId) -> bool
    ensures { result ≡ pixels_seen (pixels_at (rows_of nodes.now) node) }
{
    match content(nodes, node) {
        Some(content) => match content.pixels {
            Some(pixels) => pixels.w >= 1 && pixels.h >= 1,
            None => false,
        },
        None => false,
    }
}
