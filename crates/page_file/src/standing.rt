//! Whether a node may stand where it says, by what is kept of the nodes before it.

ghost use Rattle.std.specs.Prelude.{◌≡◌, ℕ, ◌<◌, ◌||◌, IfOk, IfSome, length, slice_index_or, true, false};
ghost use Rattle.page_engine.specs.Nodes.{is_shadow_of, may_stand, is_node, has_fields};
ghost use Rattle.page_file.specs.NodeRows.{depth_after, starts, depth_in, AreFlags, AreDepths};

use crate::why::Why;
use page_engine::{NodeDef, NodeKind};
use page_tree::MAX_DEPTH;
use wd_json::JsonMap;

/// A page has at most so many nodes.
const MAX_NODES: usize = 50_000;

/// Marks the host of a shadow root.
pub fn mark(flags: &mut Vec<bool>, def: &NodeDef)
    requires { IfSome def.now.up (λ up. up < length flags.old.items) }
    ensures many { length flags.new.items ≡ length flags.old.items }
    ensures marked { (n : ℕ) → n < length flags.old.items
        → slice_index_or flags.new.items n false ≡ (slice_index_or flags.old.items n false || is_shadow_of n def.now) }
{
    if let (NodeKind::Shadow, Some(host)) = (&def.kind, def.up) {
        flags[host as usize] = true;
    }
}

// Whether the node may stand where it says, after these nodes.
fn may_stand(defs: &[NodeDef], flags: &[bool], def: &NodeDef) -> bool
    requires { AreFlags defs.now flags.now }
    ensures { result ≡ may_stand defs.now def.now.kind def.now.up }
{
    let Some(up) = def.up else {
        return !matches!(def.kind, NodeKind::Shadow);
    };
    let Some(above) = defs.get(up as usize) else {
        return false;
    };
    match def.kind {
        NodeKind::Shadow => matches!(above.kind, NodeKind::Element(_)) && !flags[up as usize],
        _ => !matches!(above.kind, NodeKind::Chars(_)),
    }
}

// Whether the first node is an element that stands alone and says nothing of it, and every other
// one says where it stands.
fn starts(defs: &[NodeDef], members: &JsonMap, def: &NodeDef) -> bool
    ensures { result ≡ starts defs.now members.now def.now }
{
    let says_up = members.get("up").is_some();
    if defs.is_empty() {
        !says_up && matches!(def.kind, NodeKind::Element(_)) && def.up.is_none()
    } else {
        says_up
    }
}

// The depth of a node that comes after these; the top of a tree has depth 1.
fn depth_after(defs: &[NodeDef], depths: &[u32], def: &NodeDef) -> u32
    requires depths { AreDepths defs.now depths.now }
    requires node { is_node defs.now def.now ≡ true }
    ensures { result ≡ depth_after defs.now def.now.up }
{
    match def.up {
        Some(up) => depths[up as usize] + 1,
        None => 1,
    }
}

/// The depth of the node that an object spells, where it may come after these; else the first thing
/// that is wrong with it.
pub fn check(
    defs: &[NodeDef],
    depths: &[u32],
    flags: &[bool],
    members: &JsonMap,
    def: &NodeDef,
) -> Result<u32, Why>
    requires flags { AreFlags defs.now flags.now }
    requires depths { AreDepths defs.now depths.now }
    requires fields { has_fields def.now.kind def.now ≡ true }
    ensures same { result ≡ depth_in defs.now members.now def.now }
    ensures deep { IfOk result (λ depth. depth ≡ depth_after defs.now def.now.up) }
{
    if !starts(defs, members, def) || !may_stand(defs, flags, def) {
        return Err(Why::Node);
    }
    let depth = depth_after(defs, depths, def);
    if depth as usize > MAX_DEPTH {
        return Err(Why::Depth);
    }
    if defs.len() >= MAX_NODES {
        return Err(Why::Nodes);
    }
    Ok(depth)
}
