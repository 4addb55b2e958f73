//! The nodes that a list of values spells.

ghost use Rattle.std.specs.Prelude.{◌≡◌, IfOk, IfErr, Ok};
ghost use Rattle.page_file.specs.NodeRows.{next_node, AreFlags, AreDepths, IsNext};
ghost use Rattle.page_file.specs.Rows.{rows, IsFaultOf, IsNextFault};

use crate::handlers::handlers;
use crate::node::node;
use crate::page_fault::PageFault;
use crate::standing::{check, mark};
use crate::why::Why;
use page_engine::{NodeDef, NodeDefList};
use std::alloc::Global;
use wd_json::{Json, WdList};

// The next node and its depth, after these.
fn next_node(
    alloc: Global,
    defs: &[NodeDef],
    depths: &[u32],
    flags: &[bool],
    value: &Json,
) -> Result<(NodeDef, u32), PageFault>
    requires flags { AreFlags defs.now flags.now }
    requires depths { AreDepths defs.now depths.now }
    ensures next { IfOk result (λ p. IsNext defs.now value.now p.0 p.1) }
    ensures fault { IfErr result (IsNextFault defs.now (next_node defs.now value.now)) }
{
    let row = defs.len() as u32;
    let Json::Object(members) = value else {
        return Err(PageFault::Bad {
            row,
            why: Why::Node,
        });
    };
    let Some(mut def) = node(alloc, members)? else {
        return Err(PageFault::Bad {
            row,
            why: Why::Node,
        });
    };
    let depth = match check(defs, depths, flags, members, &def) {
        Ok(depth) => depth,
        Err(why) => return Err(PageFault::Bad { row, why }),
    };
    let Some(on) = handlers(alloc, &def.kind, members)? else {
        return Err(PageFault::Bad {
            row,
            why: Why::Effect,
        });
    };
    def.on = on;
    Ok((def, depth))
}

/// The nodes that the values spell, each by the ones before it.
///
/// `Bad` with the first node at which something is wrong: `Node`, else `Depth` where it stands
/// deeper than 200, else `Nodes` where it is the 50,001st, else `Effect` for its handlers.
pub fn read_nodes(alloc: Global, values: &[Json]) -> Result<NodeDefList, PageFault>
    ensures read { IfOk result (λ nodes. rows next_node values.now ≡ Ok nodes) }
    ensures cause { IfErr result (IsFaultOf (rows next_node values.now)) }
{
    let mut defs = Vec::new(alloc);
    let mut depths = Vec::new(alloc);
    let mut flags = vec![in alloc; false; values.len()]?;
    for value in values {
        let (def, depth) = next_node(alloc, &defs, &depths, &flags, value)?;
        mark(&mut flags, &def);
        defs.push(def)?;
        depths.push(depth)?;
    }
    Ok(WdList::from_vec(defs))
}
