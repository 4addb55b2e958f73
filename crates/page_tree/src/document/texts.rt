//! The texts below a node.

ghost use Rattle.std.specs.Prelude.{◌≡◌, ◌<◌, ◌++◌, false, IfOk, OnOk};
ghost use Rattle.page_tree.specs.Inside.{rows_of};
ghost use Rattle.page_tree.specs.Rows.{count, text_of};
ghost use Rattle.page_tree.specs.Texts.{texts_below, or_nothing};

use crate::ancestors::MAX_DEPTH;
use crate::document::Document;
use crate::node::{Node, text};
use crate::order::walk;
use wd_json::{Memory, NodeId, WdText};

/// What a node says.
impl Document {
    /// All texts that children reach from a node, the node itself included, joined in document order (DOM
    /// Standard, "descendant text content"). It goes over these nodes once.
    pub fn texts_below(&self, node: NodeId) -> Result<WdText, Memory>
        requires alive { self.now.spent ≡ false }
        requires node_in { node < count self.now.rows }
        ensures { IfOk result (λ text. text ≡ texts_below self.now.rows node) }
    {
        let mut below = Vec::new(self.alloc);
        walk(&self.nodes, node, MAX_DEPTH, &mut below)?;
        let mut joined = WdText::new(self.alloc);
        for node in &below {
            add_text(&self.nodes, *node, &mut joined)?;
        }
        Ok(joined)
    }
}

/// Adds the characters of a text.
fn add_text(nodes: &[Node], node: NodeId, joined: &mut WdText) -> Result<(), Memory>
    ensures { OnOk result (joined.new ≡ joined.old ++ or_nothing (text_of (rows_of nodes.now) node)) }
{
    match text(nodes, node) {
        Some(text) => joined.extend(text),
        None => Ok(()),
    }
}
