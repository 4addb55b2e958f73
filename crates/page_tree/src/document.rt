//! The tree of a page: its nodes, how they are added, moved and removed, and their attributes.

ghost use Rattle.std.specs.Prelude.{◌≡◌, ℕ, ◌<◌, false, true, None, is_some, IfOk, IfErr, OnOk, OnErr, IfSome};
ghost use Rattle.std.specs.Str.{chars};
ghost use Rattle.std.specs.List.{All};
ghost use Rattle.std.specs.Option.{option_copied, option_map};

mod display;
mod fields;
mod texts;

use crate::ancestors::{MAX_DEPTH, all_shallow_after, depth, is_above};
use crate::content::Kind;
use crate::edits::{attach, detach, push_element, push_shadow, push_text, set_attribute};
use crate::fault::TreeFault;
use crate::geometry::Point;
use crate::node::{Node, kids, parent, shadow};
use crate::order::walk;
use std::alloc::Global;
use std::marker::Model;
use wd_json::{Memory, NodeId, NodeList};

/// How many nodes a document may have.
const MAX_NODES: usize = 50_000;

/// The tree of a page. Contracts see its rows, by node number, and whether it is spent.
///
/// A node has the number that the call that made it answered, from 0 upwards, and keeps it. Each
/// call that names a node has the condition that its number is below `count`. A call on `&mut self`
/// that answers `Memory` leaves the document spent; from then on only `spent` may be called. Any
/// other refusal leaves it as it was.
///
/// The tree is that of the DOM Standard, sections "Node tree" and "Shadow tree".
#[derive(Drop)]
pub struct Document {
    alloc: Global,
    nodes: Vec<Node>,
    focus: Option<NodeId>,
    scroll: Point,
    spent: bool,
}

impl Model for Document {
    ghost use Rattle.page_tree.specs.Rows.{IsTree};
    ghost use Rattle.page_tree.specs.DocumentState.{DocumentState};

    ghost Value = { DocumentState };

    ghost use Rattle.page_tree.specs.Inside.{rows_of, seen};

    ghost view = { λ d. record { rows = seen (rows_of d.nodes.items) d.focus d.scroll; spent = d.spent } };

    ghost invariant = { λ d. IsTree (seen (rows_of d.nodes.items) d.focus d.scroll) };
}

impl Document {
    ghost use Rattle.page_tree.specs.Places.{up_of, kids_of, shadow_of, contains, AreInOrder};
    ghost use Rattle.page_tree.specs.Rows.{IsTree, count, is_connected, is_in_document_tree, is_element, is_text, is_shadow, one_node, element, text_node, grown, hosting, moved, detached, with_attribute, tag_of, text_of, attribute_of, document_order, paths_of};
    ghost use Rattle.page_tree.specs.Faults.{reason, growth_refusal, shadow_refusal, move_refusal, Leaves};

    /// A document of one element, the root, which is node 0. It copies the tag.
    pub fn new(alloc: Global, tag: &str) -> Result<Document, Memory>
        ensures { IfOk result (λ document. document ≡ record { rows = one_node (element (chars tag.now)); spent = false }) }
    {
        let mut nodes = Vec::new(alloc);
        push_element(&mut nodes, alloc, tag)?;
        Ok(Document {
            alloc,
            nodes,
            focus: None,
            scroll: Point { x: 0, y: 0 },
            spent: false,
        })
    }

    /// Whether a call has answered `Memory`. It has no condition.
    pub fn spent(&self) -> bool
        ensures { result ≡ self.now.spent }
    {
        self.spent
    }

    /// How many nodes there are, those that aren't connected included. It takes no memory.
    pub fn count(&self) -> u32
        requires { self.now.spent ≡ false }
        ensures { result ≡ count self.now.rows }
    {
        self.nodes.len() as u32
    }

    /// What holds of the rows of every document: parents and children agree, a shadow root's
    /// parent is its host, which is an element, a text has no children, the attribute names of one
    /// node differ from each other, no node stands deeper than 200, and what has the focus is an
    /// element. It does nothing.
    pub fn law(&self)
        requires { self.now.spent ≡ false }
        ensures { IsTree self.now.rows }
    {
        let _ = &self.nodes;
    }

    /// The parent of a node; that of a shadow root is its host. It takes no memory.
    pub fn parent(&self, node: NodeId) -> Option<NodeId>
        requires alive { self.now.spent ≡ false }
        requires node_in { node < count self.now.rows }
        ensures row { result ≡ up_of self.now.rows.ups node }
        ensures within { IfSome result (λ up. up < count self.now.rows) }
    {
        parent(&self.nodes, node)
    }

    /// The children of a node in order, without its shadow root. It copies their list.
    pub fn children(&self, node: NodeId) -> Result<NodeList, Memory>
        requires alive { self.now.spent ≡ false }
        requires node_in { node < count self.now.rows }
        ensures list { IfOk result (λ list. list ≡ kids_of self.now.rows.kids node) }
        ensures within { IfOk result (All (λ kid. kid < count self.now.rows)) }
    {
        Ok(NodeList::from_vec(Vec::from_slice(self.alloc, kids(&self.nodes, node))?))
    }

    /// The shadow root of a node, `None` where it hosts none. It takes no memory.
    pub fn shadow_of(&self, node: NodeId) -> Option<NodeId>
        requires alive { self.now.spent ≡ false }
        requires node_in { node < count self.now.rows }
        ensures row { result ≡ shadow_of self.now.rows.shadows node }
        ensures within { IfSome result (λ root. root < count self.now.rows) }
    {
        shadow(&self.nodes, node)
    }

    /// Whether the node is a shadow root. It takes no memory.
    pub fn is_shadow(&self, node: NodeId) -> bool
        requires alive { self.now.spent ≡ false }
        requires node_in { node < count self.now.rows }
        ensures { result ≡ is_shadow self.now.rows node }
    {
        match &self.nodes[node.index()].content.kind {
            Kind::Element(_) => false,
            Kind::Text(_) => false,
            Kind::Shadow => true,
        }
    }

    /// Whether the node's chain of parents, through hosts, reaches the root (DOM Standard,
    /// "connected"). It takes no memory, and at most 200 steps.
    pub fn connected(&self, node: NodeId) -> bool
        requires alive { self.now.spent ≡ false }
        requires node_in { node < count self.now.rows }
        ensures { result ≡ is_connected self.now.rows node }
    {
        is_above(&self.nodes, NodeId::of(0), node)
    }

    /// The document tree in document order (DOM Standard, "tree order"): the root and all that
    /// `children` reaches from it, texts included, shadow trees left out. It goes over these nodes
    /// once.
    pub fn in_order(&self) -> Result<NodeList, Memory>
        requires { self.now.spent ≡ false }
        ensures list { IfOk result (λ list. list ≡ document_order self.now.rows) }

        // each path comes before all later ones, a prefix first
        ensures by_paths { IfOk result (λ list. AreInOrder (paths_of self.now.rows list)) }
        ensures tree { (n : ℕ) → IfOk result (λ list. contains n list ≡ is_in_document_tree self.now.rows n) }
        ensures within { IfOk result (All (λ node. node < count self.now.rows)) }
    {
        let mut found = Vec::new(self.alloc);
        walk(&self.nodes, NodeId::of(0), MAX_DEPTH, &mut found)?;
        Ok(NodeList::from_vec(found))
    }

    /// The tag of an element, as it was given; `None` for a text or a shadow root. It takes no
    /// memory.
    pub fn tag(&self, node: NodeId) -> Option<&str>
        requires alive { self.now.spent ≡ false }
        requires node_in { node < count self.now.rows }
        ensures characters { option_map chars (option_copied result) ≡ tag_of self.now.rows node }
        ensures element { is_some result ≡ is_element self.now.rows node }
    {
        match &self.nodes[node.index()].content.kind {
            Kind::Element(tag) => Some(tag.as_str()),
            Kind::Text(_) => None,
            Kind::Shadow => None,
        }
    }

    /// The characters of a text; `None` for an element or a shadow root. It takes no memory.
    pub fn text(&self, node: NodeId) -> Option<&str>
        requires alive { self.now.spent ≡ false }
        requires node_in { node < count self.now.rows }
        ensures characters { option_map chars (option_copied result) ≡ text_of self.now.rows node }
        ensures text { is_some result ≡ is_text self.now.rows node }
    {
        match &self.nodes[node.index()].content.kind {
            Kind::Element(_) => None,
            Kind::Text(text) => Some(text.as_str()),
            Kind::Shadow => None,
        }
    }

    /// The value of the node's attribute with exactly that name, `None` where it has none. It goes
    /// over the node's attributes, and takes no memory.
    pub fn attr(&self, node: NodeId, name: &str) -> Option<&str>
        requires alive { self.now.spent ≡ false }
        requires node_in { node < count self.now.rows }
        ensures { option_map chars (option_copied result) ≡ attribute_of self.now.rows node (chars name.now) }
    {
        self.nodes[node.index()].content.attributes.value(name)
    }

    /// A new element with the number `count`, which stands alone. `Nodes` exactly where there are
    /// 50,000 nodes; `Memory` where there is none for it. It copies the tag.
    pub fn add_element(&mut self, tag: &str) -> Result<NodeId, TreeFault>
        requires { self.old.spent ≡ false }
        ensures number { IfOk result (λ node. node ≡ count self.old.rows) }
        ensures ok { OnOk result (self.new ≡ record self.old { rows = grown self.old.rows None (element (chars tag.now)) }) }
        ensures cause { reason result ≡ growth_refusal self.old.rows }
        ensures err { IfErr result (Leaves self.old self.new) }
    {
        let number = self.nodes.len();
        if number == MAX_NODES {
            return Err(TreeFault::Nodes);
        }
        if push_element(&mut self.nodes, self.alloc, tag).is_err() {
            self.spent = true;
            return Err(TreeFault::Memory);
        }
        Ok(NodeId::of(number as u32))
    }

    /// A new text with the number `count`, which stands alone. `Nodes` exactly where there are
    /// 50,000 nodes; `Memory` where there is none for it. It copies the characters.
    pub fn add_text(&mut self, text: &str) -> Result<NodeId, TreeFault>
        requires { self.old.spent ≡ false }
        ensures number { IfOk result (λ node. node ≡ count self.old.rows) }
        ensures ok { OnOk result (self.new ≡ record self.old { rows = grown self.old.rows None (text_node (chars text.now)) }) }
        ensures cause { reason result ≡ growth_refusal self.old.rows }
        ensures err { IfErr result (Leaves self.old self.new) }
    {
        let number = self.nodes.len();
        if number == MAX_NODES {
            return Err(TreeFault::Nodes);
        }
        if push_text(&mut self.nodes, self.alloc, text).is_err() {
            self.spent = true;
            return Err(TreeFault::Memory);
        }
        Ok(NodeId::of(number as u32))
    }

    /// A new shadow root with the number `count`, whose parent is its host. `Nodes` exactly where
    /// there are 50,000 nodes; else `Depth` exactly where the host stands at depth 200; `Memory`
    /// where there is none for it. It takes at most 200 steps.
    pub fn add_shadow(&mut self, host: NodeId) -> Result<NodeId, TreeFault>
        requires alive { self.old.spent ≡ false }
        requires host_in { host < count self.old.rows }
        requires an_element { is_element self.old.rows host ≡ true }
        requires no_host { shadow_of self.old.rows.shadows host ≡ None }
        ensures number { IfOk result (λ node. node ≡ count self.old.rows) }
        ensures ok { OnOk result (self.new ≡ record self.old { rows = hosting self.old.rows host }) }
        ensures cause { reason result ≡ shadow_refusal self.old.rows host }
        ensures err { IfErr result (Leaves self.old self.new) }
    {
        let number = self.nodes.len();
        if number == MAX_NODES {
            return Err(TreeFault::Nodes);
        }
        if depth(&self.nodes, host) >= MAX_DEPTH {
            return Err(TreeFault::Depth);
        }
        if push_shadow(&mut self.nodes, self.alloc, host).is_err() {
            self.spent = true;
            return Err(TreeFault::Memory);
        }
        Ok(NodeId::of(number as u32))
    }

    /// Moves the node with what is below it to that place among the parent's children, or last
    /// where there are fewer. The node is taken out before the place is counted. `Cycle` exactly
    /// where the parent is the node or below it; else `Depth` exactly where some node would stand
    /// deeper than 200, the top of a tree having depth 1; `Memory` where there is none for the
    /// parent's children. It walks up from the parent, at most 200 steps, and over what is below the
    /// node; then over the children of the old parent, if there is one, and over the parent's
    /// children from that place on.
    pub fn insert(&mut self, node: NodeId, parent: NodeId, place: u32) -> Result<(), TreeFault>
        requires alive { self.old.spent ≡ false }
        requires node_in { node < count self.old.rows }
        requires parent_in { parent < count self.old.rows }
        requires not_root { 0 < node }
        requires not_shadow { is_shadow self.old.rows node ≡ false }
        requires not_in_text { is_text self.old.rows parent ≡ false }
        ensures ok { OnOk result (self.new ≡ record self.old { rows = moved self.old.rows node parent place }) }
        ensures cause { reason result ≡ move_refusal self.old.rows node parent place }
        ensures err { IfErr result (Leaves self.old self.new) }
    {
        if is_above(&self.nodes, node, parent) {
            return Err(TreeFault::Cycle);
        }
        if !all_shallow_after(&self.nodes, node, parent) {
            return Err(TreeFault::Depth);
        }
        detach(&mut self.nodes, node);
        if attach(&mut self.nodes, node, parent, place as usize).is_err() {
            self.spent = true;
            return Err(TreeFault::Memory);
        }
        Ok(())
    }

    /// Takes the node out of its parent's children, so that it stands alone with what is below it.
    /// It goes over the parent's children, and takes no memory.
    pub fn remove(&mut self, node: NodeId)
        requires alive { self.old.spent ≡ false }
        requires node_in { node < count self.old.rows }
        requires not_root { 0 < node }
        requires not_shadow { is_shadow self.old.rows node ≡ false }
        ensures { self.new ≡ record self.old { rows = detached self.old.rows node } }
    {
        detach(&mut self.nodes, node)
    }

    /// Sets the attribute of an element where it stands, or last where there was none with exactly
    /// that name; where there is no value, takes it away. `Memory` where there is none for it. It
    /// goes over the node's attributes.
    pub fn set_attr(&mut self, node: NodeId, name: &str, value: Option<&str>) -> Result<(), Memory>
        requires alive { self.old.spent ≡ false }
        requires node_in { node < count self.old.rows }
        requires an_element { is_element self.old.rows node ≡ true }
        ensures ok { OnOk result (self.new ≡ record self.old { rows = with_attribute self.old.rows node (chars name.now) (option_map chars (option_copied value.entry)) }) }
        ensures err { OnErr result (self.new.spent ≡ true) }
    {
        if set_attribute(&mut self.nodes, self.alloc, node, name, value).is_err() {
            self.spent = true;
            return Err(Memory);
        }
        Ok(())
    }
}
