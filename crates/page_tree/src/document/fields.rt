//! The fields of a document's nodes, what has the focus, and the scroll position.

ghost use Rattle.std.specs.Prelude.{◌≡◌, ◌<◌, false, true, IfSome, OnOk, OnErr};
ghost use Rattle.std.specs.Str.{chars};
ghost use Rattle.page_tree.specs.Rows.{count, is_element, is_text, attributes_at, value_at, checked_at, pixels_at, layer_at, hidden_at, with_text, with_value, with_pixels, with_layer, with_hidden, with_checked, with_focus, with_scroll};

use crate::content::Kind;
use crate::document::Document;
use crate::geometry::{PixelBox, Point};
use wd_json::{Memory, NodeId, WdText};

/// What a node shows and holds, what has the focus, and how far the page is scrolled. Each call that
/// sets one of these sets it and nothing else.
impl Document {
    /// A node's attributes in the order in which they were first set: the name and the value of
    /// each. It takes no memory.
    pub fn attributes(&self, node: NodeId) -> &[(WdText, WdText)]
        requires alive { self.now.spent ≡ false }
        requires node_in { node < count self.now.rows }
        ensures { result.now ≡ attributes_at self.now.rows node }
    {
        self.nodes[node.index()].content.attributes.all()
    }

    /// The characters of a node's value: those that were set last, else none. It takes no memory.
    pub fn value(&self, node: NodeId) -> &str
        requires alive { self.now.spent ≡ false }
        requires node_in { node < count self.now.rows }
        ensures { chars result.now ≡ value_at self.now.rows node }
    {
        self.nodes[node.index()].content.value.as_str()
    }

    /// Whether a node is checked: as it was set last, else `false`. It takes no memory.
    pub fn checked(&self, node: NodeId) -> bool
        requires alive { self.now.spent ≡ false }
        requires node_in { node < count self.now.rows }
        ensures { result ≡ checked_at self.now.rows node }
    {
        self.nodes[node.index()].content.checked
    }

    /// A node's box on the page: as it was set last, else `None`. It takes no memory.
    pub fn pixels(&self, node: NodeId) -> Option<PixelBox>
        requires alive { self.now.spent ≡ false }
        requires node_in { node < count self.now.rows }
        ensures { result ≡ pixels_at self.now.rows node }
    {
        self.nodes[node.index()].content.pixels
    }

    /// The layer in which a node is painted: as it was set last, else 0. It takes no memory.
    pub fn layer(&self, node: NodeId) -> i32
        requires alive { self.now.spent ≡ false }
        requires node_in { node < count self.now.rows }
        ensures { result ≡ layer_at self.now.rows node }
    {
        self.nodes[node.index()].content.layer
    }

    /// Whether a node was hidden: as it was set last, else `false`; whatever hides what is above it
    /// doesn't count here. It takes no memory.
    pub fn hidden(&self, node: NodeId) -> bool
        requires alive { self.now.spent ≡ false }
        requires node_in { node < count self.now.rows }
        ensures { result ≡ hidden_at self.now.rows node }
    {
        self.nodes[node.index()].content.hidden
    }

    /// The element that has the focus, `None` where none has (HTML Standard, "focus"). It takes no
    /// memory.
    pub fn focus(&self) -> Option<NodeId>
        requires { self.now.spent ≡ false }
        ensures row { result ≡ self.now.rows.focus }
        ensures within { IfSome result (λ node. node < count self.now.rows) }
        ensures element { IfSome result (λ node. is_element self.now.rows node ≡ true) }
    {
        self.focus
    }

    /// How far the page is scrolled: as it was set last, else not at all. It takes no memory.
    pub fn scroll(&self) -> Point
        requires { self.now.spent ≡ false }
        ensures { result ≡ self.now.rows.scroll }
    {
        self.scroll
    }

    /// Gives a text these characters. `Memory` where there is none for them.
    pub fn set_text(&mut self, node: NodeId, text: &str) -> Result<(), Memory>
        requires alive { self.old.spent ≡ false }
        requires node_in { node < count self.old.rows }
        requires a_text { is_text self.old.rows node ≡ true }
        ensures ok { OnOk result (self.new ≡ record self.old { rows = with_text self.old.rows node (chars text.now) }) }
        ensures err { OnErr result (self.new.spent ≡ true) }
    {
        let Ok(text) = WdText::of(self.alloc, text) else {
            self.spent = true;
            return Err(Memory);
        };
        self.nodes[node.index()].content.kind = Kind::Text(text);
        Ok(())
    }

    /// Gives an element this value. `Memory` where there is none for it.
    pub fn set_value(&mut self, node: NodeId, text: &str) -> Result<(), Memory>
        requires alive { self.old.spent ≡ false }
        requires node_in { node < count self.old.rows }
        requires an_element { is_element self.old.rows node ≡ true }
        ensures ok { OnOk result (self.new ≡ record self.old { rows = with_value self.old.rows node (chars text.now) }) }
        ensures err { OnErr result (self.new.spent ≡ true) }
    {
        let Ok(text) = WdText::of(self.alloc, text) else {
            self.spent = true;
            return Err(Memory);
        };
        self.nodes[node.index()].content.value = text;
        Ok(())
    }

    /// Gives an element this box, or takes its box away. It takes no memory.
    pub fn set_box(&mut self, node: NodeId, pixels: Option<PixelBox>)
        requires alive { self.old.spent ≡ false }
        requires node_in { node < count self.old.rows }
        requires an_element { is_element self.old.rows node ≡ true }
        ensures { self.new ≡ record self.old { rows = with_pixels self.old.rows node pixels } }
    {
        self.nodes[node.index()].content.pixels = pixels;
    }

    /// Puts an element into this layer. It takes no memory.
    pub fn set_layer(&mut self, node: NodeId, layer: i32)
        requires alive { self.old.spent ≡ false }
        requires node_in { node < count self.old.rows }
        requires an_element { is_element self.old.rows node ≡ true }
        ensures { self.new ≡ record self.old { rows = with_layer self.old.rows node layer } }
    {
        self.nodes[node.index()].content.layer = layer;
    }

    /// Says whether an element is hidden. It takes no memory.
    pub fn set_hidden(&mut self, node: NodeId, hidden: bool)
        requires alive { self.old.spent ≡ false }
        requires node_in { node < count self.old.rows }
        requires an_element { is_element self.old.rows node ≡ true }
        ensures { self.new ≡ record self.old { rows = with_hidden self.old.rows node hidden } }
    {
        self.nodes[node.index()].content.hidden = hidden;
    }

    /// Says whether an element is checked. It takes no memory.
    pub fn set_checked(&mut self, node: NodeId, checked: bool)
        requires alive { self.old.spent ≡ false }
        requires node_in { node < count self.old.rows }
        requires an_element { is_element self.old.rows node ≡ true }
        ensures { self.new ≡ record self.old { rows = with_checked self.old.rows node checked } }
    {
        self.nodes[node.index()].content.checked = checked;
    }

    /// Gives this element the focus, or takes it from whatever has it. It takes no memory.
    pub fn set_focus(&mut self, node: Option<NodeId>)
        requires alive { self.old.spent ≡ false }
        requires node_in { IfSome node (λ n. n < count self.old.rows) }
        requires an_element { IfSome node (λ n. is_element self.old.rows n ≡ true) }
        ensures { self.new ≡ record self.old { rows = with_focus self.old.rows node } }
    {
        self.focus = node;
    }

    /// Scrolls the page to there. It takes no memory.
    pub fn set_scroll(&mut self, at: Point)
        requires { self.old.spent ≡ false }
        ensures { self.new ≡ record self.old { rows = with_scroll self.old.rows at } }
    {
        self.scroll = at;
    }
}
