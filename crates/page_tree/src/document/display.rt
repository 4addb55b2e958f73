//! Whether a document's nodes are hidden, shown and displayed.

ghost use Rattle.std.specs.Prelude.{◌≡◌, ◌<◌, false};
ghost use Rattle.page_tree.specs.Rows.{count};
ghost use Rattle.page_tree.specs.Display.{hides, is_shown, is_displayed};

use crate::displayed::is_displayed;
use crate::document::Document;
use crate::shown::{hides, is_shown};
use wd_json::NodeId;

/// What of the page can be seen, by the page format's own rules: boxes come with the page, and
/// there are no style sheets.
impl Document {
    /// Whether the node itself is hidden, and with it all that stands under it: it was set so, has
    /// the attribute `hidden`, is an input whose type is `hidden`, or has the tag `head`, `title`,
    /// `script`, `style`, `meta`, `link`, `template` or `noscript`. It takes no memory; it goes over
    /// the node's attributes.
    pub fn hides(&self, node: NodeId) -> bool
        requires alive { self.now.spent ≡ false }
        requires node_in { node < count self.now.rows }
        ensures { result ≡ hides self.now.rows node }
    {
        hides(&self.nodes, node)
    }

    /// Whether a node is shown: it is connected, and neither it nor what is above it, through hosts,
    /// is hidden as `hides` says. It takes no memory; it goes over the attributes of at most 200
    /// nodes.
    pub fn shown(&self, node: NodeId) -> bool
        requires alive { self.now.spent ≡ false }
        requires node_in { node < count self.now.rows }
        ensures { result ≡ is_shown self.now.rows node }
    {
        is_shown(&self.nodes, node)
    }

    /// Whether a node is displayed: it is shown, and has a box at least one pixel wide and high, or
    /// a child element that is displayed, where options and optgroups inside a select don't count.
    /// Such an option or optgroup is displayed exactly where the nearest select above it is, through
    /// hosts. It takes no memory; it goes over what is above the node, and at most once over each
    /// node below it, or below that select.
    pub fn displayed(&self, node: NodeId) -> bool
        requires alive { self.now.spent ≡ false }
        requires node_in { node < count self.now.rows }
        ensures { result ≡ is_displayed self.now.rows node }
    {
        is_displayed(&self.nodes, node)
    }
}
