//! What a node is, apart from where it stands.

ghost use Rattle.std.specs.Prelude.{◌≡◌, IfOk};
ghost use Rattle.std.specs.Str.{chars};

use crate::attributes::Attributes;
use crate::geometry::PixelBox;
use std::alloc::Global;
use wd_json::{Memory, WdText};

/// What a node is, apart from where it stands.
#[derive(Drop)]
pub struct Content {
    pub kind: Kind,
    pub attributes: Attributes,
    pub pixels: Option<PixelBox>,
    pub layer: i32,
    pub hidden: bool,
    pub value: WdText,
    pub checked: bool,
}

/// The kinds of nodes: an element with its tag, a text with its characters, a shadow root.
#[derive(Drop)]
pub enum Kind {
    Element(WdText),
    Text(WdText),
    Shadow,
}

impl Content {
    ghost use Rattle.page_tree.specs.Rows.{plain, element, text_node, shadow_root};

    /// An element with this tag, as it is added.
    pub fn element(alloc: Global, tag: &str) -> Result<Content, Memory>
        ensures { IfOk result (λ content. content ≡ element (chars tag.now)) }
    {
        let tag = WdText::of(alloc, tag)?;
        Ok(Content::plain(alloc, Kind::Element(tag)))
    }

    /// A text with these characters.
    pub fn text(alloc: Global, text: &str) -> Result<Content, Memory>
        ensures { IfOk result (λ content. content ≡ text_node (chars text.now)) }
    {
        let text = WdText::of(alloc, text)?;
        Ok(Content::plain(alloc, Kind::Text(text)))
    }

    /// A shadow root. It takes no memory.
    pub fn shadow(alloc: Global) -> Content
        ensures { result ≡ shadow_root }
    {
        Content::plain(alloc, Kind::Shadow)
    }

    // A node of that kind, as it is added. It takes no memory.
    fn plain(alloc: Global, kind: Kind) -> Content
        ensures { result ≡ plain kind }
    {
        Content {
            kind,
            attributes: Attributes::new(alloc),
            pixels: None,
            layer: 0,
            hidden: false,
            value: WdText::new(alloc),
            checked: false,
        }
    }
}
