//! Elements, texts and attributes, from which the pages of the tests are made.

ghost use Rattle.std.specs.Prelude.{◌≡◌, ◌∷◌, [], Some, None, codes, IfOk};
ghost use Rattle.std.specs.Str.{IsAscii};
ghost use Rattle.page_engine.specs.BuiltIn.{an_element, a_text};

use page_engine::{AttrList, HandlerList, NodeDef, NodeKind};
use page_tree::PixelBox;
use std::alloc::Global;
use wd_json::{Memory, WdText};

/// An element that shows and holds nothing but this.
pub fn element(
    alloc: Global,
    tag: &str,
    up: Option<u32>,
    attrs: AttrList,
    pixels: Option<PixelBox>,
) -> Result<NodeDef, Memory>
    requires { IsAscii tag.now }
    ensures { IfOk result (λ node. node ≡ an_element tag.now up attrs pixels) }
{
    Ok(NodeDef {
        kind: NodeKind::Element(ascii(alloc, tag)?),
        up,
        attrs,
        pixels,
        layer: 0,
        hidden: false,
        on: HandlerList::new(alloc),
    })
}

/// A text.
pub fn text(alloc: Global, text: &str, up: u32) -> Result<NodeDef, Memory>
    requires { IsAscii text.now }
    ensures { IfOk result (λ node. node ≡ a_text text.now up) }
{
    Ok(NodeDef {
        kind: NodeKind::Chars(ascii(alloc, text)?),
        up: Some(up),
        attrs: AttrList::new(alloc),
        pixels: None,
        layer: 0,
        hidden: false,
        on: HandlerList::new(alloc),
    })
}

pub fn ascii(alloc: Global, text: &str) -> Result<WdText, Memory>
    requires { IsAscii text.now }
    ensures { IfOk result (λ t. t ≡ text.now) }
{
    WdText::of(alloc, text)
}

/// One attribute.
pub fn one(alloc: Global, name: &str, value: &str) -> Result<AttrList, Memory>
    requires name { IsAscii name.now }
    requires value { IsAscii value.now }
    ensures { IfOk result (λ attrs. attrs ≡ (name.now, value.now) ∷ []) }
{
    let mut attrs = AttrList::new(alloc);
    attrs.push((ascii(alloc, name)?, ascii(alloc, value)?))?;
    Ok(attrs)
}

pub fn sized(x: i32, y: i32, w: i32, h: i32) -> Option<PixelBox>
    ensures { result ≡ Some (record { x = x; y = y; w = w; h = h }) }
{
    Some(PixelBox { x, y, w, h })
}
