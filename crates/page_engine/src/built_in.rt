//! The built-in page, and the bare page and plain element that it is made of.

ghost use Rattle.std.specs.Prelude.{◌≡◌, ◌∷◌, [], ◌++◌, Some, None, codes, pos, IfOk, OnOk};
ghost use Rattle.std.specs.Str.{IsAscii};
ghost use Rattle.page_engine.specs.BuiltIn.{an_element, a_text, built_in_head, built_in_heading, built_in_field, built_in_link, built_in_page, built_in_address};
ghost use Rattle.page_engine.specs.Sites.{IsAddress};

use crate::book::Book;
use crate::page_def::{AttrList, HandlerList, NodeDef, NodeDefList, NodeKind, PageDef, TimerList};
use page_tree::PixelBox;
use std::alloc::Global;
use url::Url;
use wd_json::{Memory, WdText};

/// The built-in page.
pub fn built_in_page(alloc: Global) -> Result<PageDef, Memory>
    ensures page { IfOk result (λ page. page ≡ built_in_page) }
    ensures address { OnOk result (IsAddress built_in_address) }
{
    let address = own_address(alloc)?;
    let mut nodes = head(alloc)?;
    heading(alloc, &mut nodes)?;
    field(alloc, &mut nodes)?;
    link(alloc, &mut nodes)?;
    Ok(bare_page(alloc, address, nodes))
}

/// A page without timers and scripts, which is loaded at once.
pub fn bare_page(alloc: Global, address: WdText, nodes: NodeDefList) -> PageDef
    ensures { result ≡ record { address = address; nodes = nodes; timers = []; book = []; eager = 0; load = 0 } }
{
    PageDef {
        address,
        nodes,
        timers: TimerList::new(alloc),
        book: Book::new(alloc),
        eager: 0,
        load: 0,
    }
}

/// The page's address. That it is one is asked of `url`, which refuses it for want of memory alone.
fn own_address(alloc: Global) -> Result<WdText, Memory>
    ensures text { IfOk result (λ text. text ≡ built_in_address) }
    ensures address { OnOk result (IsAddress built_in_address) }
{
    let text = "http://page.test/";
    match Url::parse(alloc, text) {
        Ok(url) => {
            if url.as_str() == text && url.fragment().is_none() {
                ascii(alloc, text)
            } else {
                Err(Memory)
            }
        }
        Err(_) => Err(Memory),
    }
}

/// html, and the head with its title.
#[tactic(auto, unfolding(crate::specs::BuiltIn::built_in_head))]
fn head(alloc: Global) -> Result<NodeDefList, Memory>
    ensures { IfOk result (λ nodes. nodes ≡ built_in_head) }
{
    let mut nodes = NodeDefList::new(alloc);
    nodes.push(element(alloc, "html", None, AttrList::new(alloc), None)?)?;
    nodes.push(element(alloc, "head", Some(0), AttrList::new(alloc), None)?)?;
    nodes.push(element(alloc, "title", Some(1), AttrList::new(alloc), None)?)?;
    nodes.push(text(alloc, "Page", 2)?)?;
    Ok(nodes)
}

/// The body, with a heading.
#[tactic(auto, unfolding(crate::specs::BuiltIn::built_in_heading))]
fn heading(alloc: Global, nodes: &mut NodeDefList) -> Result<(), Memory>
    ensures { OnOk result (nodes.new ≡ nodes.old ++ built_in_heading) }
{
    let none = AttrList::new(alloc);
    let top = one(alloc, "id", "top")?;
    nodes.push(element(alloc, "body", Some(0), none, sized(0, 0, 1280, 800))?)?;
    nodes.push(element(alloc, "h1", Some(4), top, sized(0, 0, 640, 40))?)?;
    nodes.push(text(alloc, "Hello", 5)?)?;
    Ok(())
}

/// A field.
#[tactic(auto, unfolding(crate::specs::BuiltIn::built_in_field))]
fn field(alloc: Global, nodes: &mut NodeDefList) -> Result<(), Memory>
    ensures { OnOk result (nodes.new ≡ nodes.old ++ built_in_field) }
{
    let mut attrs = one(alloc, "id", "name")?;
    attrs.push((ascii(alloc, "type")?, ascii(alloc, "text")?))?;
    nodes.push(element(alloc, "input", Some(4), attrs, sized(0, 60, 200, 20))?)?;
    Ok(())
}

/// A link.
#[tactic(auto, unfolding(crate::specs::BuiltIn::built_in_link))]
fn link(alloc: Global, nodes: &mut NodeDefList) -> Result<(), Memory>
    ensures { OnOk result (nodes.new ≡ nodes.old ++ built_in_link) }
{
    let attrs = one(alloc, "href", "/")?;
    nodes.push(element(alloc, "a", Some(4), attrs, sized(0, 100, 100, 20))?)?;
    nodes.push(text(alloc, "again", 8)?)?;
    Ok(())
}

/// An element that shows and holds nothing but this.
pub fn element(
    alloc: Global,
    tag: &str,
    up: Option<u32>,
    attrs: AttrList,
    pixels: Option<PixelBox>,
) -> Result<NodeDef, Memory>
    requires { IsAscii tag.now }
    ensures { IfOk result (λ node. node ≡ an_element tag.now up attrs pixels) }
{
    Ok(NodeDef {
        kind: NodeKind::Element(ascii(alloc, tag)?),
        up,
        attrs,
        pixels,
        layer: 0,
        hidden: false,
        on: HandlerList::new(alloc),
    })
}

/// A text.
pub fn text(alloc: Global, text: &str, up: u32) -> Result<NodeDef, Memory>
    requires { IsAscii text.now }
    ensures { IfOk result (λ node. node ≡ a_text text.now up) }
{
    Ok(NodeDef {
        kind: NodeKind::Chars(ascii(alloc, text)?),
        up: Some(up),
        attrs: AttrList::new(alloc),
        pixels: None,
        layer: 0,
        hidden: false,
        on: HandlerList::new(alloc),
    })
}

pub fn ascii(alloc: Global, text: &str) -> Result<WdText, Memory>
    requires { IsAscii text.now }
    ensures { IfOk result (λ t. t ≡ text.now) }
{
    WdText::of(alloc, text)
}

/// One attribute.
pub fn one(alloc: Global, name: &str, value: &str) -> Result<AttrList, Memory>
    requires name { IsAscii name.now }
    requires value { IsAscii value.now }
    ensures { IfOk result (λ attrs. attrs ≡ (name.now, value.now) ∷ []) }
{
    let mut attrs = AttrList::new(alloc);
    attrs.push((ascii(alloc, name)?, ascii(alloc, value)?))?;
    Ok(attrs)
}

pub fn sized(x: i32, y: i32, w: i32, h: i32) -> Option<PixelBox>
    ensures { result ≡ Some (record { x = x; y = y; w = w; h = h }) }
{
    Some(PixelBox { x, y, w, h })
}
