//! Small pages for the tests, from rows of nodes and their parents.

use page_tree::Document;
use std::alloc::Global;
use std::process::Abort;
use std::test::Fail;
use wd_json::NodeId;

/// A node and its parent: `#` is a shadow root, a word after `=` a text, one after `!` a hidden
/// element, and any other word an element. Nodes are numbered from 1 in their order; 0 is `html`.
pub type Row<'a> = (u32, &'a str);

fn place(rt: &impl Abort, page: &mut Document, node: NodeId, up: u32) -> Result<(), Fail> {
    assert!(rt; !page.spent());
    assert!(rt; 0 < node.number());
    assert!(rt; node.number() < page.count());
    assert!(rt; up < page.count());
    assert!(rt; !page.is_shadow(node));
    assert!(rt; page.text(NodeId::of(up)).is_none());
    page.insert(node, NodeId::of(up), 1000)?;
    Ok(())
}

fn add_shadow(rt: &impl Abort, page: &mut Document, host: u32) -> Result<(), Fail> {
    let host = NodeId::of(host);
    assert!(rt; !page.spent());
    assert!(rt; host.number() < page.count());
    assert!(rt; page.tag(host).is_some());
    assert!(rt; page.shadow_of(host).is_none());
    page.add_shadow(host)?;
    Ok(())
}

fn add_hidden(rt: &impl Abort, page: &mut Document, tag: &str) -> Result<NodeId, Fail> {
    assert!(rt; !page.spent());
    let node = page.add_element(tag)?;
    assert!(rt; !page.spent());
    assert!(rt; node.number() < page.count());
    assert!(rt; page.tag(node).is_some());
    page.set_hidden(node, true);
    Ok(node)
}

fn add(rt: &impl Abort, page: &mut Document, row: Row<'_>) -> Result<(), Fail> {
    let (up, what) = row;
    if what == "#" {
        return add_shadow(rt, page, up);
    }
    assert!(rt; !page.spent());
    let node = if let Some(text) = what.strip_prefix('=') {
        page.add_text(text)?
    } else if let Some(tag) = what.strip_prefix('!') {
        add_hidden(rt, page, tag)?
    } else {
        page.add_element(what)?
    };
    place(rt, page, node, up)
}

/// The page of these nodes.
pub fn page(rt: &impl Abort, alloc: Global, rows: &[Row<'_>]) -> Result<Document, Fail> {
    let mut page = Document::new(alloc, "html")?;
    for row in rows {
        add(rt, &mut page, *row)?;
    }
    Ok(page)
}
