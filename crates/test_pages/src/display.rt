//! Which nodes of a page are shown and displayed, as a test.

use page_tree::{Document, PixelBox};
use std::alloc::Global;
use std::process::Abort;
use std::test::Fail;
use wd_json::NodeId;

/// What a node of the test page is.
#[derive(Clone, Copy)]
enum Made<'a> {
    Element(&'a str),
    /// with an attribute
    With(&'a str, &'a str, &'a str),
    /// set hidden
    Hidden(&'a str),
    Text,
    Shadow,
}

/// A node's number, what it is, its parent, its width and height (no box where both are 0), whether
/// it is shown, and whether it is displayed.
type Row<'a> = (u32, Made<'a>, Option<u32>, (i32, i32), bool, bool);

const ROWS: [Row<'static>; 32] = [
    (1, Made::Element("head"), Some(0), (0, 0), false, false),
    (2, Made::Element("title"), Some(1), (10, 10), false, false),
    (3, Made::Element("body"), Some(0), (0, 0), true, true),
    // a box without height
    (4, Made::Element("div"), Some(3), (10, 0), true, false),
    (5, Made::Text, Some(4), (0, 0), true, false),
    (6, Made::Element("div"), Some(3), (1, 1), true, true),
    (7, Made::Hidden("div"), Some(3), (0, 0), false, false),
    (8, Made::Element("b"), Some(7), (5, 5), false, false),
    (
        9,
        Made::With("p", "hidden", ""),
        Some(3),
        (5, 5),
        false,
        false,
    ),
    (
        10,
        Made::With("input", "type", "hidden"),
        Some(3),
        (5, 5),
        false,
        false,
    ),
    (
        11,
        Made::With("input", "type", "HIDDEN"),
        Some(3),
        (5, 5),
        true,
        true,
    ),
    // a host: its shadow tree is displayed, and no child is
    (12, Made::Element("div"), Some(3), (0, 0), true, false),
    (13, Made::Shadow, Some(12), (0, 0), true, true),
    (14, Made::Element("b"), Some(13), (5, 5), true, true),
    // a select that has nothing but its choices
    (15, Made::Element("select"), Some(3), (0, 0), true, false),
    (16, Made::Element("optgroup"), Some(15), (5, 5), true, false),
    (17, Made::Element("option"), Some(16), (5, 5), true, false),
    // a select with a box: a hidden option of it is displayed
    (18, Made::Element("select"), Some(3), (9, 9), true, true),
    (19, Made::Hidden("option"), Some(18), (0, 0), false, true),
    // an option outside a select
    (20, Made::Element("option"), Some(3), (5, 5), true, true),
    // a select with a child that has a box
    (21, Made::Element("select"), Some(3), (0, 0), true, true),
    (22, Made::Element("div"), Some(21), (2, 2), true, true),
    (23, Made::Element("option"), Some(22), (0, 0), true, true),
    // it stands alone
    (24, Made::Element("div"), None, (5, 5), false, false),
    (25, Made::Element("template"), Some(3), (5, 5), false, false),
    // under a hidden host
    (26, Made::Hidden("div"), Some(3), (5, 5), false, false),
    (27, Made::Shadow, Some(26), (0, 0), false, false),
    (28, Made::Element("b"), Some(27), (5, 5), false, false),
    // a box three levels down
    (29, Made::Element("ul"), Some(3), (0, 0), true, true),
    (30, Made::Element("li"), Some(29), (0, 7), true, true),
    (31, Made::Element("i"), Some(30), (7, 7), true, true),
    (
        32,
        Made::Element("noscript"),
        Some(30),
        (7, 7),
        false,
        false,
    ),
];

/// Puts a new node last under its parent.
fn put(rt: &impl Abort, page: &mut Document, node: NodeId, up: u32) -> Result<(), Fail> {
    assert!(rt; !page.spent());
    assert!(rt; 0 < node.number());
    assert!(rt; node.number() < page.count());
    assert!(rt; up < page.count());
    assert!(rt; !page.is_shadow(node));
    assert!(rt; page.text(NodeId::of(up)).is_none());
    page.insert(node, NodeId::of(up), 1000)?;
    Ok(())
}

fn add_element(
    rt: &impl Abort,
    page: &mut Document,
    tag: &str,
    size: (i32, i32),
) -> Result<NodeId, Fail> {
    assert!(rt; !page.spent());
    let node = page.add_element(tag)?;
    let (w, h) = size;
    if w > 0 || h > 0 {
        assert!(rt; !page.spent());
        assert!(rt; node.number() < page.count());
        assert!(rt; page.tag(node).is_some());
        page.set_box(node, Some(PixelBox { x: 3, y: 4, w, h }));
    }
    Ok(node)
}

fn add(rt: &impl Abort, page: &mut Document, row: Row<'_>) -> Result<(), Fail> {
    let (_, made, up, size, _, _) = row;
    let node = match made {
        Made::Element(tag) => add_element(rt, page, tag, size)?,
        Made::With(tag, _, _) => add_element(rt, page, tag, size)?,
        Made::Hidden(tag) => add_element(rt, page, tag, size)?,
        Made::Text => {
            assert!(rt; !page.spent());
            page.add_text("text")?
        }
        Made::Shadow => return add_shadow(rt, page, up.unwrap_or(0)),
    };
    mark(rt, page, node, made)?;
    match up {
        Some(up) => put(rt, page, node, up),
        None => Ok(()),
    }
}

fn add_shadow(rt: &impl Abort, page: &mut Document, host: u32) -> Result<(), Fail> {
    let host = NodeId::of(host);
    assert!(rt; !page.spent());
    assert!(rt; host.number() < page.count());
    assert!(rt; page.tag(host).is_some());
    assert!(rt; page.shadow_of(host).is_none());
    page.add_shadow(host)?;
    Ok(())
}

/// Sets the attribute, or the node hidden.
fn mark(rt: &impl Abort, page: &mut Document, node: NodeId, made: Made<'_>) -> Result<(), Fail> {
    assert!(rt; !page.spent());
    assert!(rt; node.number() < page.count());
    if page.tag(node).is_none() {
        return Ok(());
    }
    match made {
        Made::With(_, name, value) => page.set_attr(node, name, Some(value))?,
        Made::Hidden(_) => page.set_hidden(node, true),
        _ => {}
    }
    Ok(())
}

fn page(rt: &impl Abort, alloc: Global) -> Result<Document, Fail> {
    let mut page = Document::new(alloc, "html")?;
    for row in ROWS {
        add(rt, &mut page, row)?;
    }
    Ok(page)
}

fn sees(rt: &impl Abort, page: &Document, number: u32, shown: bool, displayed: bool) {
    let node = NodeId::of(number);
    assert!(rt; !page.spent());
    assert!(rt; number < page.count());
    assert_eq!(rt; (number, page.shown(node)), (number, shown));
    assert_eq!(rt; (number, page.displayed(node)), (number, displayed));
}

#[test]
fn nodes_are_shown_and_displayed(rt: HostRuntime) -> Result<(), Fail> {
    let page = page(&rt, rt.alloc())?;
    sees(&rt, &page, 0, true, true);
    for (number, _, _, _, shown, displayed) in ROWS {
        sees(&rt, &page, number, shown, displayed);
    }
    Ok(())
}
