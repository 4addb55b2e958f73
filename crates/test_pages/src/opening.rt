//! An opened page with its first values, and how it runs, as tests.

use crate::dozen::a_dozen;
use crate::parents::parents;
use page_engine::{Due, Event, EventKind, Page};
use page_tree::PixelBox;
use std::process::Abort;
use std::test::Fail;
use wd_json::NodeId;

/// No value, and not checked.
const NONE: (&str, bool) = ("", false);

const VALUES: [(&str, bool); 12] = [
    NONE,
    NONE,
    NONE,
    NONE,
    NONE,
    ("v", true),
    ("abcd", false),
    NONE,
    NONE,
    ("x", false),
    NONE,
    ("", true),
];

/// The first values and checked states of the nodes.
fn values(rt: &impl Abort, page: &Page, expected: &[(&str, bool)]) {
    assert!(rt; !page.spent());
    let document = page.document();
    for (node, (value, checked)) in (0u32..).zip(expected) {
        assert!(rt; node < document.count());
        assert_eq!(rt; document.value(NodeId::of(node)), *value);
        assert_eq!(rt; document.checked(NodeId::of(node)), *checked);
    }
}

/// The attribute, the box, the layer of 2, and whether it is hidden.
fn div(rt: &impl Abort, page: &Page, layer: i32, hidden: bool) {
    assert!(rt; !page.spent());
    let document = page.document();
    assert!(rt; document.count() > 2);
    let node = NodeId::of(2);
    assert_eq!(rt; document.attr(node, "id"), Some("main"));
    let pixels = PixelBox {
        x: 1,
        y: 2,
        w: 30,
        h: 40,
    };
    assert_eq!(rt; document.pixels(node), Some(pixels));
    assert_eq!(rt; document.layer(node), layer);
    assert_eq!(rt; document.hidden(node), hidden);
}

#[test]
fn a_page_is_opened(rt: HostRuntime) -> Result<(), Fail> {
    let def = a_dozen(rt.alloc())?;
    let page = Page::open(rt.alloc(), &def, 100, 7, false)?;
    parents(&rt, &page, &[99, 0, 1, 2, 3, 1, 1, 6, 6, 99, 9, 1]);
    values(&rt, &page, &VALUES);
    div(&rt, &page, 3, true);
    assert!(rt; !page.spent());
    let due = Due {
        moment: 140,
        number: 7,
    };
    assert_eq!(rt; page.next_due(), Some(due));
    let timed = Page::open(rt.alloc(), &def, 100, 7, true)?;
    assert!(rt; timed.next_due().is_none());
    Ok(())
}

#[test]
fn an_opened_page_runs(rt: HostRuntime) -> Result<(), Fail> {
    let def = a_dozen(rt.alloc())?;
    let mut page = Page::open(rt.alloc(), &def, 100, 7, false)?;
    let event = Event::Plain {
        kind: EventKind::Click,
        target: NodeId::of(4),
    };
    assert!(rt; !page.spent());
    drop(page.dispatch(&event, 110, 8)?);
    div(&rt, &page, 5, true);
    assert!(rt; !page.spent());
    assert!(rt; page.next_due().is_some());
    drop(page.run_due(140)?);
    div(&rt, &page, 5, false);
    Ok(())
}
