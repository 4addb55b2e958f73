//! The fields of nodes, each set alone, as tests.

use crate::nine_nodes::{element, nine_nodes};
use page_tree::{Document, PixelBox, Point};
use std::process::Abort;
use std::test::Fail;
use wd_json::NodeId;

/// What a node is.
#[derive(Clone, Copy)]
struct Expected<'a> {
    tag: Option<&'a str>,
    text: Option<&'a str>,
    value: &'a str,
    pixels: Option<PixelBox>,
    layer: i32,
    hidden: bool,
    checked: bool,
}

fn looks(rt: &impl Abort, page: &Document, node: u32, expected: Expected<'_>) {
    let node = NodeId::of(node);
    assert!(rt; !page.spent());
    assert!(rt; node.number() < page.count());
    assert_eq!(rt; page.tag(node), expected.tag);
    assert_eq!(rt; page.text(node), expected.text);
    assert_eq!(rt; page.value(node), expected.value);
    assert_eq!(rt; page.pixels(node), expected.pixels);
    assert_eq!(rt; page.layer(node), expected.layer);
    assert_eq!(rt; page.hidden(node), expected.hidden);
    assert_eq!(rt; page.checked(node), expected.checked);
}

fn added<'a>(tag: Option<&'a str>, text: Option<&'a str>) -> Expected<'a> {
    Expected {
        tag,
        text,
        value: "",
        pixels: None,
        layer: 0,
        hidden: false,
        checked: false,
    }
}

const PIXELS: PixelBox = PixelBox {
    x: 1,
    y: -2,
    w: 30,
    h: 40,
};

/// Sets each field once.
fn set_each(rt: &impl Abort, page: &mut Document) -> Result<(), Fail> {
    let at = element(rt, page, 2);
    page.set_value(at, "cat")?;
    let at = element(rt, page, 2);
    page.set_box(at, Some(PIXELS));
    let at = element(rt, page, 2);
    page.set_layer(at, -3);
    let at = element(rt, page, 3);
    page.set_hidden(at, true);
    let at = element(rt, page, 4);
    page.set_checked(at, true);
    let at = element(rt, page, 5);
    page.set_focus(Some(at));
    assert!(rt; !page.spent());
    page.set_scroll(Point { x: 7, y: -50 });
    assert!(rt; page.count() == 9);
    assert!(rt; page.text(NodeId::of(7)).is_some());
    page.set_text(NodeId::of(7), "dog")?;
    Ok(())
}

/// Node 2 has a value, a box and a layer, node 3 is hidden, node 4 checked, the text 7 another, and no other node has
/// any of that.
fn sees_each(rt: &impl Abort, page: &Document) {
    looks(rt, page, 0, added(Some("html"), None));
    looks(rt, page, 1, added(Some("p"), None));
    let mut second = added(Some("p"), None);
    second.value = "cat";
    second.pixels = Some(PIXELS);
    second.layer = -3;
    looks(rt, page, 2, second);
    let mut third = added(Some("p"), None);
    third.hidden = true;
    looks(rt, page, 3, third);
    let mut fourth = added(Some("p"), None);
    fourth.checked = true;
    looks(rt, page, 4, fourth);
    looks(rt, page, 5, added(Some("p"), None));
    looks(rt, page, 6, added(None, Some("x")));
    looks(rt, page, 7, added(None, Some("dog")));
    looks(rt, page, 8, added(Some("b"), None));
}

#[test]
fn each_field_is_set_alone(rt: HostRuntime) -> Result<(), Fail> {
    let mut page = nine_nodes(&rt, rt.alloc())?;
    set_each(&rt, &mut page)?;
    sees_each(&rt, &page);
    assert!(rt; !page.spent());
    assert_eq!(rt; page.focus(), Some(NodeId::of(5)));
    assert_eq!(rt; page.scroll(), Point { x: 7, y: -50 });
    Ok(())
}

#[test]
fn a_box_and_the_focus_are_taken_back(rt: HostRuntime) -> Result<(), Fail> {
    let mut page = nine_nodes(&rt, rt.alloc())?;
    set_each(&rt, &mut page)?;
    let at = element(&rt, &page, 2);
    page.set_box(at, None);
    assert!(rt; !page.spent());
    page.set_focus(None);
    let mut second = added(Some("p"), None);
    second.value = "cat";
    second.layer = -3;
    looks(&rt, &page, 2, second);
    assert!(rt; !page.spent());
    assert_eq!(rt; page.focus(), None);
    Ok(())
}
